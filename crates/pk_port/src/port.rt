//! The port: a drive, its board and a buffer, lent together.
ghost use Rattle.std.specs.Prelude.{◌≡◌};
ghost use Rattle.pk_call.specs.Running.{HasRoomForData};
ghost use Rattle.pk_port.specs.Ready.{Fits};

use crate::Tally;
use pk_base::Shape;
use pk_drive::Engine;
use pk_nand::Nand;

/// A drive on its board as a port. The board is free again when the port is dropped, and is then as
/// the chain of `took` says.
#[derive(Drop)]
pub struct DrivePort<'d, 'b, 't, 'm, D: Engine, B: Nand> {
    /// The drive, stopped or with nothing pending.
    pub drive: &'d mut D,
    /// Its board.
    pub board: &'b mut B,
    /// What the port counts.
    pub tally: &'t mut Tally,
    /// Room for the data of any command: `MOST_LIST_BYTES`, or the greatest value if that is more.
    pub buffer: &'m mut [u8],
    /// The shape of the board.
    pub shape: Shape,
    ghost room: { HasRoomForData shape buffer.now },
    ghost fits: { ∥ Fits (D.agrees drive.now) shape (B.state board.now) (D.sight drive.now) ∥₁ },
}
