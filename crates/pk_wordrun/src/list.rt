//! A list of keys to the host.
ghost use Rattle.std.specs.Prelude.{◌≡◌, false, Some, IfSome};
ghost use Rattle.pk_base.specs.Map.{Map};
ghost use Rattle.pk_host.specs.Calls.{IsOwnKey};
ghost use Rattle.pk_model.specs.Reading.{Holds};
ghost use Rattle.pk_words.specs.Said.{Spoken};
ghost use Rattle.pk_call.specs.Running.{HasRoomForData};
ghost use Rattle.pk_port.specs.Ready.{Fits};
ghost use Rattle.pk_wordrun.specs.Tasks.{list};
ghost use Rattle.pk_wordrun.specs.Told.{Told};
ghost use Rattle.pk_port.specs.Steps.{mount};

use crate::end::WordEnd;
use crate::keys::tell_piece;
use pk_base::{Key, Shape};
use pk_drive::Engine;
use pk_nand::Board;
use pk_words::{ListPosition, Words};

/// Gives the keys of a drive to the host, from this one on or all, piece by piece.
pub fn tell_keys<D: Engine, B: Board>(
    words: &mut Words,
    drive: &mut D,
    board: &mut B,
    buffer: &mut [u8],
    shape: Shape,
    from: Option<Key>,
) -> WordEnd
    requires own { IfSome from IsOwnKey }

    // The drive on its board, and the buffer for data.
    requires fits { ∥ Fits (D.agrees drive.old) shape (B.state board.old) (D.sight drive.old) ∥₁ }
    requires on_board { (B.state board.old).shape ≡ Some shape }
    requires runs { (D.sight drive.old).stopped ≡ false }
    requires room { HasRoomForData shape buffer.old }

    ensures { (start : Map) → Holds shape (B.state board.old).pages start
        → Told (list from) shape (mount (B.state board.old) (D.sight drive.old)).terms start
        (B.state board.old) (B.state board.new) result }
{
    let mut place = ListPosition::from(from);
    loop {
        match tell_piece(words, drive, board, buffer, shape, place) {
            Ok(Some(next)) => place = next,
            Ok(None) => return WordEnd::Done,
            Err(end) => return end,
        }
    }
}
