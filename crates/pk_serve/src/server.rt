//! What serving needs besides the drive and the board.
ghost use Rattle.std.specs.Prelude.{◌≡◌, false, IfOk, Some};
ghost use Rattle.pk_serve.specs.Ends.{Blames};
ghost use Rattle.pk_serve.specs.Complete.{RunCompletes};
ghost use Rattle.pk_serve.specs.Script.{SaysOfScript};
ghost use Rattle.pk_serve.specs.Run.{KeepsScript, KeepsSome, Answers, Causes, CallsWithin};

use crate::End;
use crate::serve::serve_all;
use pk_base::Shape;
use pk_drive::Engine;
use pk_nand::Board;
use pk_nvme::limits::MOST_LIST_BYTES;
use pk_queue::Queue;
use std::alloc::{AllocError, Global};
use std::marker::Model;

/// The held records and the buffers of values and data, for drives of one shape, which is what contracts see of it.
#[derive(Drop)]
pub struct Server {
    shape: Shape,
    held: Queue,
    value: Vec<u8>,
    into: Vec<u8>,
}

impl Model for Server {
    ghost use Rattle.std.specs.Prelude.{◌≤◌, ◌<◌, length};
    ghost use Rattle.pk_base.specs.Shape as spec;
    ghost use Rattle.pk_nvme.specs.declared.limits.TheConstants.{MOST_LIST_BYTES};

    ghost Value = { spec.Shape };

    ghost view = { λ s. s.shape };

    ghost invariant = { λ s. (spec.greatest s.shape ≤ length s.value.items)
        × (0 < length s.value.items)
        × (spec.greatest s.shape ≤ length s.into.items)
        × (MOST_LIST_BYTES ≤ length s.into.items) };
}

impl Server {
    /// Takes all memory that serving needs.
    pub fn new(alloc: Global, shape: Shape) -> Result<Server, AllocError>
        ensures { IfOk result (λ s. s ≡ shape) }
    {
        let greatest = shape.greatest() as usize;
        let held = Queue::new(alloc, shape)?;
        let value = Vec::from_elem(alloc, 0u8, greatest.max(1))?;
        let into = Vec::from_elem(alloc, 0u8, greatest.max(MOST_LIST_BYTES as usize))?;
        Ok(Server {
            shape,
            held,
            value,
            into,
        })
    }

    /// Serves the script of the input on a drive of this shape, and takes no memory.
    pub fn serve<D: Engine, B: Board>(&mut self, drive: &mut D, board: &mut B) -> End
        // The drive and the board.
        requires agrees { D.agrees drive.old (B.state board.old).shape (B.state board.old).pages }
        requires runs { (D.sight drive.old).stopped ≡ false }
        requires shape { (B.state board.old).shape ≡ Some self.old }

        // How serving ended.
        ensures blames { Blames (B.state board.old) (B.state board.new) result }
        ensures says { SaysOfScript (B.state board.old) (B.state board.new) result }
        ensures causes { Causes (B.state board.old) (B.state board.new) (D.sight drive.old)
            result }
        ensures complete { RunCompletes (B.state board.old) (B.state board.new) (D.sight drive.old)
            result }

        // The commands that were kept, wherever it was cut, and those that were answered.
        ensures kept { KeepsScript (B.state board.old) (B.state board.new) (D.sight drive.old) }
        ensures kept_untold { KeepsSome (B.state board.old) (B.state board.new)
            (D.sight drive.old) }
        ensures served { Answers (B.state board.old) (B.state board.new) (D.sight drive.old)
            result }
        ensures calls { CallsWithin (B.state board.old) (B.state board.new) (D.sight drive.old) }
    {
        self.held.clear();
        serve_all(
            drive,
            board,
            &mut self.held,
            &mut self.value,
            &mut self.into,
            &self.shape,
        )
    }
}
