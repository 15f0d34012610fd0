//! What the words that ask a drive need.
ghost use Rattle.std.specs.Prelude.{◌≡◌, [], false, IfOk};
ghost use Rattle.pk_base.specs.Map.{Map};
ghost use Rattle.pk_nand.specs.Calls.{IsReady};
ghost use Rattle.pk_model.specs.Reading.{Holds};
ghost use Rattle.pk_call.specs.Drive.{HoldsMap};
ghost use Rattle.pk_wordrun.specs.Seen.{seen, IsAllowedTask};
ghost use Rattle.pk_wordrun.specs.Told.{Told};
ghost use Rattle.pk_port.specs.Steps.{mount};

use crate::end::WordEnd;
use crate::list::tell_keys;
use crate::sizes::SUMMARY_BYTES;
use crate::task::Task;
use crate::tell::tell;
use crate::workload::tell_workload;
use pk_base::Shape;
use pk_drive::Engine;
use pk_gen::MOST_VALUE_BYTES;
use pk_model::laws::held_map;
use pk_nand::Board;
use pk_nvme::Bytes;
use pk_nvme::limits::MOST_LIST_BYTES;
use pk_words::Words;
use std::alloc::{AllocError, Global};
use std::marker::Model;

/// All memory of the words, for drives of one shape, which is what contracts see of it.
pub struct Speaker {
    pub(crate) shape: Shape,
    pub(crate) words: Words,
    pub(crate) buffer: Vec<u8>,
    /// The value of a generated Store.
    pub(crate) value: Bytes,
    /// The summary of a workload.
    pub(crate) text: Bytes,
}

// Written out, so that whoever drops one meets a call, and not the drops of all its parts.
impl Drop for Speaker {
    fn drop(self) {
        let Speaker {
            shape: _,
            words: _,
            buffer: _,
            value: _,
            text: _,
        } = self;
    }
}

impl Model for Speaker {
    ghost use Rattle.std.specs.Prelude.{◌≡◌, ◌≤◌, length};
    ghost use Rattle.pk_base.specs.Shape as spec;
    ghost use Rattle.pk_nvme.specs.declared.limits.TheConstants.{MOST_LIST_BYTES};
    ghost use Rattle.pk_gen.specs.declared.numbers.TheConstants.{MOST_VALUE_BYTES};
    ghost use Rattle.pk_wordrun.specs.declared.sizes.TheConstants.{SUMMARY_BYTES};

    ghost Value = { spec.Shape };

    ghost view = { λ s. s.shape };

    ghost invariant = { λ s. (s.words.shape ≡ s.shape)
        × (MOST_LIST_BYTES ≤ length s.buffer.items)
        × (spec.greatest s.shape ≤ length s.buffer.items)
        × (MOST_VALUE_BYTES ≤ s.value.room)
        × (SUMMARY_BYTES ≤ s.text.room) };
}

impl Speaker {
    /// Takes all memory that the words need.
    pub fn new(alloc: Global, shape: Shape) -> Result<Speaker, AllocError>
        ensures { IfOk result (λ s. s ≡ shape) }
    {
        let greatest = shape.greatest() as usize;
        Ok(Speaker {
            shape,
            words: Words::new(alloc, shape)?,
            buffer: Vec::from_elem(alloc, 0u8, greatest.max(MOST_LIST_BYTES as usize))?,
            value: Bytes::with_room(alloc, MOST_VALUE_BYTES as usize)?,
            text: Bytes::with_room(alloc, SUMMARY_BYTES)?,
        })
    }

    /// Does what a word asks of a drive that was opened, and gives its text to the host. No memory is taken.
    pub fn run<D: Engine, B: Board>(self, drive: &mut D, board: &mut B, task: Task) -> WordEnd
        // The drive on its board, with nothing pending, and the map that it represents.
        requires agrees { D.agrees drive.old (B.state board.old).shape (B.state board.old).pages }
        requires runs { (D.sight drive.old).stopped ≡ false }
        requires none { (D.sight drive.old).pending ≡ [] }
        requires ready { IsReady (B.state board.old) self }
        requires stands { (m : Map) × HoldsMap self
            (mount (B.state board.old) (D.sight drive.old)).terms
            (B.state board.old) (D.sight drive.old) m }

        // The word.
        requires allowed { IsAllowedTask (seen task) }

        // What it did, from the map that the flash holds.
        ensures { (start : Map) → Holds self (B.state board.old).pages start
            → Told (seen task) self (mount (B.state board.old) (D.sight drive.old)).terms start
            (B.state board.old) (B.state board.new) result }
    {
        self.shape.known();
        held_map();
        let Speaker {
            shape,
            mut words,
            mut buffer,
            mut value,
            mut text,
        } = self;
        let room = buffer.as_mut_slice();
        match task {
            Task::Answer(question) => tell(&mut words, drive, board, room, shape, &question),
            Task::List(from) => tell_keys(&mut words, drive, board, room, shape, from),
            Task::Generate(series) => {
                tell_workload(drive, board, room, shape, &mut value, &mut text, series)
            }
        }
    }
}
