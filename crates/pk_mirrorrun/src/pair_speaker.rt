//! What the words that ask a pair of drives need.
ghost use Rattle.std.specs.Prelude.{◌≡◌, [], false, true, IfOk};
ghost use Rattle.pk_base.specs.Map.{Map};
ghost use Rattle.pk_nand.specs.Calls.{IsReady};
ghost use Rattle.pk_call.specs.Drive.{HoldsMap};
ghost use Rattle.pk_model.specs.Reading.{Holds};
ghost use Rattle.pk_port.specs.Steps.{mount};
ghost use Rattle.pk_mirrorwords.specs.PairTasks.{seen, IsAllowed};
ghost use Rattle.pk_mirrorrun.specs.PairTold.{first_limit, PairTold};

use crate::ending::{end_by, post};
use pk_base::Shape;
use pk_drive::Engine;
use pk_mirror::Mirror;
use pk_mirrorwords::{PairRoom, PairTask, answer_pair};
use pk_model::laws::held_map;
use pk_nand::Board;
use pk_nvme::limits::MOST_LIST_BYTES;
use pk_port::{DrivePort, Tally};
use pk_wordrun::WordEnd;
use std::alloc::{AllocError, Global};
use std::marker::Model;

/// All memory of the words of a pair, for drives of one shape, which is what contracts see of it.
pub struct PairSpeaker {
    shape: Shape,
    mirror: Mirror,
    room: PairRoom,
    first_buffer: Vec<u8>,
    second_buffer: Vec<u8>,
}

// Written out, so that whoever drops one meets a call, and not the drops of all its parts.
impl Drop for PairSpeaker {
    fn drop(self) {
        let PairSpeaker {
            shape: _,
            mirror: _,
            room: _,
            first_buffer: _,
            second_buffer: _,
        } = self;
    }
}

impl Model for PairSpeaker {
    ghost use Rattle.std.specs.Prelude.{◌≡◌, ◌≤◌, length, true};
    ghost use Rattle.pk_base.specs.Shape as spec;
    ghost use Rattle.pk_nvme.specs.declared.limits.TheConstants.{MOST_LIST_BYTES};

    ghost Value = { spec.Shape };

    ghost view = { λ s. s.shape };

    ghost invariant = { λ s. (s.mirror ≡ record { shape = s.shape; split = true })
        × (s.room.shape ≡ s.shape)
        × (MOST_LIST_BYTES ≤ length s.first_buffer.items)
        × (spec.greatest s.shape ≤ length s.first_buffer.items)
        × (MOST_LIST_BYTES ≤ length s.second_buffer.items)
        × (spec.greatest s.shape ≤ length s.second_buffer.items) };
}

impl PairSpeaker {
    /// Takes all memory that the words need.
    pub fn new(alloc: Global, shape: Shape) -> Result<PairSpeaker, AllocError>
        ensures { IfOk result (λ s. s ≡ shape) }
    {
        let data = (shape.greatest() as usize).max(MOST_LIST_BYTES as usize);
        Ok(PairSpeaker {
            shape,
            mirror: Mirror::new(alloc, shape)?,
            room: PairRoom::new(alloc, shape)?,
            first_buffer: Vec::from_elem(alloc, 0u8, data)?,
            second_buffer: Vec::from_elem(alloc, 0u8, data)?,
        })
    }

    /// Makes the second drive equal to the first, does what a word asks of both, and posts its text on the first board. No memory is
    /// taken.
    pub fn run<D: Engine, B: Board, E: Engine, C: Board>(
        self,
        first_drive: &mut D,
        first: &mut B,
        second_drive: &mut E,
        second: &mut C,
        task: PairTask,
    ) -> WordEnd
        // The first drive on its board, with nothing pending, and the map that it represents.
        requires first_agrees { D.agrees first_drive.old (B.state first.old).shape
            (B.state first.old).pages }
        requires first_runs { (D.sight first_drive.old).stopped ≡ false }
        requires first_none { (D.sight first_drive.old).pending ≡ [] }
        requires first_ready { IsReady (B.state first.old) self }
        requires first_stands { (m : Map) × HoldsMap self
            (mount (B.state first.old) (D.sight first_drive.old)).terms (B.state first.old)
            (D.sight first_drive.old) m }

        // The same of the second.
        requires second_agrees { E.agrees second_drive.old (C.state second.old).shape
            (C.state second.old).pages }
        requires second_runs { (E.sight second_drive.old).stopped ≡ false }
        requires second_none { (E.sight second_drive.old).pending ≡ [] }
        requires second_ready { IsReady (C.state second.old) self }
        requires second_stands { (m : Map) × HoldsMap self
            (mount (C.state second.old) (E.sight second_drive.old)).terms (C.state second.old)
            (E.sight second_drive.old) m }

        // The limit that both have, and the word.
        requires one_limit { first_limit self (C.state second.old).pages
            ≡ first_limit self (B.state first.old).pages }
        requires allowed { IsAllowed (seen task) }

        // What it did, from the maps that the flashes hold.
        ensures { (m other : Map) → Holds self (B.state first.old).pages m
            → Holds self (C.state second.old).pages other
            → PairTold (seen task) self m other (B.state first.old) (B.state first.new)
            (C.state second.old) (C.state second.new) result }
    {
        self.shape.known();
        held_map();
        let PairSpeaker {
            shape,
            mut mirror,
            mut room,
            mut first_buffer,
            mut second_buffer,
        } = self;
        let mut first_tally = Tally::new();
        let mut second_tally = Tally::new();
        let answered = {
            let mut one = DrivePort {
                drive: first_drive,
                board: first,
                tally: &mut first_tally,
                buffer: first_buffer.as_mut_slice(),
                shape,
            };
            let mut two = DrivePort {
                drive: second_drive,
                board: second,
                tally: &mut second_tally,
                buffer: second_buffer.as_mut_slice(),
                shape,
            };
            answer_pair(&mut mirror, &mut one, &mut two, &mut room, &task)
        };
        match end_by(first_tally.halt, second_tally.halt) {
            Some(end) => end,
            None => match answered {
                Ok(()) => post(first, room.text()),
                Err(_) => unreachable!(),
            },
        }
    }
}
