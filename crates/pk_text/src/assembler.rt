//! Text scripts to entries and values.
ghost use Rattle.std.specs.Prelude.{◌≡◌, ◌≤◌, ◌<◌, ◌+◌, ◌^◌, ℕ, suc, IfOk, IfErr};
ghost use Rattle.pk_nvme.specs.declared.sizes.TheConstants.{SUBMISSION_BYTES};
ghost use Rattle.pk_asm.specs.declared.sizes.TheConstants.{MOST_LINE_BYTES, MOST_LINE_VALUE_BYTES};
ghost use Rattle.pk_text.specs.Written.{most};
ghost use Rattle.pk_text.specs.Assembled.{assembled, assembled_from};
ghost use Rattle.pk_text.specs.Turns.{Turns, TurnsFrom};
ghost use Rattle.pk_text.specs.Steps.{TextAdvances, ahead};

use crate::TextEnd;
use crate::feed::Feed;
use crate::line::{give_line, take_line};
use crate::over::stop;
use pk_asm::{MOST_LINE_BYTES, MOST_LINE_VALUE_BYTES};
use pk_nand::Board;
use pk_nvme::{Bytes, SUBMISSION_BYTES};
use std::alloc::{AllocError, Global};

/// The memory in which text scripts are assembled: a piece of the input, a line, a value, and an entry with its value.
#[derive(Drop)]
pub struct Assembler {
    feed: Feed,
    line: Bytes,
    value: Bytes,
    out: Bytes,
    ghost line_room: { line.room ≡ MOST_LINE_BYTES + 1 },
    ghost value_room: { value.room ≡ MOST_LINE_VALUE_BYTES },
    ghost out_room: { out.room ≡ SUBMISSION_BYTES + MOST_LINE_VALUE_BYTES },
}

impl Assembler {
    /// Takes all the memory that assembling needs; an error if it is missing.
    pub fn new(alloc: Global) -> Result<Assembler, AllocError> {
        Ok(Assembler {
            feed: Feed::new(alloc)?,
            line: Bytes::with_room(alloc, MOST_LINE_BYTES + 1)?,
            value: Bytes::with_room(alloc, MOST_LINE_VALUE_BYTES)?,
            out: Bytes::with_room(alloc, SUBMISSION_BYTES + MOST_LINE_VALUE_BYTES)?,
        })
    }

    /// Assembles the script that the input is, from its next byte on: each entry is posted with its
    /// value, line by line.
    ///
    /// It ends with `BadLine` exactly at the first line outside the grammar, with `TooMany` exactly
    /// at the first byte of a line after 2^32-1 others, with `Input` and `Output` only if that
    /// count of faults rose, and otherwise with `Done` at the end of the input.
    pub fn assemble<B: Board>(&mut self, board: &mut B) -> TextEnd
        ensures { Turns assembled (B.state board.old) (B.state board.new) result }
    {
        self.feed.clear();
        let mut number = 1u64;
        for _taken in 0..u32::MAX {
            match self.assemble_next(board, number) {
                Ok(next) => number = next,
                Err(end) => return end,
            }
        }
        stop(&mut self.feed, board)
    }

    // Takes a line and posts what it gives. Answers the number of the next entry.
    fn assemble_next<B: Board>(&mut self, board: &mut B, number: u64) -> Result<u64, TextEnd>
        requires { number < 2 ^ 63 }
        ensures few { IfOk result (λ next. next ≤ number + 1) }
        ensures advances { IfOk result (λ next. (taken : ℕ) → taken < most
            → TextAdvances (assembled_from taken number) (assembled_from (suc taken) next)
            (ahead self.old.feed (B.state board.old)) (ahead self.new.feed (B.state board.new))
            (B.state board.old) (B.state board.new)) }
        ensures quits { IfErr result (λ end. (taken : ℕ) → taken < most
            → TurnsFrom (assembled_from taken number)
            (ahead self.old.feed (B.state board.old)) (B.state board.old) (B.state board.new) end) }
    {
        let ended = match take_line(&mut self.feed, board, &mut self.line) {
            Ok(ended) => ended,
            Err(end) => return Err(end),
        };
        let line = self.line.bytes();
        match give_line(board, line, number, &mut self.value, &mut self.out) {
            Ok(next) => { if ended { Ok(next) } else { Err(TextEnd::Done) } }
            Err(end) => Err(end),
        }
    }
}
