//! Answer records to lines of text.
ghost use Rattle.std.specs.Prelude.{◌≡◌, ◌<◌, ◌*◌, ℕ, suc, OnOk, IfErr};
ghost use Rattle.pk_nvme.specs.declared.sizes.TheConstants.{RECORD_HEAD_BYTES};
ghost use Rattle.pk_text.specs.declared.sizes.TheConstants.{PIECE};
ghost use Rattle.pk_text.specs.Written.{most};
ghost use Rattle.pk_text.specs.Records.{shown, shown_from};
ghost use Rattle.pk_text.specs.Turns.{Turns, TurnsFrom};
ghost use Rattle.pk_text.specs.Steps.{TextAdvances, ahead};

use crate::TextEnd;
use crate::feed::Feed;
use crate::over::stop;
use crate::record::{show_record, take_head};
use crate::sizes::PIECE;
use pk_nand::Board;
use pk_nvme::{Bytes, RECORD_HEAD_BYTES};
use std::alloc::{AllocError, Global};

/// The memory in which answer records are shown: a piece of the input, a head, and a piece of a line.
#[derive(Drop)]
pub struct Shower {
    feed: Feed,
    head: Bytes,
    text: Bytes,
    ghost head_room: { head.room ≡ RECORD_HEAD_BYTES },
    ghost text_room: { text.room ≡ 2 * PIECE },
}

impl Shower {
    /// Takes all the memory that showing needs; an error if it is missing.
    pub fn new(alloc: Global) -> Result<Shower, AllocError> {
        Ok(Shower {
            feed: Feed::new(alloc)?,
            head: Bytes::with_room(alloc, RECORD_HEAD_BYTES)?,
            text: Bytes::with_room(alloc, 2 * PIECE)?,
        })
    }

    /// Shows the records that the input is, from its next byte on, a line for each. Of a record
    /// that is cut short after its head the line is posted up to the digits that are known, and of
    /// one that is cut short within its head nothing.
    ///
    /// It ends with `Truncated` exactly if the input ends inside a record, with `TooMany` exactly
    /// at the first byte of a record after 2^32-1 others, with `Input` and `Output` only if that
    /// count of faults rose, and otherwise with `Done` at the end of the input.
    pub fn show<B: Board>(&mut self, board: &mut B) -> TextEnd
        ensures { Turns shown (B.state board.old) (B.state board.new) result }
    {
        self.feed.clear();
        for _taken in 0..u32::MAX {
            match self.show_next(board) {
                Ok(()) => {}
                Err(end) => return end,
            }
        }
        stop(&mut self.feed, board)
    }

    // Takes a record and posts its line.
    fn show_next<B: Board>(&mut self, board: &mut B) -> Result<(), TextEnd>
        ensures advances { OnOk result ((taken : ℕ) → taken < most
            → TextAdvances (shown_from taken) (shown_from (suc taken))
            (ahead self.old.feed (B.state board.old)) (ahead self.new.feed (B.state board.new))
            (B.state board.old) (B.state board.new)) }
        ensures quits { IfErr result (λ end. (taken : ℕ) → taken < most
            → TurnsFrom (shown_from taken)
            (ahead self.old.feed (B.state board.old)) (B.state board.old) (B.state board.new) end) }
    {
        match take_head(&mut self.feed, board, &mut self.head) {
            Ok(true) => show_record(&mut self.feed, board, &self.head, &mut self.text),
            Ok(false) => {
                if self.head.is_empty() {
                    Err(TextEnd::Done)
                } else {
                    Err(TextEnd::Truncated)
                }
            }
            Err(_) => Err(TextEnd::Input),
        }
    }
}
