//! The words that touch no flash.
ghost use Rattle.pk_text.specs.Assembled.{assembled};
ghost use Rattle.pk_text.specs.Records.{shown};
ghost use Rattle.pk_top.specs.TextRuns.{TextRun, text_status};
ghost use Rattle.pk_top.specs.Statuses.{Tells, IsServed};
ghost use Rattle.std.specs.Prelude.{◌≡◌};

use crate::status::Status;
use pk_nand::Board;
use pk_text::{Assembler, Shower, TextEnd};
use std::alloc::Global;

/// The status of an end.
fn of_text_end(end: TextEnd) -> Status
    ensures value { result.0 ≡ text_status end }
    ensures served { IsServed result.0 }
{
    match end {
        TextEnd::Done => Status::DONE,
        TextEnd::Truncated => Status::TRUNCATED,
        TextEnd::Input => Status::INPUT,
        TextEnd::Output => Status::OUTPUT,
        TextEnd::TooMany => Status::WORN,
        TextEnd::BadLine => Status::BAD_LINE,
    }
}

/// Turns the lines of the input into entries and values.
pub fn assemble<B: Board>(alloc: Global, board: &mut B) -> Status
    ensures tells { Tells (B.state board.old) (B.state board.new) result.0 }
    ensures turns { TextRun assembled (B.state board.old) (B.state board.new) result.0 }
{
    let Ok(mut assembler) = Assembler::new(alloc) else {
        return Status::MEMORY;
    };
    of_text_end(assembler.assemble(board))
}

/// Turns the records of the input into lines.
pub fn show<B: Board>(alloc: Global, board: &mut B) -> Status
    ensures tells { Tells (B.state board.old) (B.state board.new) result.0 }
    ensures turns { TextRun shown (B.state board.old) (B.state board.new) result.0 }
{
    let Ok(mut shower) = Shower::new(alloc) else {
        return Status::MEMORY;
    };
    of_text_end(shower.show(board))
}
