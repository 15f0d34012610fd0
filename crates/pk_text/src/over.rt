//! The end of a run that is to take no more.
ghost use Rattle.pk_text.specs.Steps.{TextStops};

use crate::TextEnd;
use crate::feed::Feed;
use pk_nand::Board;

/// How a run ends after as many lines or records as it may take.
pub fn stop<B: Board>(feed: &mut Feed, board: &mut B) -> TextEnd
    ensures { TextStops feed.old feed.new (B.state board.old) (B.state board.new) result }
{
    match feed.next(board) {
        Ok(Some(_)) => TextEnd::TooMany,
        Ok(None) => TextEnd::Done,
        Err(_) => TextEnd::Input,
    }
}
