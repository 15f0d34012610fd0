//! How a word of a pair ends.
ghost use Rattle.std.specs.Prelude.{◌≡◌};
ghost use Rattle.pk_mirrorrun.specs.PairTold.{end_by, PostsText};

use pk_nand::Board;
use pk_port::Halt;
use pk_wordrun::say::say;
use pk_wordrun::{WordEnd, end_of};

/// How a word ends when a drive halted, the first or else the second; nothing when none did.
pub fn end_by(first: Option<Halt>, second: Option<Halt>) -> Option<WordEnd>
    ensures { result ≡ end_by first second }
{
    match first {
        Some(halt) => Some(end_of(halt)),
        None => match second {
            Some(halt) => Some(end_of(halt)),
            None => None,
        },
    }
}

/// Posts the text of a word that was answered.
pub fn post<B: Board>(board: &mut B, text: &[u8]) -> WordEnd
    ensures { PostsText (B.state board.old) (B.state board.new) text.now result }
{
    match say(board, text) {
        Ok(()) => WordEnd::Done,
        Err(_) => WordEnd::Output,
    }
}
