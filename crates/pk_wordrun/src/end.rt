//! How a word ends.
ghost use Rattle.std.specs.Prelude.{◌≡◌};
ghost use Rattle.pk_wordrun.specs.Ends.{end_of};

use pk_port::Halt;

/// Why a word is at its end.
#[derive(Clone, Copy, Debug, PartialEq, Eq)]
pub enum WordEnd {
    /// Its text went out.
    Done,
    /// The output failed.
    Output,
    /// A program or an erase failed.
    Flash,
    /// No more roots are installed, and a command was to begin.
    Worn,
}

/// How a word ends if a command was not answered.
pub fn end_of(halt: Halt) -> WordEnd
    ensures { result ≡ end_of halt }
{
    match halt {
        Halt::Stopped => WordEnd::Flash,
        Halt::Worn => WordEnd::Worn,
    }
}
