//! What is tried, and what a trial finds wrong.

ghost use Rattle.std.specs.Prelude.{◌≡◌, true, OnOk};

use pk_flash::Flash;
use std::alloc::Global;
use std::fmt::{self, Debug, Display, Formatter, Write};
use std::test::*;

/// A program: it does what words ask for over a board, and gives its exit status.
pub trait Program {
    fn run(alloc: Global, words: &[&str], flash: &mut Flash) -> u8;
}

/// A failure if this does not hold.
pub fn holds<D: Display + Drop>(is_so: bool, what: D) -> Result<(), Fail>
    ensures so { OnOk result (is_so ≡ true) }
{
    if is_so {
        return Ok(());
    }
    Err(Fail::new(what))
}

/// A failure if these differ.
pub fn same<T: PartialEq + Debug + Drop, D: Display + Drop>(
    found: T,
    wanted: T,
    what: D,
) -> Result<(), Fail> {
    if found == wanted {
        return Ok(());
    }
    Err(Fail::new(format_args!("{what}: {found:?}, and not {wanted:?}")))
}

/// Where in a trial something was found, as a failure reports it.
#[derive(Clone, Copy)]
pub enum Place {
    Named(&'static str),
    /// After a cut at this mark.
    Mark(usize),
    /// The same, left in this way.
    Way(usize, u32),
    /// While this call fails.
    Call(u64),
    Root(u64),
}

impl Place {
    // What is numbered.
    fn name(&self) -> &'static str {
        match self {
            Place::Named(name) => *name,
            Place::Mark(_) | Place::Way(_, _) => "mark",
            Place::Call(_) => "call",
            Place::Root(_) => "root",
        }
    }

    // Its number, and 0 if there is none.
    fn number(&self) -> u64 {
        match self {
            Place::Named(_) => 0,
            Place::Mark(k) | Place::Way(k, _) => *k as u64,
            Place::Call(call) => *call,
            Place::Root(number) => *number,
        }
    }

    // The way, and 0 if there is none.
    fn way(&self) -> u32 {
        match self {
            Place::Way(_, way) => *way,
            _ => 0,
        }
    }
}

impl Display for Place {
    fn fmt<W: Write>(&self, f: &mut Formatter<W>) -> fmt::Result {
        let (name, number, way) = (self.name(), self.number(), self.way());
        write!(f, "{name} {number}, way {way}")
    }
}
