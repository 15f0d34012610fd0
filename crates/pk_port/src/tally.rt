//! What a port counts.
ghost use Rattle.std.specs.Prelude.{◌≡◌, ◌≤◌, ◌+◌, ◌%◌, ◌^◌, Some, None};
ghost use Rattle.pk_nand.specs.Calls.{Rose};

use crate::Halt;

/// What a port counts, also between the times at which a drive and a board are lent to it.
#[derive(Clone, Copy, Debug)]
pub struct Tally {
    /// Commands that were answered, modulo 2^32.
    pub taken: u32,
    /// Commands that were not answered; the count stays at 2^64-1.
    pub faults: u64,
    /// Why the last of them was not.
    pub halt: Option<Halt>,
}

impl Tally {
    /// Nothing was passed yet.
    pub fn new() -> Tally
        ensures faults { result.faults ≡ 0 }
        ensures halt { result.halt ≡ None }
    {
        Tally {
            taken: 0,
            faults: 0,
            halt: None,
        }
    }

    /// One more command was answered.
    pub(crate) fn answer(&mut self)
        ensures { self.new ≡ record self.old { taken = self.new.taken } }
    {
        self.taken = self.taken.wrapping_add(1);
    }

    /// One more command was not.
    pub(crate) fn fail(&mut self, halt: Halt)
        ensures rose { Rose self.old.faults self.new.faults }
        ensures up { self.old.faults ≤ self.new.faults }
        ensures halt { self.new.halt ≡ Some halt }
    {
        self.faults = self.faults.saturating_add(1);
        self.halt = Some(halt);
    }
}
