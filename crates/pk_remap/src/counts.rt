//! The counts that a flash with spare blocks keeps of its own calls and faults.
ghost use Rattle.std.specs.Prelude.{◌≡◌, Some};
ghost use Rattle.pk_nand.specs.Calls.{counted};
ghost use Rattle.pk_remap.specs.Remapped.{no_counts, with_refusal, with_stop};

use pk_nand::{LoadFault, raise};

/// Numbers of calls, of faults of each kind, the block of the last flash operation that failed, and the first wrong byte of the image.
/// Each number stays at 2^64-1 once there.
#[derive(Clone, Copy, Debug)]
pub struct BoardCounts {
    pub reads: u64,
    pub programs: u64,
    pub erases: u64,
    pub flash_faults: u64,
    pub read_faults: u64,
    pub stop_faults: u64,
    pub in_faults: u64,
    pub out_faults: u64,
    pub failed_at: Option<u32>,
    pub bad: Option<u64>,
}

impl BoardCounts {
    /// No call was made.
    pub fn zero() -> BoardCounts
        ensures { result ≡ no_counts }
    {
        BoardCounts {
            reads: 0,
            programs: 0,
            erases: 0,
            flash_faults: 0,
            read_faults: 0,
            stop_faults: 0,
            in_faults: 0,
            out_faults: 0,
            failed_at: None,
            bad: None,
        }
    }

    /// Counts a read in this block that failed.
    pub fn read_failed(&mut self, block: u32)
        ensures { self.new ≡ record self.old {
          flash_faults = counted self.old.flash_faults;
          read_faults = counted self.old.read_faults;
          failed_at = Some block;
        } }
    {
        raise(&mut self.flash_faults);
        raise(&mut self.read_faults);
        self.failed_at = Some(block);
    }

    /// Counts a program or an erase in this block that failed.
    pub fn stop_failed(&mut self, block: u32)
        ensures { self.new ≡ with_stop block self.old }
    {
        raise(&mut self.flash_faults);
        raise(&mut self.stop_faults);
        self.failed_at = Some(block);
    }

    /// Counts a refusal of `load` or `make`.
    pub fn refused(&mut self, fault: &LoadFault)
        ensures { self.new ≡ with_refusal fault.now self.old }
    {
        match *fault {
            LoadFault::Fault => raise(&mut self.flash_faults),
            LoadFault::BadImage { at } => {
                self.bad = Some(at);
            }
            LoadFault::Memory => {}
        }
    }
}
