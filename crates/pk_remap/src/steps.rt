//! The steps of a relocation, each by one call of the inner flash.
ghost use Rattle.std.specs.Prelude.{◌≡◌, ◌≢◌, ◌+◌, ◌-◌, ◌^◌, ◌/◌, ◌≤◌, ◌<◌, ◌++◌, ◌∷◌, [], length, take, replicate, false, IfOk, IsErr, OnErr, OnOk};
ghost use Rattle.pk_base.specs.Page.{Flash, page_at, IsPage};
ghost use Rattle.pk_remap.specs.Table.{table_bytes};
ghost use Rattle.pk_nand.specs.BoardState.{shape_of};
ghost use Rattle.pk_nand.specs.Calls.{after_program, ProgramFailed};
ghost use Rattle.pk_nand.specs.Operations.{filled, InOrder, after_read, ReadFailed};
ghost use Rattle.pk_nand.specs.Seen.{answer};
ghost use Rattle.pk_remap.specs.declared.phase.Phase.TheVariants.{EraseSpare, Read, Write, EraseTable, First, Second};
ghost use Rattle.pk_remap.specs.declared.layout.TheConstants.{MOST_SPARES};
ghost use Rattle.pk_remap.specs.Relocating.{block as block_of, next_table};
ghost use Rattle.pk_remap.specs.Counting.{StepCounts};
ghost use Rattle.pk_remap.specs.Stepping.{OneCall};
ghost use Rattle.pk_remap.specs.Running.{relocation_of, copies as copies_of, is_kept as kept_at, bytes_for as bytes_at, phase_after, table_phase as table_phase_of, with_table, is_program as is_program_of, RelocationRuns, RelocationSteps};

use crate::layout::FAILED;
use crate::phase::Phase;
use crate::places::{page_in, place};
use crate::relocation::{Call, Relocation};
use crate::table::encode;
use pk_base::Shape;
use pk_nand::{Nand, NandFault, PageRead};

impl Relocation {
    /// The block of the outer flash.
    fn block(&self) -> u32
        ensures { result ≡ block_of (relocation_of self.now) }
    {
        self.shape.known();
        match self.call {
            Call::Program { page } => page / self.shape.block_pages(),
            Call::Erase { block } => block,
        }
    }

    /// How many of its pages come before the call's.
    fn copies(&self) -> u32
        ensures { result ≡ copies_of self.now }
    {
        self.shape.known();
        match self.call {
            Call::Program { page } => page % self.shape.block_pages(),
            Call::Erase { .. } => 0,
        }
    }

    /// Whether this page of the block is in memory.
    fn is_kept(&self, page: u32) -> bool
        requires { page ≤ 256 }
        ensures { result ≡ kept_at self.now page }
    {
        self.kept && page + 1 == self.copies()
    }

    fn is_program(&self) -> bool
        ensures { result ≡ is_program_of self.now.call }
    {
        match self.call {
            Call::Program { .. } => true,
            Call::Erase { .. } => false,
        }
    }

    /// What is next after this many pages of the spare are filled.
    fn phase_after(&self, filled: u32) -> Phase
        requires { filled ≤ 256 }
        ensures { result ≡ phase_after self.now filled }
    {
        let copies = self.copies();
        if filled < copies {
            if self.is_kept(filled) {
                Phase::Write { page: filled }
            } else {
                Phase::Read { page: filled }
            }
        } else if self.is_program() && filled == copies {
            Phase::Write { page: filled }
        } else {
            self.table_phase()
        }
    }

    /// The step after the spare is filled: the program of the next table, or the erase of the block for it.
    fn table_phase(&self) -> Phase
        ensures { result ≡ table_phase_of self.now.next }
    {
        match self.next {
            Some(page) => Phase::First { page },
            None => Phase::EraseTable,
        }
    }

    /// Takes the next spare, if there is one.
    fn take_next(&mut self) -> Result<bool, NandFault>
        requires { self.old.taken < 65535 }
        ensures next { self.new
            ≡ record self.old { taken = self.old.taken + 1; phase = EraseSpare } }
        ensures ok { IfOk result
            (λ done. (done ≡ false) × (self.old.taken + 1 < self.old.spares)) }
        ensures err { OnErr result (self.old.spares ≤ self.old.taken + 1) }
    {
        self.taken += 1;
        self.phase = Phase::EraseSpare;
        if self.taken < self.spares {
            Ok(false)
        } else {
            Err(NandFault)
        }
    }

    /// Counts the spare as taken although its table could not be written: nobody knows whether that is the newest table now.
    fn fail_table(&mut self) -> Result<bool, NandFault>
        requires { self.old.taken < 65535 }
        ensures taken { self.new ≡ record self.old { taken = self.old.taken + 1 } }
        ensures fails { IsErr result }
    {
        self.taken += 1;
        Err(NandFault)
    }

    fn erase_spare<N: Nand>(&mut self, inner: &mut N) -> Result<bool, NandFault>
        requires phase { self.old.phase ≡ EraseSpare }
        requires runs { (before : Flash) × RelocationRuns self.old before (N.state inner.old) }
        ensures steps { RelocationSteps self.old (N.state inner.old) result self.new
            (N.state inner.new) }
        ensures counts { StepCounts self.old (N.state inner.old) result self.new
            (N.state inner.new) }
        ensures calls { OneCall (N.state inner.old) (N.state inner.new) }
    {
        self.shape.known();
        let spare = self.shape.blocks() + self.taken as u32;
        match inner.erase(spare) {
            Ok(()) => {
                self.phase = self.phase_after(0);
                Ok(false)
            }
            Err(_) => self.take_next(),
        }
    }

    fn read<N: Nand>(&mut self, inner: &mut N, page: u32) -> Result<bool, NandFault>
        requires phase { self.old.phase ≡ Read page }
        requires runs { (before : Flash) × RelocationRuns self.old before (N.state inner.old) }
        ensures steps { RelocationSteps self.old (N.state inner.old) result self.new
            (N.state inner.new) }
        ensures counts { StepCounts self.old (N.state inner.old) result self.new
            (N.state inner.new) }
        ensures calls { OneCall (N.state inner.old) (N.state inner.new) }
    {
        self.shape.known();
        let size = self.shape.page_bytes() as usize;
        let block = place(&self.shape, &self.serves[..self.used], self.block());
        let at = page_in(&self.shape, block, page);
        match read_into(inner, at, size, &mut self.copy) {
            Ok(PageRead::Whole) => {
                self.phase = Phase::Write { page };
                Ok(false)
            }
            Ok(PageRead::Erased) => Err(NandFault),
            Ok(PageRead::Torn) => Err(NandFault),
            Err(_) => Err(NandFault),
        }
    }

    /// The bytes for this page of the spare.
    fn bytes_for(&self, page: u32) -> &[u8]
        requires page { page ≤ 256 }
        requires bytes { self.now.shape.page_bytes ≤ length self.now.bytes.items }
        requires partner { self.now.shape.page_bytes ≤ length self.now.partner.items }
        requires copy { self.now.shape.page_bytes ≤ length self.now.copy.items }
        ensures { result.now ≡ bytes_at self.now page }
    {
        let size = self.shape.page_bytes() as usize;
        if page == self.copies() {
            &self.bytes[..size]
        } else if self.is_kept(page) {
            &self.partner[..size]
        } else {
            &self.copy[..size]
        }
    }

    fn write<N: Nand>(&mut self, inner: &mut N, page: u32) -> Result<bool, NandFault>
        requires phase { self.old.phase ≡ Write page }
        requires runs { (before : Flash) × RelocationRuns self.old before (N.state inner.old) }
        ensures steps { RelocationSteps self.old (N.state inner.old) result self.new
            (N.state inner.new) }
        ensures counts { StepCounts self.old (N.state inner.old) result self.new
            (N.state inner.new) }
        ensures calls { OneCall (N.state inner.old) (N.state inner.new) }
    {
        self.shape.known();
        let spare = self.shape.blocks() + self.taken as u32;
        let at = page_in(&self.shape, spare, page);
        match inner.program(at, self.bytes_for(page)) {
            Ok(()) => {
                self.phase = self.phase_after(page + 1);
                Ok(false)
            }
            Err(_) => self.take_next(),
        }
    }

    /// The table block without the newest table.
    fn other_table(&self) -> u32
        requires few { self.now.spares ≤ MOST_SPARES }
        ensures from { self.now.shape.blocks + self.now.spares ≤ result }
        ensures to { result < self.now.shape.blocks + self.now.spares + 2 }
        ensures beside { self.now.top / self.now.shape.block_pages ≢ result }
    {
        self.shape.known();
        let first = self.shape.blocks() + self.spares as u32;
        if self.top / self.shape.block_pages() == first {
            first + 1
        } else {
            first
        }
    }

    fn erase_table<N: Nand>(&mut self, inner: &mut N) -> Result<bool, NandFault>
        requires phase { self.old.phase ≡ EraseTable }
        requires runs { (before : Flash) × RelocationRuns self.old before (N.state inner.old) }
        ensures steps { RelocationSteps self.old (N.state inner.old) result self.new
            (N.state inner.new) }
        ensures counts { StepCounts self.old (N.state inner.old) result self.new
            (N.state inner.new) }
        ensures calls { OneCall (N.state inner.old) (N.state inner.new) }
    {
        self.shape.known();
        let other = self.other_table();
        self.next = None;
        match inner.erase(other) {
            Ok(()) => {
                self.phase = Phase::First {
                    page: page_in(&self.shape, other, 0),
                };
                Ok(false)
            }
            Err(_) => self.fail_table(),
        }
    }

    /// The blocks that the used spares serve by the next table.
    fn next_serves(&self) -> [u16; 64]
        requires used { self.now.used ≤ self.now.taken }
        requires left { self.now.taken < MOST_SPARES }
        requires room { length self.now.serves ≡ MOST_SPARES }
        requires small { block_of (relocation_of self.now) ≤ 65535 }
        ensures front { take (self.now.taken + 1) result
            ≡ (next_table (relocation_of self.now)).serves }
        ensures len { length result ≡ MOST_SPARES }
    {
        let mut serves = self.serves;
        fill_next(
            &mut serves,
            self.used,
            self.taken as usize,
            self.block() as u16,
        );
        serves
    }

    /// Takes the table of the pair that begins with this page for the newest one.
    fn take_table(&mut self, page: u32, serves: [u16; 64])
        requires page { page < 2 ^ 31 }
        requires number { self.old.number < 2 ^ 63 }
        requires taken { self.old.taken < MOST_SPARES }
        ensures { self.new ≡ with_table self.old page serves }
    {
        self.shape.known();
        self.number += 1;
        self.used = self.taken as usize + 1;
        self.serves = serves;
        self.top = page;
        self.taken += 1;
        self.next = if (page + 2) % self.shape.block_pages() == 0 {
            None
        } else {
            Some(page + 2)
        };
    }

    fn first<N: Nand>(&mut self, inner: &mut N, page: u32) -> Result<bool, NandFault>
        requires phase { self.old.phase ≡ First page }
        requires runs { (before : Flash) × RelocationRuns self.old before (N.state inner.old) }
        ensures steps { RelocationSteps self.old (N.state inner.old) result self.new
            (N.state inner.new) }
        ensures counts { StepCounts self.old (N.state inner.old) result self.new
            (N.state inner.new) }
        ensures calls { OneCall (N.state inner.old) (N.state inner.new) }
    {
        self.shape.known();
        let serves = self.next_serves();
        self.next = None;
        match program_table(
            inner,
            page,
            &self.shape,
            self.spares,
            self.number + 1,
            &serves[..self.taken as usize + 1],
            &mut self.copy,
        ) {
            Ok(()) => {
                self.phase = Phase::Second { page };
                Ok(false)
            }
            Err(_) => self.fail_table(),
        }
    }

    fn second<N: Nand>(&mut self, inner: &mut N, page: u32) -> Result<bool, NandFault>
        requires phase { self.old.phase ≡ Second page }
        requires runs { (before : Flash) × RelocationRuns self.old before (N.state inner.old) }
        ensures steps { RelocationSteps self.old (N.state inner.old) result self.new
            (N.state inner.new) }
        ensures counts { StepCounts self.old (N.state inner.old) result self.new
            (N.state inner.new) }
        ensures calls { OneCall (N.state inner.old) (N.state inner.new) }
    {
        self.shape.known();
        let serves = self.next_serves();
        match program_table(
            inner,
            page + 1,
            &self.shape,
            self.spares,
            self.number + 1,
            &serves[..self.taken as usize + 1],
            &mut self.copy,
        ) {
            Ok(()) => {
                self.take_table(page, serves);
                Ok(true)
            }
            Err(_) => self.fail_table(),
        }
    }

    /// Makes one step, by one call of the inner flash. The answer is true if both pages of a pair have the table: the call of the outer flash
    /// is done. Wherever the inner call is cut, and if it fails, the outer flash is what the call that it serves may leave.
    pub fn step<N: Nand>(&mut self, inner: &mut N) -> Result<bool, NandFault>
        requires { (before : Flash) × RelocationRuns self.old before (N.state inner.old) }
        ensures steps { RelocationSteps self.old (N.state inner.old) result self.new
            (N.state inner.new) }
        ensures counts { StepCounts self.old (N.state inner.old) result self.new
            (N.state inner.new) }
        ensures calls { OneCall (N.state inner.old) (N.state inner.new) }
    {
        match self.phase {
            Phase::EraseSpare => self.erase_spare(inner),
            Phase::Read { page } => self.read(inner, page),
            Phase::Write { page } => self.write(inner, page),
            Phase::EraseTable => self.erase_table(inner),
            Phase::First { page } => self.first(inner, page),
            Phase::Second { page } => self.second(inner, page),
        }
    }
}

/// Marks the spares from `used` to `taken` as failed, and lets the spare `taken` serve a block.
fn fill_next(serves: &mut [u16], used: usize, taken: usize, block: u16)
    requires order { used ≤ taken }
    requires room { taken < length serves.old }
    ensures front { take (taken + 1) serves.new
        ≡ take used serves.old ++ (replicate (taken - used) FAILED ++ block ∷ []) }
    ensures len { length serves.new ≡ length serves.old }
{
    for i in used..taken {
        serves[i] = FAILED;
    }
    serves[taken] = block;
}

/// Programs a table page; the buffer begins with it then.
pub fn program_table<N: Nand>(
    inner: &mut N,
    page: u32,
    shape: &Shape,
    spares: u16,
    number: u64,
    serves: &[u16],
    buffer: &mut [u8],
) -> Result<(), NandFault>
    // The page of the inner flash.
    requires exists { page < length (N.state inner.old).pages }
    requires order { InOrder (shape_of (N.state inner.old)) (N.state inner.old).pages page }
    requires sized { shape.now.page_bytes ≡ (shape_of (N.state inner.old)).page_bytes }

    // The table and the buffer.
    requires few { spares ≤ MOST_SPARES }
    requires used { length serves.now ≤ spares }
    requires room { shape.now.page_bytes ≤ length buffer.old }

    // The bytes of the table.
    ensures page { IsPage shape.now (take shape.now.page_bytes buffer.new) }
    ensures bytes { take shape.now.page_bytes buffer.new
        ≡ table_bytes shape.now spares (record { number = number; serves = serves.now }) }
    ensures len { length buffer.new ≡ length buffer.old }

    // Their program.
    ensures ok { OnOk result (N.state inner.new ≡ after_program (N.state inner.old) page
        (take shape.now.page_bytes buffer.new)) }
    ensures err { OnErr result (ProgramFailed (N.state inner.old) (N.state inner.new) page
        (take shape.now.page_bytes buffer.new)) }
{
    let size = shape.page_bytes() as usize;
    encode(shape, spares, number, serves, &mut buffer[..size]);
    inner.program(page, &buffer[..size])
}

/// Reads a page into the first bytes of a buffer.
pub fn read_into<N: Nand>(
    inner: &mut N,
    at: u32,
    size: usize,
    buffer: &mut [u8],
) -> Result<PageRead, NandFault>
    // The page and the buffer.
    requires exists { at < length (N.state inner.old).pages }
    requires sized { size ≡ (shape_of (N.state inner.old)).page_bytes }
    requires room { size ≤ length buffer.old }

    // What is read.
    ensures found { IfOk result (λ r. r ≡ answer (page_at (N.state inner.old).pages at)) }
    ensures bytes { OnOk result (take size buffer.new
        ≡ filled (page_at (N.state inner.old).pages at) (take size buffer.old)) }
    ensures len { length buffer.new ≡ length buffer.old }

    // The read of the inner flash.
    ensures ok { OnOk result (N.state inner.new ≡ after_read (N.state inner.old)) }
    ensures err { OnErr result (ReadFailed (N.state inner.old) (N.state inner.new) at) }
{
    inner.read(at, &mut buffer[..size])
}
