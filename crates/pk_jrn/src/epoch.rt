//! An epoch and its next commit.
ghost use Rattle.std.specs.Prelude.{◌≡◌, ℕ, ◌+◌, ◌<◌, ◌≤◌, ◌⊎◌, true, false, length, [], Some, IfOk, IfErr, OnOk, OnErr, MatchBool};
ghost use Rattle.std.specs.List.{AllByRecursion};
ghost use Rattle.pk_base.specs.Shape.{page_entries, epoch_commits};
ghost use Rattle.pk_base.specs.Page.{Flash};
ghost use Rattle.pk_base.specs.EntryChecks.{IsEntry};
ghost use Rattle.pk_base.specs.Seen.{entries as seen_all};
ghost use Rattle.pk_nand.specs.Calls.{IsReady, after_programs, ProgramsFailed};
ghost use Rattle.pk_nand.specs.declared.types.Fault.TheVariants.{Stopped};
ghost use Rattle.pk_jrnfmt.specs.Page.{journal_entries};
ghost use Rattle.pk_jrn.specs.Epochs.{started, found_at_opening, left_of, AreBlocks, AreErased, EpochOnFlash, Reads};
ghost use Rattle.pk_jrn.specs.Appends.{next_bytes, programs_of_commit, AddsAll, CommitReached, CommitWent, IsHalfMade, BeginsCommit, EndsCommit, FailsToBegin, FailsToEnd};

use pk_base::{EPOCH_BLOCKS, Entry, Shape};
use pk_jrnfmt::encode;
use pk_nand::{Fault, Nand};
use pk_pair::{commit_page, write_first, write_pair, write_second};
use std::marker::Model;

/// An epoch of the journal: two blocks whose pages are written one after another, a commit in each pair of them.
#[derive(Drop)]
pub struct Epoch {
    shape: Shape,
    number: u64,
    blocks: [u16; 2],
    used: u32,
    takes_more: bool,
    half: bool,
}

impl Model for Epoch {
    ghost use Rattle.std.specs.Prelude.{◌≡◌, ◌≤◌, length};
    ghost use Rattle.pk_base.specs.declared.sizes.TheConstants.{EPOCH_BLOCKS};
    ghost use Rattle.pk_base.specs.Shape.{epoch_commits};
    ghost use Rattle.pk_jrn.specs.Epochs.{JournalEpoch};

    ghost Value = { JournalEpoch };

    ghost view = { λ e. record {
      shape = e.shape;
      number = e.number;
      blocks = e.blocks;
      used = e.used;
      takes_more = e.takes_more;
      half = e.half;
    } };

    ghost invariant = { λ e. (length e.blocks ≡ EPOCH_BLOCKS) × (e.used ≤ epoch_commits e.shape) };
}

impl Epoch {
    /// A new epoch, without a commit.
    pub fn start(shape: Shape, number: u64, blocks: [u16; 2]) -> Epoch
        ensures started { result ≡ started shape number blocks }
        ensures fits { (flash : Flash) → AreErased shape flash blocks → EpochOnFlash result flash }
        ensures reads { (spaces : ℕ) (flash : Flash) → AreErased shape flash blocks
            → Reads result spaces flash [] }
    {
        shape.known();
        Epoch {
            shape,
            number,
            blocks,
            used: 0,
            takes_more: true,
            half: false,
        }
    }

    /// An epoch as it is found at opening, with this many commits. It takes no more.
    pub fn found(shape: Shape, number: u64, blocks: [u16; 2], used: u32) -> Epoch
        requires { used ≤ epoch_commits shape }
        ensures { result ≡ found_at_opening shape number blocks used }
    {
        Epoch {
            shape,
            number,
            blocks,
            used,
            takes_more: false,
            half: false,
        }
    }

    /// How many more commits it takes.
    pub fn left(&self) -> u32
        ensures { result ≡ left_of self.now }
    {
        self.shape.known();
        if self.takes_more {
            self.shape.epoch_commits() - self.used
        } else {
            0
        }
    }

    /// How many commits it has.
    pub fn used(&self) -> u32
        ensures value { result ≡ self.now.used }
        ensures most { result ≤ epoch_commits self.now.shape }
    {
        self.used
    }

    /// Its number.
    pub fn number(&self) -> u64
        ensures { result ≡ self.now.number }
    {
        self.number
    }

    /// Its two blocks in their order.
    pub fn blocks(&self) -> [u16; 2]
        ensures value { result ≡ self.now.blocks }
        ensures two { length self.now.blocks ≡ EPOCH_BLOCKS }
    {
        self.blocks
    }

    /// Adds entries, 1 to those of a page, after those of the epoch, by the programs of its next
    /// commit. `Stopped` if one fails; the epoch is as before then. Wherever it is cut, all of the
    /// entries were added or none. `buf` has the size of a page and is overwritten.
    pub fn append<B: Nand>(
        &mut self,
        board: &mut B,
        entries: &[Entry],
        buf: &mut [u8],
    ) -> Result<(), Fault>
        requires left { 0 < left_of self.old }
        requires whole { self.old.half ≡ false }
        requires some { 1 ≤ length entries.now }
        requires most { length entries.now ≤ page_entries self.old.shape }
        requires each { AllByRecursion (IsEntry self.old.shape) (seen_all entries.now) }
        requires ready { IsReady (B.state board.old) self.old.shape }
        requires fits { EpochOnFlash self.old (B.state board.old).pages }
        requires blocks { AreBlocks self.old.shape self.old.blocks }
        requires room { length buf.old ≡ self.old.shape.page_bytes }

        // The programs by which the epoch has a commit more.
        ensures ok { OnOk result (B.state board.new ≡ after_programs (B.state board.old)
            (programs_of_commit self.old (seen_all entries.now))) }
        ensures taken { OnOk result (self.new ≡ record self.old { used = self.old.used + 1 }) }
        ensures fits { OnOk result (EpochOnFlash self.new (B.state board.new).pages) }

        // What the pages say, and what a reader of the epoch finds afterwards.
        ensures spells { journal_entries self.old.shape self.old.number self.old.used
            (next_bytes self.old (seen_all entries.now)) ≡ Some (seen_all entries.now) }
        ensures list { OnOk result (AddsAll self.old (seen_all entries.now)
            (B.state board.old).pages (B.state board.new).pages) }
        ensures cuts { OnOk result (CommitReached self.old (seen_all entries.now)
            (B.state board.old) (B.state board.new)) }

        // Or one of them failed, and the epoch is unchanged.
        ensures stopped { IfErr result (λ e. e ≡ Stopped) }
        ensures err { OnErr result (ProgramsFailed (B.state board.old) (B.state board.new)
            (programs_of_commit self.old (seen_all entries.now))) }
        ensures cuts_err { OnErr result (CommitWent self.old (seen_all entries.now)
            (B.state board.old) (B.state board.new)) }
        ensures kept { OnErr result (self.new ≡ self.old) }

        // Either way the board and the buffer may be used again.
        ensures ready { IsReady (B.state board.new) self.old.shape }
        ensures buffer { length buf.new ≡ length buf.old }
    {
        self.shape.known();
        encode(&self.shape, self.number, self.used, entries, buf);
        // so that the numbers of pages are known to fit
        let _ = self.shape.page_count();
        let page = commit_page(&self.shape, self.blocks, self.used);
        match write_pair(board, page, buf) {
            Ok(()) => {
                self.used += 1;
                Ok(())
            }
            Err(fault) => Err(fault),
        }
    }

    // The first program of a commit with these entries.
    fn begin<B: Nand>(
        &mut self,
        board: &mut B,
        entries: &[Entry],
        buf: &mut [u8],
    ) -> Result<(), Fault>
        requires left { 0 < left_of self.old }
        requires whole { self.old.half ≡ false }
        requires some { 1 ≤ length entries.now }
        requires most { length entries.now ≤ page_entries self.old.shape }
        requires each { AllByRecursion (IsEntry self.old.shape) (seen_all entries.now) }
        requires ready { IsReady (B.state board.old) self.old.shape }
        requires fits { EpochOnFlash self.old (B.state board.old).pages }
        requires blocks { AreBlocks self.old.shape self.old.blocks }
        requires room { length buf.old ≡ self.old.shape.page_bytes }
        ensures begins { OnOk result (BeginsCommit self.old (seen_all entries.now)
            (B.state board.old) self.new (B.state board.new)) }
        ensures stopped { IfErr result (λ e. e ≡ Stopped) }
        ensures failed { OnErr result (FailsToBegin self.old (seen_all entries.now)
            (B.state board.old) (B.state board.new)) }
        ensures kept { OnErr result (self.new ≡ self.old) }
        ensures ready { IsReady (B.state board.new) self.old.shape }
        ensures buffer { length buf.new ≡ length buf.old }
    {
        self.shape.known();
        encode(&self.shape, self.number, self.used, entries, buf);
        let page = commit_page(&self.shape, self.blocks, self.used);
        match write_first(board, page, buf) {
            Ok(()) => {
                self.used += 1;
                self.half = true;
                Ok(())
            }
            Err(fault) => Err(fault),
        }
    }

    // The second program of a commit that is half made, with the same entries.
    fn finish<B: Nand>(
        &mut self,
        board: &mut B,
        entries: &[Entry],
        buf: &mut [u8],
    ) -> Result<(), Fault>
        requires half { (former : Flash) × IsHalfMade self.old (seen_all entries.now) former
            (B.state board.old).pages }
        requires some { 1 ≤ length entries.now }
        requires most { length entries.now ≤ page_entries self.old.shape }
        requires each { AllByRecursion (IsEntry self.old.shape) (seen_all entries.now) }
        requires ready { IsReady (B.state board.old) self.old.shape }
        requires blocks { AreBlocks self.old.shape self.old.blocks }
        requires room { length buf.old ≡ self.old.shape.page_bytes }
        ensures ends { OnOk result (EndsCommit self.old (seen_all entries.now) (B.state board.old)
            self.new (B.state board.new)) }
        ensures stopped { IfErr result (λ e. e ≡ Stopped) }
        ensures failed { OnErr result (FailsToEnd self.old (seen_all entries.now)
            (B.state board.old) (B.state board.new)) }
        ensures kept { OnErr result (self.new ≡ self.old) }
        ensures ready { IsReady (B.state board.new) self.old.shape }
        ensures buffer { length buf.new ≡ length buf.old }
    {
        self.shape.known();
        // so that the numbers of pages are known to fit
        let _ = self.shape.page_count();
        let index = self.used - 1;
        encode(&self.shape, self.number, index, entries, buf);
        let page = commit_page(&self.shape, self.blocks, index);
        match write_second(board, page, buf) {
            Ok(()) => {
                self.half = false;
                Ok(())
            }
            Err(fault) => Err(fault),
        }
    }

    /// Adds entries, as `append` does, in two calls of one program each: the first call programs
    /// the first page of the epoch's next commit and returns false, the second, with the same
    /// entries, its second page and returns true. The entries follow those of the epoch from the
    /// first call on; wherever either call is cut, all of them were added or none. `Stopped` if the
    /// program fails; the epoch is as before then. `buf` has the size of a page and is overwritten.
    pub fn append_step<B: Nand>(
        &mut self,
        board: &mut B,
        entries: &[Entry],
        buf: &mut [u8],
    ) -> Result<bool, Fault>
        requires left { self.old.half ≡ false → 0 < left_of self.old }
        requires half { self.old.half ≡ true → (former : Flash)
            × IsHalfMade self.old (seen_all entries.now) former (B.state board.old).pages }
        requires some { 1 ≤ length entries.now }
        requires most { length entries.now ≤ page_entries self.old.shape }
        requires each { AllByRecursion (IsEntry self.old.shape) (seen_all entries.now) }
        requires ready { IsReady (B.state board.old) self.old.shape }
        requires fits { EpochOnFlash self.old (B.state board.old).pages }
        requires blocks { AreBlocks self.old.shape self.old.blocks }
        requires room { length buf.old ≡ self.old.shape.page_bytes }

        // The first program, or the second.
        ensures turn { IfOk result (λ done. done ≡ self.old.half) }
        ensures cases { IfOk result (λ done. MatchBool done
            (EndsCommit self.old (seen_all entries.now) (B.state board.old) self.new
            (B.state board.new))
            (BeginsCommit self.old (seen_all entries.now) (B.state board.old) self.new
            (B.state board.new))) }

        // Or it failed, and the epoch is unchanged.
        ensures stopped { IfErr result (λ e. e ≡ Stopped) }
        ensures failed { OnErr result (MatchBool self.old.half
            (FailsToEnd self.old (seen_all entries.now) (B.state board.old) (B.state board.new))
            (FailsToBegin self.old (seen_all entries.now) (B.state board.old) (B.state board.new))) }
        ensures kept { OnErr result (self.new ≡ self.old) }

        // Either way the board and the buffer may be used again.
        ensures ready { IsReady (B.state board.new) self.old.shape }
        ensures buffer { length buf.new ≡ length buf.old }
    {
        if self.half {
            match self.finish(board, entries, buf) {
                Ok(()) => Ok(true),
                Err(fault) => Err(fault),
            }
        } else {
            match self.begin(board, entries, buf) {
                Ok(()) => Ok(false),
                Err(fault) => Err(fault),
            }
        }
    }
}
