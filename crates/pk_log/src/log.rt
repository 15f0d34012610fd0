//! The log.
ghost use Rattle.std.specs.Prelude.{◌≡◌, ◌⊎◌, ◌++◌, ◌∷◌, [], ℕ, ◌<◌, ◌≤◌, length, false, Some, None, IfOk, IfErr, OnOk, OnErr, MatchOption};
ghost use Rattle.pk_base.specs.Entry.{key_of};
ghost use Rattle.pk_base.specs.Firsts.{firsts};
ghost use Rattle.pk_base.specs.Key.{space_of};
ghost use Rattle.pk_base.specs.Page.{Flash};
ghost use Rattle.pk_base.specs.Seen.{entry as seen};
ghost use Rattle.pk_base.specs.Shape.{IsShape, buffer, page_entries};
ghost use Rattle.pk_nand.specs.Calls.{IsReady};
ghost use Rattle.pk_nand.specs.declared.types.Fault.TheVariants.{Stopped};
ghost use Rattle.pk_buf.specs.Table.{Table};
ghost use Rattle.pk_rootfmt.specs.Root.{Root as RootValue};
ghost use Rattle.pk_jrn.specs.Epochs.{left_of};
ghost use Rattle.pk_model.specs.Found.{Found};
ghost use Rattle.pk_model.specs.Laws.{IsStorable};
ghost use Rattle.pk_model.specs.RootLimits.{root_spaces};
ghost use Rattle.pk_log.specs.State.{opened, entry_of, is_full_for as is_full_for_key, needs_freeze as needs_freeze_for, pushed};
ghost use Rattle.pk_log.specs.Logs.{LogOnFlash, Opens};
ghost use Rattle.pk_log.specs.Commits.{CommitsNone, CommitsAll, CommitFailed, CommitStands, CommitHolds, CommitReaches, CommitGoes};

use pk_base::{Entry, Key};
use pk_buf::Buffer;
use pk_jrn::Epoch;
use pk_nand::{Fault, Nand};
use pk_region::Region;
use pk_root::Installer;
use pk_rootfmt::Root;
use std::alloc::AllocError;
use std::marker::Model;

/// What a drive keeps of its journal. Contracts see it as a value, and `LogOnFlash` says how it
/// matches a flash.
pub struct Log<A: Region> {
    pub(crate) root: Root<A>,
    pub(crate) installer: Installer,
    /// The epoch that is written, the newest one.
    pub epoch: Epoch,
    /// The buffer of the newest epoch and the pending entries.
    pub active: Buffer<A>,
    pub(crate) frozen: Buffer<A>,
    pub(crate) pending: Vec<Entry, A>,
}

// Written out, so that whoever drops one meets a call, and not the drops of all its parts.
impl<A: Region> Drop for Log<A> {
    fn drop(self) {
        let Log {
            root: _,
            installer: _,
            epoch: _,
            active: _,
            frozen: _,
            pending: _,
        } = self;
    }
}

impl<A: Region> Model for Log<A> {
    ghost use Rattle.std.specs.Prelude.{◌≤◌, length, vec_capacity};
    ghost use Rattle.pk_base.specs.Shape.{page_entries};
    ghost use Rattle.pk_base.specs.Seen.{entries as seen_all};
    ghost use Rattle.pk_log.specs.State.{LogState};

    ghost Value = { LogState };

    ghost view = { λ l. record {
      shape = l.root.shape;
      root = l.root.root;
      next = l.installer;
      epoch = l.epoch;
      active = l.active;
      frozen = l.frozen;
      pending = seen_all l.pending.items;
    } };

    ghost invariant = { λ l. (length l.pending.items ≤ page_entries l.root.shape)
        × (page_entries l.root.shape ≤ vec_capacity l.pending) };
}

// Whether the buffer is full and has no entry of the key.
fn is_full_for<A: Region>(buffer: &Buffer<A>, key: &Key) -> bool
    ensures { result ≡ is_full_for_key buffer.now key.now }
{
    if buffer.room() > 0 {
        return false;
    }
    match buffer.get(key) {
        Some(_) => false,
        None => true,
    }
}

impl<A: Region> Log<A> {
    /// The log of a root that was found in this page, with its newest epoch and the buffers of its epochs. Nothing is pending;
    /// the memory for as many entries as a journal page has is taken here.
    pub fn new(
        alloc: A,
        root: Root<A>,
        root_page: u32,
        epoch: Epoch,
        active: Buffer<A>,
        frozen: Buffer<A>,
    ) -> Result<Log<A>, AllocError>
        ensures value { IfOk result (λ l. l ≡ opened root root_page epoch active frozen) }
        ensures stands { IfOk result (λ l. (flash : Flash) (found : Found)
            → Opens root root_page epoch active frozen flash found
            → LogOnFlash l flash (root_page, root.root) found) }
    {
        root.shape().known();
        let pending = Vec::with_capacity(alloc, root.shape().entries() as usize)?;
        Ok(Log {
            root,
            installer: Installer::after(root_page),
            epoch,
            active,
            frozen,
            pending,
        })
    }

    /// The newest root.
    pub fn root(&self) -> &Root<A>
        ensures { result.now ≡ record { shape = self.now.shape; root = self.now.root } }
    {
        &self.root
    }

    /// How many commits the newest epoch has.
    pub fn epoch_used(&self) -> u32
        ensures { result ≡ self.now.epoch.used }
    {
        self.epoch.used()
    }

    /// How many more commits the newest epoch takes.
    pub fn left(&self) -> u32
        ensures { result ≡ left_of self.now.epoch }
    {
        self.epoch.left()
    }

    /// The buffer of the newest epoch and the pending entries.
    pub fn active(&self) -> &Buffer<A>
        ensures { result.now ≡ self.now.active }
    {
        &self.active
    }

    /// The buffer of the older epoch.
    pub fn frozen(&self) -> &Buffer<A>
        ensures { result.now ≡ self.now.frozen }
    {
        &self.frozen
    }

    /// How many entries wait for a commit.
    pub fn pending(&self) -> u32
        ensures value { result ≡ length self.now.pending }
        ensures most { length self.now.pending ≤ page_entries self.now.shape }
        ensures shape { IsShape self.now.shape }
    {
        self.root.shape().known();
        self.pending.len() as u32
    }

    /// The entry that the buffers have of the key: the active one's, or else the frozen one's.
    pub fn get(&self, key: &Key) -> Option<Entry>
        ensures { MatchOption result (entry_of self.now key.now ≡ None)
            (λ e. (key_of (seen e) ≡ key.now) × (entry_of self.now key.now ≡ Some (seen e).1)) }
    {
        match self.active.get(key) {
            Some(found) => Some(found),
            None => self.frozen.get(key),
        }
    }

    /// Whether a freeze must come before a further entry of the key: the active buffer is full for it, or nothing is pending
    /// and the epoch takes no more commits.
    pub fn needs_freeze(&self, key: &Key) -> bool
        ensures { result ≡ needs_freeze_for self.now key.now }
    {
        is_full_for(&self.active, key) || (self.pending.is_empty() && self.epoch.left() == 0)
    }

    /// Adds an entry of one of the drive's namespaces after the pending ones, and puts it into the
    /// active buffer. No commit of the epoch may be half made.
    pub fn push(&mut self, new: Entry)
        requires room { needs_freeze_for self.old (key_of (seen new)) ≡ false }
        requires few { length self.old.pending < page_entries self.old.shape }
        requires whole { self.old.epoch.half ≡ false }
        requires storable { IsStorable self.old.shape (seen new) }
        requires spaced { space_of (key_of (seen new)) ≤ root_spaces self.old.shape self.old.root }
        ensures pushed { self.new ≡ pushed self.old (seen new) }
        ensures stands { (flash : Flash) (top : ℕ × RootValue) (found : Found)
            → LogOnFlash self.old flash top found → LogOnFlash self.new flash top found }
        ensures fits { (flash : Flash) (top : ℕ × RootValue) (found : Found)
            → LogOnFlash self.old flash top found
            → length (firsts (found.newest ++ (self.old.pending ++ seen new ∷ [])))
            ≤ buffer self.old.shape }
    {
        let _ = self.active.len();
        self.active.put(new.copy());
        self.pending.push_reserved(new);
        let _ = self.active.len();
    }

    /// Adds the pending entries to the newest epoch by the two programs of its next commit; does nothing if none is pending.
    /// Wherever it is cut, the flash holds the map without them or with them, and nothing went out. `Stopped` if one of the
    /// programs fails; the log is as before then. `buf` has the bytes of a page, which are lost.
    pub fn commit<B: Nand>(&mut self, board: &mut B, buf: &mut [u8]) -> Result<(), Fault>
        requires ready { IsReady (B.state board.old) self.old.shape }
        requires stands { (top : ℕ × RootValue) × (found : Found)
            × LogOnFlash self.old (B.state board.old).pages top found }
        requires room { length buf.old ≡ self.old.shape.page_bytes }

        // Two programs if entries are pending, and none are pending after it.
        ensures ok { OnOk result
            (CommitsNone self.old (B.state board.old) self.new (B.state board.new)
            ⊎ CommitsAll self.old (B.state board.old) self.new (B.state board.new)) }
        ensures none { OnOk result (self.new.pending ≡ []) }
        ensures stands { OnOk result (CommitStands self.old (B.state board.old) self.new
            (B.state board.new)) }
        ensures holds { OnOk result (CommitHolds self.old (B.state board.old) (B.state board.new)) }
        ensures cuts { OnOk result (CommitReaches self.old (B.state board.old)
            (B.state board.new)) }

        // Or one of them failed, and the log is unchanged.
        ensures stopped { IfErr result (λ e. e ≡ Stopped) }
        ensures err { OnErr result (CommitFailed self.old (B.state board.old) (B.state board.new)) }
        ensures cuts_err { OnErr result (CommitGoes self.old (B.state board.old)
            (B.state board.new)) }
        ensures kept { OnErr result (self.new ≡ self.old) }

        // Either way the board and the buffer may be used again.
        ensures ready { IsReady (B.state board.new) self.old.shape }
        ensures buffer { length buf.new ≡ length buf.old }
    {
        self.root.shape().known();
        let _ = self.active.len();
        if self.pending.is_empty() {
            Ok(())
        } else {
            match self.epoch.append(board, &self.pending, buf) {
                Ok(()) => {
                    self.pending.clear();
                    Ok(())
                }
                Err(fault) => Err(fault),
            }
        }
    }
}
