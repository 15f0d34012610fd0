//! Posts, gathered until they have to leave.
ghost use Rattle.std.specs.Prelude.{◌≡◌, ◌≤◌, [], ◌++◌, length, true, false, IfSome, OnOk};
ghost use Rattle.std.specs.Io.KnownBytes.{Appends};
ghost use Rattle.pk_redo.specs.declared.batch.TheConstants.{BATCH_HEAD};
ghost use Rattle.pk_file.specs.declared.room.TheConstants.{GATHERED};

use crate::backing::Backing;
use crate::room::GATHERED;
use pk_disk::OpenDisk;
use pk_nand::HostFault;
use std::alloc::Global;
use std::io;
use std::io::Write;

/// Whether posts go out.
#[derive(Clone, Copy, Debug, PartialEq, Eq)]
enum Stage {
    /// Nothing was posted. The first post goes out at once, so that an output that is closed is
    /// found by it.
    Untried,
    Open,
    /// A write failed. Nothing follows it, so that what was written remains a prefix of what was
    /// posted.
    Lost,
}

/// A writer, and the posts that it has not got. Only `send` writes to it: what is gathered when
/// this is dropped has not left.
#[derive(Drop)]
pub struct Outgoing<W: Write + Drop> {
    pub to: W,
    pub gathered: Vec<u8>,
    stage: Stage,
    ghost few: { length gathered.items ≤ GATHERED },
}

/// Room for what is gathered; none if there is no memory for it.
fn room(alloc: Global) -> Vec<u8>
    ensures { result.items ≡ [] }
{
    match Vec::with_capacity(alloc, GATHERED) {
        Ok(room) => room,
        Err(_) => Vec::new(alloc),
    }
}

/// Writes bytes, and others after them.
fn write_both<W: Write>(to: &mut W, bytes: &[u8], more: &[u8]) -> io::Result<()>
    ensures { OnOk result
        (Appends (W.contents to.old) (W.contents to.new) (bytes.now ++ more.now)) }
{
    match to.write_all(bytes) {
        Ok(()) => {}
        Err(e) => return Err(e),
    }
    match to.write_all(more) {
        Ok(()) => {}
        Err(e) => return Err(e),
    }
    to.flush()
}

impl<W: Write + Drop> Outgoing<W> {
    /// Nothing was posted yet.
    pub fn new(alloc: Global, to: W) -> Outgoing<W>
        ensures { result.gathered.items ≡ [] }
    {
        Outgoing {
            to,
            gathered: room(alloc),
            stage: Stage::Untried,
        }
    }

    /// Whether no post waits.
    pub fn is_empty(&self) -> bool
        ensures { result ≡ true → self.now.gathered.items ≡ [] }
    {
        self.gathered.is_empty()
    }

    /// Adds bytes to those that leave with the next that is sent. Those that have no room, and the
    /// first, have to be sent at once.
    pub fn gather(&mut self, bytes: &[u8]) -> bool
        ensures gathered { result ≡ true
            → self.new.gathered.items ≡ self.old.gathered.items ++ bytes.now }
        ensures refused { result ≡ false → self.new.gathered.items ≡ self.old.gathered.items }
        ensures none_left { self.new.to ≡ self.old.to }
    {
        if self.stage != Stage::Open || bytes.len() > GATHERED - self.gathered.len() {
            return false;
        }
        self.gathered.extend_from_slice(bytes).is_ok()
    }

    /// Sends what is gathered, and these bytes after it, where no page waits for the image, no step
    /// for the log, and none that waited was lost. After a write that failed nothing more is written.
    pub fn send<D: OpenDisk>(
        &mut self,
        backing: &Backing<'_, D>,
        bytes: &[u8],
    ) -> Result<(), HostFault>
        requires no_page_waits { backing.now.row.extents.items ≡ [] }
        requires no_step_waits { IfSome backing.now.log
            (λ log. log.redo.batch.filled ≡ BATCH_HEAD) }
        requires none_lost { backing.now.row.is_lost ≡ false }
        ensures sent { OnOk result (Appends (W.contents self.old.to) (W.contents self.new.to)
            (self.old.gathered.items ++ bytes.now)) }
        ensures none_waits { self.new.gathered.items ≡ [] }
    {
        let _ = backing;
        if self.stage == Stage::Lost {
            self.gathered.clear();
            return Err(HostFault { given: 0 });
        }
        let outcome = write_both(&mut self.to, self.gathered.as_slice(), bytes);
        self.gathered.clear();
        match outcome {
            Ok(()) => {
                self.stage = Stage::Open;
                Ok(())
            }
            Err(_) => {
                self.stage = Stage::Lost;
                Err(HostFault { given: 0 })
            }
        }
    }
}
