//! A port over a map in memory, as a yardstick: no read of it fails.
ghost use Rattle.std.specs.Prelude.{◌≡◌, ◌≤◌, ◌<◌, ◌^◌, List, ℕ, length, take};
ghost use Rattle.pk_nvme.specs.Command.{command};
ghost use Rattle.pk_model.specs.Machine.{replied};
ghost use Rattle.pk_host.specs.Port.{PortState, Replies, Completes, Took};
ghost use Rattle.pk_host.specs.TookLaws.{took_none, took_both};
ghost use Rattle.pk_test_commands.specs.Memory.{seen};

use crate::machine::GoodMachine;
use pk_base::Shape;
use pk_host::{Completed, Port, PortFault, are_fields, is_handed};
use pk_model::Answer;
use pk_nvme::{Request, completion};
use std::alloc::{AllocError, Global};

/// A drive in memory with the number of entries taken, and the count of calls for which memory was missing.
#[derive(Drop)]
pub struct MemoryPort {
    alloc: Global,
    machine: GoodMachine,
    taken: u32,
    faults: u64,
}

/// Puts bytes at the start of a buffer.
fn put_front(into: &mut [u8], bytes: &[u8])
    requires { length bytes.now ≤ length into.old }
    ensures front { take (length bytes.now) into.new ≡ bytes.now }
    ensures size { length into.new ≡ length into.old }
{
    into[..bytes.len()].copy_from_slice(bytes);
}

/// The completion of a command with this answer, after this many entries; its data are put at the
/// start of a buffer.
fn completed(entry: &[u8; 64], taken: u32, answer: &Answer, into: &mut [u8]) -> Completed
    requires room { length answer.now.bytes.items ≤ length into.old }
    requires short { length answer.now.bytes.items < 2 ^ 32 }
    ensures { (old new : PortState) (value : List ℕ)
        → Replies old new (command entry.now value) (replied answer.now)
        → Completes old new (command entry.now value) result into.new }
{
    let data = answer.bytes.bytes();
    put_front(into, data);
    Completed {
        entry: completion(Request::of(entry).cid, taken, answer.status, answer.result),
        data_len: data.len() as u32,
    }
}

impl MemoryPort {
    /// A drive of this shape with the empty map; an error if the memory for it is missing.
    pub fn new(alloc: Global, shape: Shape) -> Result<MemoryPort, AllocError> {
        Ok(MemoryPort {
            alloc,
            machine: GoodMachine::new(alloc, shape)?,
            taken: 0,
            faults: 0,
        })
    }
}

impl Port for MemoryPort {
    ghost state = { λ p. seen p.machine p.faults };

    ghost took = { λ p cs q. Took (seen p.machine p.faults) (seen q.machine q.faults) cs };

    ghost took_state = { λ p cs q h. h };

    ghost took_none = { λ p. took_none (seen p.machine p.faults) };

    ghost took_both = { λ p cs q ds r. took_both (seen p.machine p.faults) cs
        (seen q.machine q.faults) ds (seen r.machine r.faults) };

    fn submit(
        &mut self,
        entry: &[u8; 64],
        value: &[u8],
        into: &mut [u8],
    ) -> Result<Completed, PortFault> {
        match self.machine.step(self.alloc, entry, value) {
            Ok(answer) => {
                is_handed(entry, value);
                are_fields(answer.status, answer.result);
                self.taken = self.taken.wrapping_add(1);
                Ok(completed(entry, self.taken, &answer, into))
            }
            Err(_) => {
                self.faults = self.faults.saturating_add(1);
                Err(PortFault)
            }
        }
    }
}
