//! The trait of a port: one command after another, each completed before the next.
ghost use Rattle.std.specs.Prelude.{◌≡◌, ◌≤◌, ℕ, List, [], ◌∷◌, ◌++◌, length, IfOk, OnErr};
ghost use Rattle.pk_nvme.specs.declared.limits.TheConstants.{NAMESPACE};
ghost use Rattle.pk_nvme.specs.Command.{Command, command, IsWhole};
ghost use Rattle.pk_nand.specs.Calls.{Rose};
ghost use Rattle.pk_host.specs.Port.{PortState, Completes, Took, room_of};

use crate::types::{Completed, PortFault};
use pk_nvme::SUBMISSION_BYTES;

/// A drive that answers each command before the next is passed.
pub trait Port {
    /// What a host sees of it.
    ghost state: { Self → PortState };

    /// These commands took the port before to the port after.
    ghost took: { Self → List Command → Self → Type 0 };

    /// Passes on a submission entry in the drive's namespace, with the value of a Store; the data
    /// of the answer are put at the start of the buffer, which has the bytes that the entry names
    /// (`REPORT_BYTES` for a Report). An error only if `port_faults` rose.
    fn submit(
        &mut self,
        entry: &[u8; SUBMISSION_BYTES],
        value: &[u8],
        into: &mut [u8],
    ) -> Result<Completed, PortFault>
        requires whole { IsWhole (command entry.now value.now) }
        requires namespace { (command entry.now value.now).namespace ≡ NAMESPACE }
        requires room { room_of (command entry.now value.now) ≤ length into.old }
        ensures completes { IfOk result (λ done. Completes (state self.old) (state self.new)
            (command entry.now value.now) done into.new) }
        ensures fault { OnErr result
            (Rose (state self.old).port_faults (state self.new).port_faults) }
        ensures took { took self.old (command entry.now value.now ∷ []) self.new };

    /// What is unchanged and what may have changed.
    ghost took_state: { (p : Self) (cs : List Command) (q : Self)
        → took p cs q → Took (state p) (state q) cs };

    /// No command takes a port to itself.
    ghost took_none: { (p : Self) → took p [] p };

    /// One list of commands after another.
    ghost took_both: { (p : Self) (cs : List Command) (q : Self) (ds : List Command) (r : Self)
        → took p cs q → took q ds r → took p (cs ++ ds) r };
}
