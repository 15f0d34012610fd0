//! The numbers of a Report, and its bytes.
ghost use Rattle.std.specs.Prelude.{◌≡◌, ◌≤◌, length, take, false};
ghost use Rattle.pk_call.specs.Exec.{report_of};
ghost use Rattle.pk_call.specs.Seen.{counts_of, in_space_of};
ghost use Rattle.pk_call.specs.Sight.{in_space_at};
ghost use Rattle.pk_parts.specs.Parts as spec;
ghost use Rattle.pk_core.specs.Quiet.{DoneFor};
ghost use Rattle.pk_nvme.specs.declared.status.TheConstants.{SUCCESSFUL_COMPLETION};
ghost use Rattle.pk_nvme.specs.declared.opcode.TheConstants.{REPORT};

use crate::quiet::served;
use pk_base::put_u32;
use pk_call::{Counts, Outcome};
use pk_nvme::{REPORT_BYTES, REPORT_NUMBERS, Request};
use pk_parts::Parts;
use pk_region::Region;

// Writes the numbers in their order.
fn put_counts(counts: &Counts, into: &mut [u8])
    requires { REPORT_BYTES ≤ length into.old }
    ensures bytes { take REPORT_BYTES into.new ≡ report_of (in_space_of counts.now)
        (counts_of counts.now) }
    ensures len { length into.new ≡ length into.old }
{
    let numbers = [
        counts.live,
        counts.limit,
        counts.keys,
        counts.pinned,
        counts.frames,
        counts.leased,
        counts.active,
        counts.frozen,
        counts.run1,
        counts.run2,
        counts.run3,
        counts.run4,
        counts.epoch,
        counts.blocks,
        counts.ready,
        counts.merge,
    ];
    for i in 0..REPORT_NUMBERS {
        put_u32(into, 4 * i, numbers[i]);
    }
}

/// Writes the numbers of a Report in the namespace of its request.
pub(crate) fn report<A: Region>(parts: &Parts<A>, request: &Request, into: &mut [u8]) -> Outcome
    // The namespace and the buffer.
    requires space { 1 ≤ request.now.namespace
        × request.now.namespace ≤ length (spec.spaces_of parts.now) }
    requires room { REPORT_BYTES ≤ length into.old }

    // The answer.
    ensures does { request.now.opcode ≡ REPORT → DoneFor parts.now request.now result into.new }
    ensures told { (result.status ≡ SUCCESSFUL_COMPLETION) × (result.stopped ≡ false) }

    // Its bytes.
    ensures bytes { take result.data_len into.new ≡ report_of
        (in_space_at (spec.spaces_of parts.now) request.now.namespace) (spec.counts_of parts.now) }
    ensures fits { result.data_len ≤ length into.new }
    ensures len { length into.new ≡ length into.old }
{
    // so that a drive is known to have at most eight namespaces
    let _ = parts.spaces();
    put_counts(&parts.counts(request.namespace as u8), into);
    served(0, REPORT_BYTES as u32, 0)
}
