//! The port is one of a host.
ghost use Rattle.std.specs.Prelude.{◌≡◌, ◌≤◌, ◌<◌, ◌^◌, ℕ, List, [], ◌∷◌, ◌++◌, length, take};
ghost use Rattle.std.proofs.Common.{refl, ◌∙◌};
ghost use Rattle.pk_nvme.specs.Command.{Command};
ghost use Rattle.pk_host.specs.Port.{PortState, Replies, Completes};
ghost use Rattle.pk_call.specs.Seen.{reply_of};
ghost use Rattle.pk_port.specs.Steps.{mount, standing, seen, Chain};
ghost use Rattle.pk_port.specs.Laws.{joined_by, told_by};

use crate::DrivePort;
use crate::step::serve_lent;
use pk_call::Outcome;
use pk_drive::Engine;
use pk_host::{Completed, Port, PortFault, is_handed};
use pk_nand::Nand;
use pk_nvme::{Request, SUBMISSION_BYTES, completion};

/// Copies the start of a buffer to the start of another.
fn copy_front(from: &[u8], into: &mut [u8], len: usize)
    requires from { len ≤ length from.now }
    requires into { len ≤ length into.old }
    ensures { take len into.new ≡ take len from.now }
{
    into[..len].copy_from_slice(&from[..len]);
}

/// The completion of a command with this outcome, after this many entries; its data are put at the
/// start of a buffer.
fn completed(
    request: &Request,
    taken: u32,
    outcome: &Outcome,
    bytes: &[u8],
    into: &mut [u8],
) -> Completed
    requires from { outcome.now.data_len ≤ length bytes.now }
    requires into { outcome.now.data_len ≤ length into.old }
    ensures { (old new : PortState) (c : Command) → c.cid ≡ request.now.cid
        → Replies old new c (reply_of outcome.now bytes.now)
        → Completes old new c result into.new }
{
    copy_front(bytes, into, outcome.data_len as usize);
    Completed {
        entry: completion(request.cid, taken, outcome.status, outcome.result),
        data_len: outcome.data_len,
    }
}

impl<'d, 'b, 't, 'm, D: Engine, B: Nand> Port for DrivePort<'d, 'b, 't, 'm, D, B> {
    ghost state = { λ p. seen p.shape (mount (B.state p.board.now) (D.sight p.drive.now))
        p.tally.now.faults };

    ghost took = { λ p cs q. (q.drive.ghost_name ≡ p.drive.ghost_name)
        × (q.board.ghost_name ≡ p.board.ghost_name)
        × (q.tally.ghost_name ≡ p.tally.ghost_name)
        × (q.buffer.ghost_name ≡ p.buffer.ghost_name)
        × (q.shape ≡ p.shape)
        × Chain p.shape (standing (B.state p.board.now) (D.sight p.drive.now) p.tally.now.faults
        p.tally.now.halt) cs (standing (B.state q.board.now) (D.sight q.drive.now)
        q.tally.now.faults q.tally.now.halt) };

    ghost took_state = { λ p cs q h. told_by p.shape q.shape (standing (B.state p.board.now)
        (D.sight p.drive.now) p.tally.now.faults p.tally.now.halt) cs (standing
        (B.state q.board.now) (D.sight q.drive.now) q.tally.now.faults q.tally.now.halt) h.4 h.5 };

    ghost took_none = { λ p. (refl, refl, refl, refl, refl, refl) };

    ghost took_both = { λ p cs q ds r h k. (
      k.0 ∙ h.0,
      k.1 ∙ h.1,
      k.2 ∙ h.2,
      k.3 ∙ h.3,
      k.4 ∙ h.4,
      joined_by p.shape q.shape (standing (B.state p.board.now) (D.sight p.drive.now)
          p.tally.now.faults p.tally.now.halt) cs (standing (B.state q.board.now)
          (D.sight q.drive.now) q.tally.now.faults q.tally.now.halt) ds (standing
          (B.state r.board.now) (D.sight r.drive.now) r.tally.now.faults r.tally.now.halt) h.4 h.5
          k.5,
    ) };

    fn submit(
        &mut self,
        entry: &[u8; SUBMISSION_BYTES],
        value: &[u8],
        into: &mut [u8],
    ) -> Result<Completed, PortFault> {
        is_handed(entry, value);
        let request = Request::of(entry);
        let shape = self.shape;
        match serve_lent(self.drive, self.board, &shape, &request, value, self.buffer) {
            Ok(outcome) => {
                self.tally.answer();
                Ok(completed(&request, self.tally.taken, &outcome, self.buffer, into))
            }
            Err(halt) => {
                self.tally.fail(halt);
                Err(PortFault)
            }
        }
    }
}
