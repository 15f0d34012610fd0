//! One command, and the reply that its completion reports.
ghost use Rattle.std.specs.Prelude.{◌≡◌, ◌≤◌, ℕ, List, [], ◌∷◌, length, take, IfOk, IfErr};
ghost use Rattle.pk_nvme.specs.Command.{value_size};
ghost use Rattle.pk_nvme.specs.Seen.{command_of};
ghost use Rattle.pk_nand.specs.Calls.{Rose};
ghost use Rattle.pk_host.specs.Calls.{of_bytes};
ghost use Rattle.pk_host.specs.Port.{Replies, room_of};
ghost use Rattle.pk_host.specs.Received.{replied};

use crate::port::Port;
use crate::types::HostError;
use pk_base::KEY_BYTES;
use pk_nvme::limits::NAMESPACE;
use pk_nvme::{Request, result_in, status_in};

/// A command but for its key and value: which it is, its size in bytes, and its options.
#[derive(Clone, Copy)]
pub struct Asked {
    pub opcode: u8,
    pub size: u32,
    pub options: u8,
}

/// What a completion reports: the status, the result, and how many bytes of data are at the start
/// of the buffer.
#[derive(Clone, Copy)]
pub struct Received {
    pub status: u8,
    pub result: u32,
    pub len: u32,
}

/// The request in the drive's namespace for these bytes of key.
fn request_of(asked: Asked, key: &[u8]) -> Request
    requires { length key.now ≤ KEY_BYTES }
    ensures { (value : List ℕ) → command_of result value
        ≡ of_bytes asked.opcode key.now asked.size asked.options value }
{
    let mut place = [0u8; KEY_BYTES];
    place[..key.len()].copy_from_slice(key);
    Request {
        opcode: asked.opcode,
        cid: 0,
        namespace: NAMESPACE,
        key_len: key.len() as u8,
        key: place,
        size: asked.size,
        options: asked.options,
    }
}

/// Passes on a command for these bytes of key, and returns the reply.
pub fn ask<P: Port>(
    port: &mut P,
    asked: Asked,
    key: &[u8],
    value: &[u8],
    into: &mut [u8],
) -> Result<Received, HostError>
    // The key, the value, and room for what comes back.
    requires key { length key.now ≤ KEY_BYTES }
    requires whole { length value.now
        ≡ value_size (of_bytes asked.opcode key.now asked.size asked.options value.now) }
    requires room { room_of (of_bytes asked.opcode key.now asked.size asked.options value.now)
        ≤ length into.old }

    // The reply, or a fault of the port.
    ensures replies { IfOk result (λ r. Replies (P.state port.old) (P.state port.new)
        (of_bytes asked.opcode key.now asked.size asked.options value.now) (replied r into.new)) }
    ensures fits { IfOk result (λ r. r.len ≤ length into.new) }
    ensures fault { IfErr result (λ e. (e ≡ HostError.Port)
        × Rose (P.state port.old).port_faults (P.state port.new).port_faults) }

    // The port took this one command, in any case.
    ensures took { P.took port.old
        (of_bytes asked.opcode key.now asked.size asked.options value.now ∷ []) port.new }
{
    let request = request_of(asked, key);
    match port.submit(&request.entry(), value, into) {
        Ok(done) => Ok(Received {
            status: status_in(&done.entry),
            result: result_in(&done.entry),
            len: done.data_len,
        }),
        Err(_) => Err(HostError::Port),
    }
}
