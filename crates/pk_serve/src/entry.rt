//! Entries and their values, taken from the input.
ghost use Rattle.std.specs.Prelude.{◌≡◌, ◌≤◌, ◌<◌, ◌-◌, length, take, false, OnOk, OnErr, IfOk, IfErr, IfSome, Some, None, Ok, MatchOption, ◌==◌, if◌then◌else◌};
ghost use Rattle.pk_base.specs.Shape.{greatest};
ghost use Rattle.pk_serve.specs.Input.{NoEntry, Entered, Valued, NoValue, TookFailed};

use crate::End;
use crate::input::{fill, skip};
use pk_base::Shape;
use pk_nand::{Board, HostFault};
use pk_nvme::opcode::STORE;
use pk_nvme::{Request, SUBMISSION_BYTES};

/// A command that is served as the next one.
#[derive(Clone, Copy)]
pub struct Numbered {
    /// Its entry's fields.
    pub request: Request,
    /// How many commands were taken before it.
    pub before: u32,
}

/// Takes an entry, or says why none was taken. None if no more are to be taken.
pub fn take_entry<B: Board>(board: &mut B, entry: &mut [u8], no_more: bool) -> Result<(), End>
    requires { length entry.old ≡ SUBMISSION_BYTES }
    ensures ok { OnOk result (Entered (B.state board.old) (B.state board.new) entry.new) }
    ensures taken { OnOk result (no_more ≡ false) }
    ensures len { length entry.new ≡ SUBMISSION_BYTES }
    ensures err { IfErr result
        (λ end. NoEntry (B.state board.old) (B.state board.new) no_more end) }
{
    let first = match board.fetch(entry) {
        Ok(n) => n,
        Err(_) => return Err(End::Input),
    };
    if first == 0 {
        return Err(End::Done);
    }
    if no_more {
        return Err(End::Worn);
    }
    match fill(board, entry, first) {
        Ok(n) => {
            if n < SUBMISSION_BYTES {
                return Err(End::Truncated);
            }
            Ok(())
        }
        Err(_) => Err(End::Input),
    }
}

/// Takes the value after an entry: how many bytes of the buffer go to the drive. None if the input
/// ends inside it.
pub fn take_value<B: Board>(
    board: &mut B,
    request: &Request,
    shape: &Shape,
    value: &mut [u8],
) -> Result<Option<usize>, HostFault>
    requires room { greatest shape.now ≤ length value.old }
    requires some { 0 < length value.old }
    ensures ok { IfOk result (λ o. MatchOption o
        (NoValue (B.state board.old) (B.state board.new) request.now.opcode request.now.size)
        (λ n. Valued (B.state board.old) (B.state board.new) shape.now request.now.opcode
        request.now.size (take n value.new))) }
    ensures within { IfOk result (λ o. IfSome o (λ n. n ≤ length value.new)) }
    ensures len { length value.new ≡ length value.old }
    ensures err { OnErr result (TookFailed (B.state board.old) (B.state board.new)
        (if request.now.opcode == STORE then request.now.size else 0)) }
{
    if request.opcode != STORE {
        return Ok(Some(0));
    }
    if request.size > shape.greatest() {
        return match skip(board, value, request.size) {
            Ok(n) => {
                if n < request.size {
                    return Ok(None);
                }
                Ok(Some(0))
            }
            Err(fault) => Err(fault),
        };
    }
    let size = request.size as usize;
    match fill(board, &mut value[..size], 0) {
        Ok(n) => {
            if n < size {
                return Ok(None);
            }
            Ok(Some(size))
        }
        Err(fault) => Err(fault),
    }
}
