//! A step: a page is programmed, or a block erased. It takes the number of the page, or of the block
//! with the highest bit set; the length of the front of the page; and the front itself, behind which
//! the page has zeros.
ghost use Rattle.std.specs.Prelude.{◌≡◌, ◌+◌, ◌^◌, ◌<◌, ◌≤◌, ◌↔◌, ℕ, List, [], ◌∷◌, ◌++◌, length, IsTrue, MatchOption};
ghost use Rattle.pk_base.specs.Fields.{padded};
ghost use Rattle.pk_base.specs.Mark.{Mark, program, erase};
ghost use Rattle.pk_base.specs.Shape as spec;
ghost use Rattle.pk_redo.specs.Steps.{IsStep, CanBeStep, AreSteps, mark_at, mark_of_numbers, step_mark, after_step};

use crate::batch::{get_number, put_number};
use pk_base::{Shape, put_text};

/// Bytes of a step before the front of its page: two numbers of four bytes.
pub const STEP_BYTES: usize = 8;

/// The bit of a step's number that tells a block that is erased from a page; no flash has as many
/// pages.
pub const ERASES: u32 = 0x8000_0000;

/// A step that a log has.
#[derive(Clone, Copy, Debug, PartialEq, Eq)]
pub enum Step {
    /// A page is programmed. Its front has its place and its length in the log.
    Program { page: u32, at: usize, len: usize },
    Erase { block: u32 },
}

/// Writes the step that programs a page with this front. Answers where the next one goes.
pub fn put_program(batch: &mut [u8], at: usize, shape: &Shape, page: u32, front: &[u8]) -> usize
    requires exists { page < spec.page_count shape.now }
    requires short { length front.now ≤ shape.now.page_bytes }
    requires fits { at + STEP_BYTES + length front.now ≤ length batch.old }
    ensures next { result ≡ at + STEP_BYTES + length front.now }
    ensures len { length batch.new ≡ length batch.old }
    // The steps that were read before this place are read, and this one follows.
    ensures read { (from : ℕ) (marks : List Mark) → AreSteps shape.now batch.old from marks at
        → AreSteps shape.now batch.new from
        (marks ++ (program page (padded shape.now.page_bytes front.now) ∷ [])) result }
{
    shape.known();
    put_number(batch, at, page);
    put_number(batch, at + 4, front.len() as u32);
    put_text(batch, at + STEP_BYTES, front);
    at + STEP_BYTES + front.len()
}

/// Writes the step that erases a block. Answers where the next one goes.
pub fn put_erase(batch: &mut [u8], at: usize, shape: &Shape, block: u32) -> usize
    requires exists { block < shape.now.blocks }
    requires fits { at + STEP_BYTES ≤ length batch.old }
    ensures next { result ≡ at + STEP_BYTES }
    ensures len { length batch.new ≡ length batch.old }
    ensures read { (from : ℕ) (marks : List Mark) → AreSteps shape.now batch.old from marks at
        → AreSteps shape.now batch.new from (marks ++ (erase block ∷ [])) result }
{
    shape.known();
    put_number(batch, at, ERASES + block);
    put_number(batch, at + 4, 0);
    at + STEP_BYTES
}

/// Whether a step may have these two numbers.
fn can_be(shape: &Shape, number: u32, len: u32) -> bool
    ensures { IsTrue result ↔ CanBeStep shape.now number len }
{
    if number < ERASES {
        number < shape.page_count() && len <= shape.page_bytes()
    } else {
        number - ERASES < shape.blocks() && len == 0
    }
}

/// The step with these numbers, whose front is at a place.
fn step_of(number: u32, at: usize, len: u32) -> Step
    ensures { (shape : spec.Shape) (log : List ℕ)
        → step_mark shape log result ≡ mark_of_numbers shape log number at len }
{
    if number < ERASES {
        Step::Program {
            page: number,
            at,
            len: len as usize,
        }
    } else {
        Step::Erase {
            block: number - ERASES,
        }
    }
}

/// The step at a place, if one is there, and where the next one would be.
pub(crate) fn step_at(shape: &Shape, log: &[u8], at: usize) -> Option<(Step, usize)>
    requires { at < 2 ^ 63 }
    ensures { MatchOption result (¬ IsStep shape.now log.now at)
        (λ it. IsStep shape.now log.now at
        × (step_mark shape.now log.now it.0 ≡ mark_at shape.now log.now at)
        × (it.1 ≡ after_step log.now at)) }
{
    if log.len() < at + STEP_BYTES {
        return None;
    }
    let number = get_number(log, at);
    let len = get_number(log, at + 4);
    if !can_be(shape, number, len) || log.len() - at - STEP_BYTES < len as usize {
        return None;
    }
    let front = at + STEP_BYTES;
    Some((step_of(number, front, len), front + len as usize))
}
