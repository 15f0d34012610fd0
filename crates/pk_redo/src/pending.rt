//! The batch in memory: steps that were done and are in no log yet.
ghost use Rattle.std.specs.Prelude.{◌≡◌, ◌≢◌, true, false, ◌+◌, ◌<◌, ◌≤◌, ◌↔◌, ℕ, List, [], ◌∷◌, ◌++◌, length, take, drop, IsTrue, IfOk, OnOk};
ghost use Rattle.pk_base.specs.Fields.{padded};
ghost use Rattle.pk_base.specs.Mark.{Mark, program, erase};
ghost use Rattle.pk_base.specs.Shape as spec;
ghost use Rattle.pk_redo.specs.declared.batch.TheConstants.{BATCH_HEAD, MOST_BATCH};
ghost use Rattle.pk_redo.specs.Log.{IsSealed};
ghost use Rattle.pk_redo.specs.Steps.{AreSteps, BodySays};

use crate::batch::{BATCH_HEAD, MOST_BATCH, seal};
use crate::step::{STEP_BYTES, put_erase, put_program};
use pk_base::Shape;
use std::alloc::{AllocError, Global};

/// Steps one after another, with room for the head of their batch before them.
#[derive(Drop)]
pub struct Pending {
    pub(crate) bytes: Vec<u8>,
    /// Bytes of the head and of the steps.
    pub(crate) filled: usize,
    ghost head: { BATCH_HEAD ≤ filled },
    ghost within: { filled ≤ length bytes.items },
    ghost short: { length bytes.items ≤ BATCH_HEAD + MOST_BATCH },
}

/// Makes the head of the batch that the first bytes are.
fn seal_front(bytes: &mut [u8], len: usize)
    requires long { BATCH_HEAD ≤ len }
    requires within { len ≤ length bytes.old }
    requires short { len ≤ BATCH_HEAD + MOST_BATCH }
    ensures sealed { IsSealed (take len bytes.new) }
    ensures body { drop BATCH_HEAD (take len bytes.new) ≡ drop BATCH_HEAD (take len bytes.old) }
    ensures len { length bytes.new ≡ length bytes.old }
{
    seal(&mut bytes[..len]);
}

impl Pending {
    /// No step, and the memory for this many bytes of them.
    pub fn new(alloc: Global, room: usize) -> Result<Pending, AllocError>
        requires { room ≤ MOST_BATCH }
        ensures { IfOk result (λ batch. (batch.filled ≡ BATCH_HEAD)
            × (length batch.bytes.items ≡ BATCH_HEAD + room)) }
    {
        Ok(Pending {
            bytes: Vec::from_elem(alloc, 0u8, BATCH_HEAD + room)?,
            filled: BATCH_HEAD,
        })
    }

    /// Whether it has no step.
    pub fn is_empty(&self) -> bool
        ensures yes { result ≡ true → self.now.filled ≡ BATCH_HEAD }
        ensures no { result ≡ false → self.now.filled ≢ BATCH_HEAD }
    {
        self.filled == BATCH_HEAD
    }

    /// Bytes of the head and of the steps.
    pub fn len(&self) -> usize
        ensures { result ≡ self.now.filled }
    {
        self.filled
    }

    /// Whether a step of this many bytes fits.
    pub fn has_room(&self, len: usize) -> bool
        ensures { IsTrue result ↔ (self.now.filled + len ≤ length self.now.bytes.items) }
    {
        len <= self.bytes.len() - self.filled
    }

    /// Adds the step that programs a page with this front.
    pub fn program(&mut self, shape: &Shape, page: u32, front: &[u8])
        requires exists { page < spec.page_count shape.now }
        requires short { length front.now ≤ shape.now.page_bytes }
        requires fits { self.old.filled + STEP_BYTES + length front.now
            ≤ length self.old.bytes.items }
        ensures filled { self.new.filled ≡ self.old.filled + STEP_BYTES + length front.now }
        ensures len { length self.new.bytes.items ≡ length self.old.bytes.items }
        ensures read { (marks : List Mark)
            → AreSteps shape.now self.old.bytes.items BATCH_HEAD marks self.old.filled
            → AreSteps shape.now self.new.bytes.items BATCH_HEAD
            (marks ++ (program page (padded shape.now.page_bytes front.now) ∷ []))
            self.new.filled }
    {
        self.filled = put_program(self.bytes.as_mut_slice(), self.filled, shape, page, front);
    }

    /// Adds the step that erases a block.
    pub fn erase(&mut self, shape: &Shape, block: u32)
        requires exists { block < shape.now.blocks }
        requires fits { self.old.filled + STEP_BYTES ≤ length self.old.bytes.items }
        ensures filled { self.new.filled ≡ self.old.filled + STEP_BYTES }
        ensures len { length self.new.bytes.items ≡ length self.old.bytes.items }
        ensures read { (marks : List Mark)
            → AreSteps shape.now self.old.bytes.items BATCH_HEAD marks self.old.filled
            → AreSteps shape.now self.new.bytes.items BATCH_HEAD
            (marks ++ (erase block ∷ [])) self.new.filled }
    {
        self.filled = put_erase(self.bytes.as_mut_slice(), self.filled, shape, block);
    }

    /// Makes the head of the batch.
    pub fn seal(&mut self)
        ensures sealed { IsSealed (take self.new.filled self.new.bytes.items) }
        ensures steps { (shape : spec.Shape) (marks : List Mark)
            → AreSteps shape self.old.bytes.items BATCH_HEAD marks self.old.filled
            → BodySays shape (drop BATCH_HEAD (take self.new.filled self.new.bytes.items)) marks }
        ensures filled { self.new.filled ≡ self.old.filled }
        ensures len { length self.new.bytes.items ≡ length self.old.bytes.items }
    {
        seal_front(self.bytes.as_mut_slice(), self.filled);
    }

    /// Its bytes.
    pub fn as_slice(&self) -> &[u8]
        ensures bytes { result.now ≡ take self.now.filled self.now.bytes.items }
        ensures len { length result.now ≡ self.now.filled }
    {
        &self.bytes.as_slice()[..self.filled]
    }

    /// Forgets the steps.
    pub fn clear(&mut self)
        ensures filled { self.new.filled ≡ BATCH_HEAD }
        ensures bytes { self.new.bytes ≡ self.old.bytes }
    {
        self.filled = BATCH_HEAD;
    }
}
