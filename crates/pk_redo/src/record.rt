//! The record with which a log begins. It ties the log to its image: a log of another image is not
//! put over this one.
ghost use Rattle.std.specs.Prelude.{◌≡◌, ◌⊎◌, ◌+◌, ◌-◌, ◌*◌, ◌/◌, ◌%◌, ◌^◌, ◌<◌, ◌≤◌, ◌↔◌, ℕ, List, [], length, take, drop, slice_index, get_or, true, false, IsTrue, IfOk};
ghost use Rattle.pk_base.specs.Shape as spec;
ghost use Rattle.pk_base.specs.Mark.{Mark};
ghost use Rattle.pk_image.specs.Header.{header_bytes};
ghost use Rattle.pk_redo.specs.Log.{IsSealed};
ghost use Rattle.pk_redo.specs.Steps.{SetBy, Sets, step_mark, step_marks};
ghost use Rattle.pk_redo.specs.Record.{RecordFits, record_size, state_in, said};

use crate::batch::{BATCH_HEAD, seal};
use crate::step::Step;
use pk_base::{Shape, put_text};
use pk_image::{HEADER_BYTES, PageTag, header};
use std::alloc::{AllocError, Global};

/// The length in bytes of a record, without the head of its batch.
pub fn record_len(shape: &Shape) -> usize
    ensures { result ≡ record_size shape.now }
{
    HEADER_BYTES + shape.page_count() as usize / 4
}

/// The state that a state byte says; one that no state has counts as that of a Torn page.
fn said_by(byte: u8) -> u8
    ensures value { result ≡ said byte }
    ensures small { result < 4 }
{
    let torn = PageTag::Torn.byte();
    if byte < torn { byte } else { torn }
}

/// The states of four pages from this one on, as one byte.
fn packed(states: &[u8], first: usize) -> u8
    requires { first + 4 ≤ length states.now }
    ensures { result ≡ said (slice_index states.now first)
        + 4 * said (slice_index states.now (first + 1))
        + 16 * said (slice_index states.now (first + 2))
        + 64 * said (slice_index states.now (first + 3)) }
{
    said_by(states[first])
        + 4 * said_by(states[first + 1])
        + 16 * said_by(states[first + 2])
        + 64 * said_by(states[first + 3])
}

/// Writes the states of pages from a place on, four in a byte.
fn put_table(batch: &mut [u8], at: usize, states: &[u8])
    requires whole { length states.now % 4 ≡ 0 }
    requires fits { at + length states.now / 4 ≤ length batch.old }
    ensures table { (k : ℕ) → k < length states.now
        → state_in batch.new at k ≡ said (slice_index states.now k) }
    ensures before { (i : ℕ) → i < at → slice_index batch.new i ≡ slice_index batch.old i }
    ensures len { length batch.new ≡ length batch.old }
{
    for i in 0..states.len() / 4 {
        batch[at + i] = packed(states, 4 * i);
    }
}

/// Makes the batch with which the log of an image begins, of the state bytes of its pages.
pub fn put_record(batch: &mut [u8], shape: &Shape, states: &[u8])
    requires room { length batch.old ≡ BATCH_HEAD + record_size shape.now }
    requires states { length states.now ≡ spec.page_count shape.now }
    ensures sealed { IsSealed batch.new }
    ensures record { RecordFits shape.now (drop BATCH_HEAD batch.new) (header_bytes shape.now)
        (λ k. said (slice_index states.now k)) [] }
{
    shape.known();
    put_text(batch, BATCH_HEAD, &header(shape));
    put_table(batch, BATCH_HEAD + HEADER_BYTES, states);
    seal(batch);
}

/// The state of a page in a record.
fn state_at_page(bytes: &[u8], page: usize) -> u8
    requires { HEADER_BYTES + page / 4 < length bytes.now }
    ensures { result ≡ state_in bytes.now HEADER_BYTES page }
{
    let byte = bytes[HEADER_BYTES + page / 4];
    let place = page % 4;
    if place == 0 {
        return byte % 4;
    }
    if place == 1 {
        return byte / 4 % 4;
    }
    if place == 2 {
        return byte / 16 % 4;
    }
    byte / 64
}

/// Pages that stand in a row are among those that steps set; there may be none of these numbers.
pub(crate) fn note_row(set: &mut Vec<bool>, first: usize, count: usize)
    requires { first + count < 2 ^ 63 }
    ensures inside { (k : ℕ) → first ≤ k → k < first + count → k < length set.old.items
        → get_or set.new.items k false ≡ true }
    ensures outside { (k : ℕ) → (k < first) ⊎ (first + count ≤ k)
        → get_or set.new.items k false ≡ get_or set.old.items k false }
    ensures len { length set.new.items ≡ length set.old.items }
{
    let end = (first + count).min(set.len());
    for page in first..end {
        set[page] = true;
    }
}

/// Whether a page is among those that are set.
pub(crate) fn is_set(set: &Vec<bool>, page: u32) -> bool
    requires { page < length set.now.items }
    ensures { result ≡ get_or set.now.items page false }
{
    set[page as usize]
}

/// No page is among those that steps set.
pub(crate) fn clear_pages(set: &mut Vec<bool>)
    ensures none { (k : ℕ) → get_or set.new.items k false ≡ false }
    ensures len { length set.new.items ≡ length set.old.items }
{
    set.as_mut_slice().fill(false);
}

/// The pages that a step sets are among those that steps set.
fn note_step(set: &mut Vec<bool>, shape: &Shape, step: &Step)
    requires { length set.old.items ≡ spec.page_count shape.now }
    ensures set { (log : List ℕ) (k : ℕ) → k < spec.page_count shape.now
        → (get_or set.new.items k false ≡ true)
        ↔ ((get_or set.old.items k false ≡ true)
        ⊎ SetBy shape.now (step_mark shape.now log step.now) k) }
    ensures len { length set.new.items ≡ length set.old.items }
{
    match step {
        Step::Program { page, .. } => note_row(set, *page as usize, 1),
        Step::Erase { block } => {
            let count = shape.block_pages() as usize;
            note_row(set, *block as usize * count, count);
        }
    }
}

/// Which pages the steps of a log set. What the image has there does not matter.
pub fn set_pages(alloc: Global, shape: &Shape, steps: &[Step]) -> Result<Vec<bool>, AllocError>
    ensures set { IfOk result (λ v. (log : List ℕ) (k : ℕ) → k < spec.page_count shape.now
        → (get_or v.items k false ≡ true) ↔ Sets shape.now (step_marks shape.now log steps.now) k) }
    ensures len { IfOk result (λ v. length v.items ≡ spec.page_count shape.now) }
{
    let mut set = Vec::from_elem(alloc, false, shape.page_count() as usize)?;
    for i in 0..steps.len() {
        note_step(&mut set, shape, &steps[i]);
    }
    Ok(set)
}

/// Whether a record begins with this header.
fn has_header(bytes: &[u8], header: &[u8]) -> bool
    requires { HEADER_BYTES ≤ length bytes.now }
    ensures { IsTrue result ↔ (take HEADER_BYTES bytes.now ≡ header.now) }
{
    &bytes[..HEADER_BYTES] == header
}

/// Whether a record is of an image with this header and these state bytes, but for pages that steps
/// set.
pub fn is_record_of(shape: &Shape, bytes: &[u8], header: &[u8], states: &[u8], set: &[bool]) -> bool
    requires header { length header.now ≡ HEADER_BYTES }
    requires states { length states.now ≡ spec.page_count shape.now }
    requires set { length set.now ≡ spec.page_count shape.now }
    ensures { (marks : List Mark) → ((k : ℕ) → k < spec.page_count shape.now
        → (get_or set.now k false ≡ true) ↔ Sets shape.now marks k)
        → IsTrue result ↔ RecordFits shape.now bytes.now header.now
        (λ k. said (slice_index states.now k)) marks }
{
    shape.known();
    if bytes.len() != record_len(shape) || !has_header(bytes, header) {
        return false;
    }
    for k in 0..states.len() {
        if !set[k] && said_by(states[k]) != state_at_page(bytes, k) {
            return false;
        }
    }
    true
}
