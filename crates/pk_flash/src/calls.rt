//! What calls do to the pages, the trail and the posted bytes of a board in memory.
ghost use Rattle.std.specs.Prelude.{◌≡◌, ◌≤◌, ◌<◌, ◌+◌, ◌++◌, ◌∷◌, ◌^◌, [], length, Some, IsSome, OnOk, OnErr, IfErr, vec_capacity, slice_set, option_copied};
ghost use Rattle.pk_base.specs.Page.{whole, IsPage, IsFlash};
ghost use Rattle.pk_base.specs.Mark.{program, erase, post, after};
ghost use Rattle.pk_nand.specs.BoardState.{shape_or_none};
ghost use Rattle.pk_nand.specs.Calls.{counted, LeftBehind};
ghost use Rattle.pk_nand.specs.Operations.{PostLeft, SentFront};
ghost use Rattle.pk_nand.specs.Seen.{states, marks as seen_marks};
ghost use Rattle.pk_flash.specs.Exact.{ActsBy, PostsBy, part as part_of};

use crate::pages::{block_pages_of, choose_row, is_second, leave_program};
use crate::trail::Trail;
use crate::types::Left;
use pk_base::Shape;
use pk_nand::{HostFault, Mark, NandFault, PageState, raise};
use std::alloc::Global;

/// Counts a program or an erase that failed.
pub fn count_stop(flash_faults: &mut u64, stop_faults: &mut u64)
    ensures flash { flash_faults.new ≡ counted flash_faults.old }
    ensures stop { stop_faults.new ≡ counted stop_faults.old }
{
    raise(flash_faults);
    raise(stop_faults);
}

/// Programs a page, or fails and leaves what `left` says.
pub fn program_page(
    shape: &Option<Shape>,
    pages: &mut Vec<PageState>,
    trail: &mut Trail,
    at: u32,
    bytes: &[u8],
    left: Option<&Left>,
) -> Result<(), NandFault>
    requires { length bytes.now ≡ trail.old.page_bytes }

    // Exactly what is done, or left by a call that fails.
    ensures exact { ActsBy (shape_or_none shape.now) (program at bytes.now) trail.old.room
        (option_copied left.entry) (states pages.old.items) (states pages.new.items)
        (seen_marks trail.old.marks.items) (seen_marks trail.new.marks.items) result }

    // So the whole effect, or a part of it as a cut may leave it.
    ensures pages { OnOk result
        (states pages.new.items ≡ slice_set (states pages.old.items) at (whole bytes.now)) }
    ensures marks { OnOk result (seen_marks trail.new.marks.items
        ≡ seen_marks trail.old.marks.items ++ program at bytes.now ∷ []) }
    ensures flash { IsPage (shape_or_none shape.now) bytes.now
        → IsFlash (shape_or_none shape.now) (states pages.old.items)
        → IsFlash (shape_or_none shape.now) (states pages.new.items) }
    ensures left { OnErr result (LeftBehind (shape_or_none shape.now) (program at bytes.now)
        (states pages.old.items) (states pages.new.items) (Some (seen_marks trail.old.marks.items))
        (Some (seen_marks trail.new.marks.items))) }

    // The trail keeps its room.
    ensures room { trail.new.room ≡ trail.old.room }
    ensures page_bytes { trail.new.page_bytes ≡ trail.old.page_bytes }
{
    if trail.is_full() {
        return Err(NandFault);
    }
    let own = trail.note_program(at, bytes);
    let second = is_second(block_pages_of(shape), at);
    leave_program(pages, at, own, left, second);
    match left {
        None => Ok(()),
        Some(_) => Err(NandFault),
    }
}

/// Erases a block, or fails and leaves what `left` says.
pub fn erase_block(
    shape: &Option<Shape>,
    pages: &mut Vec<PageState>,
    trail: &mut Trail,
    block: u32,
    left: Option<&Left>,
) -> Result<(), NandFault>
    requires { block < (shape_or_none shape.now).blocks }

    // Exactly what is done, or left by a call that fails.
    ensures exact { ActsBy (shape_or_none shape.now) (erase block) trail.old.room
        (option_copied left.entry) (states pages.old.items) (states pages.new.items)
        (seen_marks trail.old.marks.items) (seen_marks trail.new.marks.items) result }

    // So the whole effect, or a part of it as a cut may leave it.
    ensures pages { OnOk result (states pages.new.items
        ≡ after (shape_or_none shape.now) (erase block) (states pages.old.items)) }
    ensures marks { OnOk result
        (seen_marks trail.new.marks.items ≡ seen_marks trail.old.marks.items ++ erase block ∷ []) }
    ensures flash { IsFlash (shape_or_none shape.now) (states pages.old.items)
        → IsFlash (shape_or_none shape.now) (states pages.new.items) }
    ensures left { OnErr result (LeftBehind (shape_or_none shape.now) (erase block)
        (states pages.old.items) (states pages.new.items) (Some (seen_marks trail.old.marks.items))
        (Some (seen_marks trail.new.marks.items))) }

    // The trail keeps its room.
    ensures room { trail.new.room ≡ trail.old.room }
    ensures page_bytes { trail.new.page_bytes ≡ trail.old.page_bytes }
{
    if trail.is_full() {
        return Err(NandFault);
    }
    trail.note(Mark::Erase { block });
    let count = block_pages_of(shape) as usize;
    let first = block as usize * count;
    choose_row(pages, first, count, left);
    match left {
        None => Ok(()),
        Some(_) => Err(NandFault),
    }
}

// How many bytes a post sends. One that fails is planned by a count of 32 bits.
fn part(left: Option<&Left>, all: usize) -> usize
    ensures part { result ≡ part_of all (option_copied left.entry) }
    ensures within { result ≤ all }
    ensures bounded { IsSome left.entry → result < 2 ^ 32 }
{
    match left {
        None => all,
        Some(Left::Part(count)) => all.min(*count as usize),
        Some(_) => 0,
    }
}

/// Posts bytes, or fails and leaves what `left` says. More than a page of bytes take memory for
/// their mark; without it the call fails with nothing done.
pub fn post_bytes(
    alloc: Global,
    posted: &mut Vec<u8>,
    posted_room: usize,
    trail: &mut Trail,
    bytes: &[u8],
    left: Option<&Left>,
) -> Result<(), HostFault>
    requires { posted_room ≤ vec_capacity posted.old }

    // Exactly what is done, or left by a call that fails.
    ensures exact { PostsBy trail.old.page_bytes posted_room trail.old.room
        (option_copied left.entry) bytes.now posted.old.items posted.new.items
        (seen_marks trail.old.marks.items) (seen_marks trail.new.marks.items) result }

    // So the whole effect, or a part of it as a cut may leave it.
    ensures posted { OnOk result (posted.new.items ≡ posted.old.items ++ bytes.now) }
    ensures marks { OnOk result (seen_marks trail.new.marks.items
        ≡ seen_marks trail.old.marks.items ++ post bytes.now ∷ []) }
    ensures left { OnErr result (PostLeft bytes.now (Some posted.old.items) (Some posted.new.items)
        (Some (seen_marks trail.old.marks.items)) (Some (seen_marks trail.new.marks.items))) }
    ensures given { IfErr result (λ f. SentFront bytes.now f.given (Some posted.old.items)
        (Some posted.new.items) (Some (seen_marks trail.old.marks.items))
        (Some (seen_marks trail.new.marks.items))) }

    // The buffers keep their room.
    ensures holds { posted_room ≤ vec_capacity posted.new }
    ensures room { trail.new.room ≡ trail.old.room }
    ensures page_bytes { trail.new.page_bytes ≡ trail.old.page_bytes }
{
    let count = part(left, bytes.len());
    let out = &bytes[..count];
    if count > posted_room || posted.len() > posted_room - count || trail.is_full() {
        return Err(HostFault { given: 0 });
    }
    match trail.note_post(alloc, out) {
        Ok(()) => match posted.extend_from_slice(out) {
            Ok(()) => match left {
                None => Ok(()),
                Some(_) => Err(HostFault {
                    given: count as u32,
                }),
            },
            Err(_) => unreachable!(),
        },
        Err(_) => Err(HostFault { given: 0 }),
    }
}
