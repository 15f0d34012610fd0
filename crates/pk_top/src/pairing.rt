//! The words that ask a pair of drives, on two images.
ghost use Rattle.std.specs.Prelude.{◌≡◌, ◌≢◌, ◌⊎◌, ◌==◌, None, Some, Ok, false, map, IfOk, IfErr, MatchBool};
ghost use Rattle.pk_base.specs.Map.{Map};
ghost use Rattle.pk_base.specs.Page.{Flash};
ghost use Rattle.pk_base.specs.Shape.{Shape as Form};
ghost use Rattle.pk_call.specs.Sight.{map_of};
ghost use Rattle.pk_nand.specs.Calls.{IsReady, Loaded};
ghost use Rattle.pk_mirrorrun.specs.PairTold.{first_limit as limit_by};
ghost use Rattle.pk_mirrorwords.specs.PairTasks.{PairTask as Asked, seen, IsAllowed};
ghost use Rattle.pk_top.specs.PairWords as spec;
ghost use Rattle.pk_top.specs.PairRuns.{NotFound, AsksPair, PairRun, PairRefused, PairTells, PairWhole};
ghost use Rattle.pk_top.specs.declared.status.TheConstants.Status.{WORDS, MEMORY};

use crate::asking::{WORD_FRAMES, of_word_end};
use crate::making::of_load_fault;
use crate::pair_words::pair_task_of;
use crate::serving::of_open_error;
use crate::status::Status;
use pk_base::Shape;
use pk_core::Drive;
use pk_drive::Engine;
use pk_mirrorrun::PairSpeaker;
use pk_mirrorwords::PairTask;
use pk_model::laws::held_map;
use pk_nand::Board;
use std::alloc::Global;

/// Does what the words ask for on the drives of two images that are used as one. Texts are posted on the first board.
///
/// The status is `WORDS` exactly where the words ask for nothing of the table of a pair, or `MEMORY` where the memory for a value
/// among them is missing.
pub fn run_pair<B: Board, C: Board>(
    alloc: Global,
    words: &[&str],
    first: &mut B,
    second: &mut C,
) -> Status
    // The words, the status and its cause.
    ensures words { result.0 ≡ WORDS.0 → (spec.pair_task_of (map (λ w. w.now) words.now) ≡ None)
        × (B.state first.new ≡ B.state first.old) × (C.state second.new ≡ C.state second.old) }
    ensures no_words { spec.pair_task_of (map (λ w. w.now) words.now) ≡ None
        → (B.state first.new ≡ B.state first.old) × (C.state second.new ≡ C.state second.old)
        × ((result.0 ≡ WORDS.0) ⊎ (result.0 ≡ MEMORY.0)) }
    ensures tells { (result.0 ≡ WORDS.0) ⊎ PairTells (B.state first.old) (B.state first.new)
        (C.state second.old) (C.state second.new) result.0 }
    ensures no_pair { (task : Asked) → spec.pair_task_of (map (λ w. w.now) words.now) ≡ Some task
        → PairRefused (B.state first.old) (C.state second.old) result.0 }

    // What is kept, and what is said.
    ensures runs { (task : Asked) → spec.pair_task_of (map (λ w. w.now) words.now) ≡ Some task
        → PairRun task (B.state first.old) (B.state first.new) (C.state second.old)
        (C.state second.new) result.0 }
    ensures whole { (task : Asked) → spec.pair_task_of (map (λ w. w.now) words.now) ≡ Some task
        → PairWhole task (B.state first.old) (B.state first.new) (C.state second.old)
        (C.state second.new) result.0 }
{
    match pair_task_of(alloc, words) {
        Ok(Some(task)) => ask_pair(alloc, task, first, second),
        Ok(None) => Status::WORDS,
        Err(_) => Status::MEMORY,
    }
}

/// Loads the image of a board; the status where there is none.
fn load<B: Board>(alloc: Global, board: &mut B) -> Result<Shape, Status>
    ensures found { IfOk result (λ shape.
        Loaded (B.state board.old) (B.state board.new) (Some shape)) }
    ensures ready { IfOk result (λ shape. IsReady (B.state board.new) shape) }
    ensures not_found { IfErr result (λ status.
        NotFound (B.state board.old) (B.state board.new) status.0) }
{
    match board.load(alloc) {
        Ok(Some(shape)) => Ok(shape),
        Ok(None) => Err(Status::NO_DRIVE),
        Err(fault) => Err(of_load_fault(fault)),
    }
}

/// Both shapes have the same numbers.
fn is_same(one: Shape, two: Shape) -> bool
    ensures { MatchBool result (one ≡ two) (one ≢ two) }
{
    one.page_bytes() == two.page_bytes()
        && one.block_pages() == two.block_pages()
        && one.blocks() == two.blocks()
}

/// The limit of the first namespace of a drive, in pages.
fn first_limit<D: Engine>(drive: &D) -> u32
    ensures { (shape : Form) → (flash : Flash) → (m : Map) → D.agrees drive.now (Some shape) flash
        → (D.sight drive.now).stopped ≡ false → map_of shape flash (D.sight drive.now) ≡ Ok m
        → result ≡ limit_by shape flash }
{
    // so that the first namespace is known to be there
    let _ = drive.spaces();
    drive.counts(1).limit
}

/// The limits of the first namespaces of two drives are the same.
fn has_one_limit<D: Engine, E: Engine>(one: &D, two: &E) -> bool
    ensures { (shape : Form) → (flash other : Flash) → (m n : Map)
        → D.agrees one.now (Some shape) flash → (D.sight one.now).stopped ≡ false
        → map_of shape flash (D.sight one.now) ≡ Ok m
        → E.agrees two.now (Some shape) other → (E.sight two.now).stopped ≡ false
        → map_of shape other (E.sight two.now) ≡ Ok n
        → result ≡ (limit_by shape flash == limit_by shape other) }
{
    first_limit(one) == first_limit(two)
}

/// Opens the drives of both images and does what a word asks of them, if their first namespaces have
/// one limit.
fn ask_images<B: Board, C: Board>(
    alloc: Global,
    shape: Shape,
    task: PairTask,
    first: &mut B,
    second: &mut C,
) -> Status
    requires first { IsReady (B.state first.old) shape }
    requires second { IsReady (C.state second.old) shape }
    requires allowed { IsAllowed (seen task) }
    ensures { AsksPair (seen task) shape (B.state first.old) (B.state first.new)
        (C.state second.old) (C.state second.new) result.0 }
{
    shape.known();
    held_map();
    let Ok(speaker) = PairSpeaker::new(alloc, shape) else {
        return Status::MEMORY;
    };
    match Drive::open(alloc, first, shape, WORD_FRAMES) {
        Ok(mut one) => match Drive::open(alloc, second, shape, WORD_FRAMES) {
            Ok(mut two) => {
                if !has_one_limit(&one, &two) {
                    return Status::NO_DRIVE;
                }
                of_word_end(speaker.run(&mut one, first, &mut two, second, task))
            }
            Err(error) => of_open_error(error),
        },
        Err(error) => of_open_error(error),
    }
}

/// Asks the drives of the two images that are found.
fn ask_pair<B: Board, C: Board>(
    alloc: Global,
    task: PairTask,
    first: &mut B,
    second: &mut C,
) -> Status
    requires { IsAllowed (seen task) }
    ensures { PairRun (seen task) (B.state first.old) (B.state first.new) (C.state second.old)
        (C.state second.new) result.0 }
{
    match load(alloc, first) {
        Ok(one) => match load(alloc, second) {
            Ok(two) => {
                if is_same(one, two) {
                    ask_images(alloc, one, task, first, second)
                } else {
                    Status::NO_DRIVE
                }
            }
            Err(status) => status,
        },
        Err(status) => status,
    }
}
