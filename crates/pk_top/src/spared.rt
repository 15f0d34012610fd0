//! A run over a board with spare blocks.
ghost use Rattle.std.specs.Prelude.{◌≡◌, ◌⊎◌, ◌≤◌, None, Some, true, IsSome, IfSome, map};
ghost use Rattle.pk_base.specs.Shape.{Shape};
ghost use Rattle.pk_remap.specs.declared.layout.TheConstants.{MOST_SPARES};
ghost use Rattle.pk_remap.specs.Remapped.{fresh_remap};
ghost use Rattle.pk_remap.specs.Loading.{HoldsOuter};
ghost use Rattle.pk_top.specs.declared.status.TheConstants.Status.{WORDS, MEMORY};
ghost use Rattle.pk_top.specs.Runs.{RunsOver};
ghost use Rattle.pk_top.specs.Words as spec;
ghost use Rattle.pk_top.specs.Spared.{SparedForm, spared_form, fits_spares_if};
ghost use Rattle.pk_top.specs.SparedRuns.{RunsOverLoaded};

use crate::making::of_load_fault;
use crate::running::run;
use crate::spared_words::spared_words;
use crate::status::Status;
use pk_nand::{Board, Nand};
use pk_remap::Remap;
use std::alloc::Global;

/// Loads the image, and runs the words over the flash that it shows. A word that needs a drive ends by the refusal of a load that is refused.
fn run_loaded<B: Board>(
    alloc: Global,
    spares: u16,
    words: &[&str],
    remap: &mut Remap<B>,
    log: usize,
) -> Status
    requires fits { fits_spares_if spares (spec.word_of (map (λ w. w.now) words.now)) ≡ true }
    requires spares { remap.old.work.spares ≡ spares }
    requires fresh { ⟦<Remap<B> as Nand>⟧.state remap.old
        ≡ fresh_remap log (B.state remap.old.inner) }
    ensures runs { RunsOver (map (λ w. w.now) words.now) (⟦<Remap<B> as Nand>⟧.state remap.old)
        (⟦<Remap<B> as Nand>⟧.state remap.new) result.0 }
    ensures opened { (shape : Shape) → HoldsOuter spares shape (B.state remap.old.inner)
        → RunsOverLoaded (map (λ w. w.now) words.now) log spares shape (B.state remap.old.inner)
        (⟦<Remap<B> as Nand>⟧.state remap.new) (B.state remap.new.inner) result.0 }
{
    match remap.load(alloc) {
        Ok(_) => run(alloc, words, remap),
        Err(fault) => of_load_fault(fault),
    }
}

/// Runs words over this board with spare blocks. Without memory for them the board is dropped.
fn run_over<B: Board + Drop>(
    alloc: Global,
    spares: u16,
    words: &[&str],
    board: B,
    log: usize,
) -> (Status, Option<Remap<B>>)
    requires some { 1 ≤ spares }
    requires few { spares ≤ MOST_SPARES }
    requires fits { fits_spares_if spares (spec.word_of (map (λ w. w.now) words.now)) ≡ true }
    ensures none { result.1 ≡ None → result.0.0 ≡ MEMORY.0 }
    ensures runs { IfSome result.1 (λ r. RunsOver (map (λ w. w.now) words.now)
        (fresh_remap log (B.state board)) (⟦<Remap<B> as Nand>⟧.state r) result.0.0) }
    ensures opened { (shape : Shape) → HoldsOuter spares shape (B.state board)
        → IfSome result.1 (λ r. RunsOverLoaded (map (λ w. w.now) words.now) log spares shape
        (B.state board) (⟦<Remap<B> as Nand>⟧.state r) (B.state r.inner) result.0.0) }
{
    match Remap::new(alloc, board, spares, log) {
        Ok(remap) => {
            let mut remap = remap;
            let status = run_loaded(alloc, spares, words, &mut remap, log);
            (status, Some(remap))
        }
        Err(_) => (Status::MEMORY, None),
    }
}

/// Does what words of the form `spared S WORDS..` ask for, over a board with S spare blocks, and gives this board back. There is none
/// exactly if the words are refused, or the memory for it is missing; the board is dropped then, with no call made of it.
pub fn run_spared<B: Board + Drop>(
    alloc: Global,
    words: &[&str],
    board: B,
    log: usize,
) -> (Status, Option<Remap<B>>)
    // The words, and the memory for the board.
    ensures refused { spared_form (map (λ w. w.now) words.now) ≡ None
        → (result.0.0 ≡ WORDS.0) × (result.1 ≡ None) }
    ensures memory { result.1 ≡ None → IsSome (spared_form (map (λ w. w.now) words.now))
        → result.0.0 ≡ MEMORY.0 }

    // What `run` promises, from the board before its first call on.
    ensures runs { (form : SparedForm) → spared_form (map (λ w. w.now) words.now) ≡ Some form
        → IfSome result.1 (λ r. RunsOver form.rest (fresh_remap log (B.state board))
        (⟦<Remap<B> as Nand>⟧.state r) result.0.0) }

    // What it promises of the pages of the board that was passed in, if they hold an outer flash.
    ensures opened { (form : SparedForm) → spared_form (map (λ w. w.now) words.now) ≡ Some form
        → (shape : Shape) → HoldsOuter form.spares shape (B.state board)
        → IfSome result.1 (λ r. RunsOverLoaded form.rest log form.spares shape (B.state board)
        (⟦<Remap<B> as Nand>⟧.state r) (B.state r.inner) result.0.0) }
{
    match spared_words(words) {
        Some(asked) => run_over(alloc, asked.spares, asked.rest, board, log),
        None => (Status::WORDS, None),
    }
}
