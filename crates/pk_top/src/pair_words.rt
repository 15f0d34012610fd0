//! The words for a pair of images.
ghost use Rattle.std.specs.Prelude.{◌≡◌, IfOk, map, option_map};
ghost use Rattle.pk_mirrorwords.specs.PairTasks.{seen as seen_task};
ghost use Rattle.pk_top.specs.PairWords as spec;
ghost use Rattle.pk_top.specs.Texts.{seen};

use crate::word::Word;
use crate::words::{is, word_of};
use pk_mirrorwords::PairTask;
use pk_wordrun::Task;
use pk_words::Question;
use std::alloc::{AllocError, Global};

/// What a word of a drive asks of a pair; nothing where it is none for a pair.
fn for_pair(word: Word) -> Option<PairTask>
    ensures { option_map seen_task result ≡ spec.for_pair (seen word) }
{
    match word {
        Word::Ask(Task::Answer(Question::Put(key, value))) => Some(PairTask::Put(key, value)),
        Word::Ask(Task::Answer(Question::Get(key))) => Some(PairTask::Get(key)),
        Word::Ask(Task::Answer(Question::Delete(key))) => Some(PairTask::Delete(key)),
        Word::Ask(Task::List(None)) => Some(PairTask::List),
        _ => None,
    }
}

/// The word `resync` and no other.
fn is_resync(words: &[&str]) -> bool
    ensures { result ≡ spec.is_resync (map (λ w. w.now) words.now) }
{
    match words {
        [name] => is(name.as_bytes(), b"resync"),
        _ => false,
    }
}

/// What the words ask of a pair; nothing where they are none of the table. An error where the memory for a value is missing.
pub fn pair_task_of(alloc: Global, words: &[&str]) -> Result<Option<PairTask>, AllocError>
    ensures { IfOk result (λ t. option_map seen_task t
        ≡ spec.pair_task_of (map (λ w. w.now) words.now)) }
{
    if is_resync(words) {
        return Ok(Some(PairTask::Resync));
    }
    match word_of(alloc, words)? {
        Some(word) => Ok(for_pair(word)),
        None => Ok(None),
    }
}
