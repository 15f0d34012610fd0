//! What the words ask of a drive.

use pk_base::Key;
use pk_words::Question;

/// What a word asks of a drive.
#[derive(Drop)]
pub enum Task {
    /// The answer to a question.
    Answer(Question),
    /// The keys, from this one on or all.
    List(Option<Key>),
    /// The summary of a workload.
    Generate(Series),
}

/// Commands of a generated workload: the first n of those from a start.
#[derive(Clone, Copy, Debug)]
pub struct Series {
    /// What the generator starts from.
    pub start: u32,
    /// How many commands.
    pub count: u32,
}
