//! The program: serves a key-value drive in an image file, over standard input and output.
#![tactic(auto)]

use pk_file::{DiskFile, EndFault, FileBoard, Keeping, OpenDisk, Unknown, Wary};
use pk_top::{Status, run, run_pair, run_spared};
use std::env;
use std::env::VarError;
use std::io::ErrorKind;
use std::process::ExitCode;

/// The word before the paths of a pair of images; no image is named so.
const PAIR: &str = "mirror";
/// The word after the path of an image that has spare blocks.
const SPARED: &str = "spared";
/// The word before the frames of a run that serves commands.
const SERVE: &str = "serve";

/// The words after the program's name; the status if they cannot be had.
fn words_of(rt: &HostRuntime) -> Result<Vec<String>, Status> {
    let mut words = Vec::new(rt.alloc());
    let args = match env::args(rt) {
        Ok(args) => args,
        Err(e) if e.kind() == ErrorKind::OutOfMemory => return Err(Status::MEMORY),
        Err(_) => return Err(Status::WORDS),
    };
    for arg in args.skip(1) {
        if words.push(arg).is_err() {
            return Err(Status::MEMORY);
        }
    }
    Ok(words)
}

/// When a change is on the disk: what `PINK_SYNC` in the environment asks for.
#[derive(Clone, Copy, Debug, PartialEq, Eq)]
enum Syncs {
    /// When the system likes.
    None,
    /// Before its answer leaves, by one sync.
    Once,
    /// Before its answer leaves, by two syncs, so that no premise on torn writes is needed.
    Twice,
}

impl Syncs {
    /// What the environment asks for; `Once` if that is not known.
    fn wanted(rt: &HostRuntime) -> Syncs {
        match env::var(rt, "PINK_SYNC") {
            Ok(value) if value.as_str() == "0" => Syncs::None,
            Ok(value) if value.as_str() == "2" => Syncs::Twice,
            Ok(_) => Syncs::Once,
            Err(VarError::NotPresent) => Syncs::None,
            Err(_) => Syncs::Once,
        }
    }

    /// How an image is kept whose texts leave after its changes. A run that serves has a log from
    /// its opening on.
    fn gathered(self, words: &[&str]) -> Keeping {
        let is_made_ahead = matches!(words.first(), Some(word) if *word == SERVE);
        match self {
            Syncs::None => Keeping::Rows,
            Syncs::Once => Keeping::Log {
                from_the_first: false,
                is_made_ahead,
            },
            Syncs::Twice => Keeping::Log {
                from_the_first: true,
                is_made_ahead,
            },
        }
    }

    /// How an image is kept each of whose changes is written at once.
    fn direct(self) -> Keeping {
        Keeping::Direct {
            is_durable: self != Syncs::None,
        }
    }
}

/// The status of a run that ended so. If what was posted last could not be written, or its pages
/// could not be brought to the flash, that came before whatever ended the run.
fn ended(status: Status, end: Result<(), EndFault>) -> Status {
    match end {
        Ok(()) => status,
        Err(EndFault::Flash) => Status::FLASH,
        Err(EndFault::Output) => Status::OUTPUT,
        Err(EndFault::Log) => Status::FLASH,
    }
}

/// Does over the image file of this path what the other words ask for.
fn run_on<D: OpenDisk>(rt: &HostRuntime, image: &str, words: &[&str], syncs: Syncs) -> Status {
    let mut board = FileBoard::<D>::with(rt, image, syncs.gathered(words));
    let status = run(rt.alloc(), words, &mut board);
    ended(status, board.finish())
}

/// Does over the image file of this path, which has spare blocks, what these words ask for; the
/// first of them says so. A block is moved when a program of it fails, so each page is written by
/// its program.
fn run_on_spared<D: OpenDisk>(
    rt: &HostRuntime,
    image: &str,
    words: &[&str],
    syncs: Syncs,
) -> Status {
    let board = FileBoard::<D>::with(rt, image, syncs.direct());
    let (status, remap) = run_spared(rt.alloc(), words, board, 0);
    match remap {
        Some(remap) => {
            let mut board = remap.into_inner();
            ended(status, board.finish())
        }
        None => status,
    }
}

/// Does over the image file of this path what the other words ask for.
fn run_on_one<D: OpenDisk>(rt: &HostRuntime, image: &str, words: &[&str], syncs: Syncs) -> Status {
    match words.first() {
        Some(word) if *word == SPARED => run_on_spared::<D>(rt, image, words, syncs),
        _ => run_on::<D>(rt, image, words, syncs),
    }
}

/// Does over the two image files of these paths what the other words ask for. Texts go out over the
/// first, so nothing would make the pages of the second leave before an answer: each is written by
/// its program.
fn run_on_pair<D: OpenDisk>(
    rt: &HostRuntime,
    image: &str,
    other: &str,
    words: &[&str],
    syncs: Syncs,
) -> Status {
    if image == other || image == PAIR || other == PAIR {
        return Status::WORDS;
    }
    let mut first = FileBoard::<D>::with(rt, image, syncs.gathered(words));
    let mut second = FileBoard::<D>::with(rt, other, syncs.direct());
    let status = run_pair(rt.alloc(), words, &mut first, &mut second);
    let status = ended(status, second.finish());
    ended(status, first.finish())
}

/// Does what the words ask for: of a pair, after its name and the paths of both image files; else
/// after the path of one.
fn obey_texts<D: OpenDisk>(rt: &HostRuntime, words: &[&str], syncs: Syncs) -> Status {
    match words.split_first() {
        Some((image, rest)) if *image == PAIR => match rest.split_first() {
            Some((first, rest)) => match rest.split_first() {
                Some((second, rest)) => run_on_pair::<D>(rt, first, second, rest, syncs),
                None => Status::WORDS,
            },
            None => Status::WORDS,
        },
        Some((image, rest)) => run_on_one::<D>(rt, image, rest, syncs),
        None => Status::WORDS,
    }
}

/// The same of texts that are owned.
fn obey(rt: &HostRuntime, words: &[String]) -> Status {
    let mut texts = Vec::new(rt.alloc());
    for word in words {
        if texts.push(word.as_str()).is_err() {
            return Status::MEMORY;
        }
    }
    match Syncs::wanted(rt) {
        Syncs::Twice => obey_texts::<DiskFile<Wary>>(rt, texts.as_slice(), Syncs::Twice),
        syncs => obey_texts::<DiskFile<Unknown>>(rt, texts.as_slice(), syncs),
    }
}

fn main(rt: HostRuntime) -> ExitCode {
    let status = match words_of(&rt) {
        Ok(words) => obey(&rt, &words),
        Err(status) => status,
    };
    ExitCode::from(status.0)
}
