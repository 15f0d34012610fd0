//! What a loss of power may leave of a file, from what was synced and the changes since: by the extremes of what the model of a disk allows,
//! and at random.
ghost use Rattle.std.specs.Prelude.{◌≤◌};

use crate::medium::{Medium, Unsynced};
use crate::random::Random;
use sqlite_disk::Disk;
use std::alloc::{AllocError, Global};

/// What remains of the changes before the last one.
#[derive(Clone, Copy, PartialEq, Eq)]
pub enum Earlier {
    Kept,
    Lost,
    /// Each byte that may be any is neither the old nor the new one.
    Spoiled,
}

/// How much of what was not synced remains.
#[derive(Clone, Copy, PartialEq, Eq)]
pub enum Remains {
    /// Nothing.
    Synced,
    /// All of it.
    Whole,
    /// This change alone: the disk has made it before the others.
    Only(usize),
    /// All but this one.
    AllBut(usize),
    /// Of the last one only this many bytes.
    Begun(Earlier, usize),
    /// Of the last one only the bytes from this one on.
    Ended(Earlier, usize),
    /// Each byte that may be any is neither the old nor the new one.
    Spoiled,
    /// All, but each byte that may be any and is not 0 is another one that is not 0.
    Foreign,
    /// All, but this byte of the last one is neither, whether it may be or not.
    ByteSpoiled(usize),
    /// What a sequence of numbers says that begins with this one.
    Chance(u32),
}

/// Those that each file has.
pub const BASIC: [Remains; 4] = [
    Remains::Synced,
    Remains::Whole,
    Remains::Spoiled,
    Remains::Foreign,
];

// What becomes of one change.
#[derive(Clone, Copy, PartialEq, Eq)]
enum Fate {
    Lost,
    Kept,
    Spoiled,
    Foreign,
    // These bytes of it are there.
    Part { from: usize, to: usize },
    // All of it, but this byte is another one.
    ByteSpoiled(usize),
    // Each byte by chance.
    Mixed,
}

// The number of the last change, and its bytes.
#[derive(Clone, Copy)]
struct Place {
    index: usize,
    is_last: bool,
    len: usize,
}

// The fate by chance of a change of this many bytes.
fn chance(random: &mut Random, len: usize) -> Fate {
    let limit = len.saturating_add(1);
    match random.below(6) {
        0 => Fate::Lost,
        1 => Fate::Kept,
        2 => Fate::Part {
            from: 0,
            to: random.below(limit),
        },
        3 => Fate::Part {
            from: random.below(limit),
            to: len,
        },
        _ => Fate::Mixed,
    }
}

fn kept_if(is_kept: bool) -> Fate {
    if is_kept { Fate::Kept } else { Fate::Lost }
}

fn earlier_fate(earlier: Earlier) -> Fate {
    match earlier {
        Earlier::Kept => Fate::Kept,
        Earlier::Lost => Fate::Lost,
        Earlier::Spoiled => Fate::Spoiled,
    }
}

// The fate of a change of which a part is there if it is the last one.
fn torn(earlier: Earlier, place: Place, from: usize, to: usize) -> Fate {
    if place.is_last {
        Fate::Part { from, to }
    } else {
        earlier_fate(earlier)
    }
}

fn fate_of(left: Remains, place: Place, random: &mut Random) -> Fate {
    match left {
        Remains::Synced => Fate::Lost,
        Remains::Whole => Fate::Kept,
        Remains::Only(index) => kept_if(place.index == index),
        Remains::AllBut(index) => kept_if(place.index != index),
        Remains::Begun(earlier, to) => torn(earlier, place, 0, to),
        Remains::Ended(earlier, from) => torn(earlier, place, from, place.len),
        Remains::Spoiled => Fate::Spoiled,
        Remains::Foreign => Fate::Foreign,
        Remains::ByteSpoiled(at) if place.is_last => Fate::ByteSpoiled(at),
        Remains::ByteSpoiled(_) => Fate::Kept,
        Remains::Chance(_) => chance(random, place.len),
    }
}

// Where a file ends whose end a change moves between two places.
fn end_between(fate: Fate, old: usize, new: usize, random: &mut Random) -> usize {
    let (least, most) = (old.min(new), old.max(new));
    match fate {
        Fate::Lost => old,
        Fate::Kept | Fate::Spoiled | Fate::Foreign | Fate::ByteSpoiled(_) => new,
        Fate::Part { .. } | Fate::Mixed => {
            let span = most.saturating_sub(least).saturating_add(1);
            least.saturating_add(random.below(span))
        }
    }
}

fn one_of(old: u8, new: u8, random: &mut Random) -> u8 {
    if random.below(2) == 0 { old } else { new }
}

// A byte that may be any, or the old or the new one.
fn any_byte(old: u8, new: u8, is_any: bool, random: &mut Random) -> u8 {
    if is_any && random.below(4) == 0 {
        random.byte()
    } else {
        one_of(old, new, random)
    }
}

// Another byte, and one that is 0 exactly if this one is.
fn foreign(byte: u8) -> u8 {
    match byte {
        0 => 0,
        255 => 254,
        _ => byte + 1,
    }
}

// What a byte of a write becomes: the old one, the new one, or, if it may be any, another one.
fn byte_left(fate: Fate, i: usize, old: u8, new: u8, is_any: bool, random: &mut Random) -> u8 {
    match fate {
        Fate::Lost => old,
        Fate::Kept => new,
        Fate::Part { from, to } if from <= i && i < to => new,
        Fate::Part { .. } => old,
        Fate::ByteSpoiled(at) if at == i => !new,
        Fate::ByteSpoiled(_) => new,
        Fate::Spoiled if is_any => !new,
        Fate::Spoiled => one_of(old, new, random),
        Fate::Foreign if is_any => foreign(new),
        Fate::Foreign => new,
        Fate::Mixed => any_byte(old, new, is_any, random),
    }
}

fn leave_write(
    file: &mut Vec<u8>,
    at: usize,
    bytes: &[u8],
    fate: Fate,
    is_mixing: bool,
    random: &mut Random,
) -> Result<(), AllocError> {
    let old_len = file.len();
    let new_len = old_len.max(at.saturating_add(bytes.len()));
    file.resize(end_between(fate, old_len, new_len, random), 0)?;
    for i in 0..bytes.len() {
        let place = at.saturating_add(i);
        if place < file.len() {
            let is_any = !is_mixing || place >= old_len;
            file[place] = byte_left(fate, i, file[place], bytes[i], is_any, random);
        }
    }
    Ok(())
}

fn leave(
    file: &mut Vec<u8>,
    change: &Unsynced,
    fate: Fate,
    is_mixing: bool,
    random: &mut Random,
) -> Result<(), AllocError> {
    match change {
        Unsynced::Write { at, bytes } => leave_write(file, *at, bytes, fate, is_mixing, random),
        Unsynced::Len(len) => {
            let end = end_between(fate, file.len(), *len, random);
            file.resize(end, 0)
        }
    }
}

fn len_of(change: &Unsynced) -> usize {
    match change {
        Unsynced::Write { bytes, .. } => bytes.len(),
        Unsynced::Len(_) => 0,
    }
}

fn seed_of(left: Remains) -> u32 {
    match left {
        Remains::Chance(seed) => seed,
        _ => 1,
    }
}

/// What remains of a file.
pub fn outcome(alloc: Global, medium: &Medium, left: Remains) -> Result<Vec<u8>, AllocError> {
    let mut file = medium.synced().to_vec(alloc)?;
    let mut random = Random::new(seed_of(left));
    let changes = medium.changes();
    for i in 0..changes.len() {
        let place = Place {
            index: i,
            is_last: i.saturating_add(1) == changes.len(),
            len: len_of(&changes[i]),
        };
        let fate = fate_of(left, place, &mut random);
        leave(&mut file, &changes[i], fate, medium.mixes(), &mut random)?;
    }
    Ok(file)
}

/// How many bytes the last change has that was not synced.
pub fn last_len(medium: &Medium) -> usize {
    match medium.changes().last() {
        Some(change) => len_of(change),
        None => 0,
    }
}

// The places at which a write of this length is torn: each of the first, and every 64th.
fn is_torn_at(place: usize) -> bool {
    place < 32 || place % 64 == 0
}

fn push_torn(all: &mut Vec<Remains>, earlier: Earlier, len: usize) -> Result<(), AllocError> {
    for place in 0..len {
        if is_torn_at(place) || place.saturating_add(1) == len {
            all.push(Remains::Begun(earlier, place))?;
            all.push(Remains::Ended(earlier, place))?;
        }
    }
    Ok(())
}

fn push_single(all: &mut Vec<Remains>, changes: usize) -> Result<(), AllocError> {
    for index in 0..changes {
        all.push(Remains::Only(index))?;
        all.push(Remains::AllBut(index))?;
    }
    Ok(())
}

/// The simple extremes of what may remain of a file: nothing, all, each byte another one where any
/// may be, each change alone, and all but each.
pub fn simple_extremes(alloc: Global, medium: &Medium) -> Result<Vec<Remains>, AllocError> {
    let mut all = BASIC.to_vec(alloc)?;
    push_single(&mut all, medium.changes().len())?;
    Ok(all)
}

/// These, and the last change torn after the others were kept, lost or spoiled.
pub fn extremes(alloc: Global, medium: &Medium) -> Result<Vec<Remains>, AllocError> {
    let mut all = simple_extremes(alloc, medium)?;
    let len = last_len(medium);
    push_torn(&mut all, Earlier::Kept, len)?;
    if medium.changes().len() > 1 {
        push_torn(&mut all, Earlier::Lost, len)?;
        push_torn(&mut all, Earlier::Spoiled, len)?;
    }
    Ok(all)
}

/// One of them by chance, or one that is by chance at each byte.
pub fn any_left(random: &mut Random, medium: &Medium) -> Remains {
    let changes = medium.changes().len().saturating_add(1);
    match random.below(12) {
        0 => Remains::Synced,
        1 => Remains::Whole,
        2 => Remains::Spoiled,
        3 => Remains::Only(random.below(changes)),
        4 => Remains::AllBut(random.below(changes)),
        5 => Remains::Foreign,
        _ => Remains::Chance(random.seed()),
    }
}
