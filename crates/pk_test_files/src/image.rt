//! The words on an image file: on one that leaves its grammar, and which bytes they leave.

use pk_file::FileBoard;
use pk_flash::{Flash, Room};
use pk_nand::Mark;
use pk_test_scripts::MAKE_WORKED;
use pk_test_scripts::steps::MAKE_SMALL;
use pk_top::{Status, run};
use std::alloc::{AllocError, Global};
use std::fs::{File, OpenOptions};
use std::os::unix::fs::FileExt;
use std::test::*;
use std::{env, fs, io, process};

// A new folder for one test.
fn own_folder(rt: &HostRuntime, name: &str) -> io::Result<String> {
    let all = env::temp_dir(rt)?;
    let folder = format!(in rt.alloc();
        "{}/pk_test_files_{}_{}",
        all.display(),
        name,
        process::id(rt.process())
    )?;
    fs::create_dir(rt, folder.as_str())?;
    Ok(folder)
}

// The status of these words on the image at this path.
fn status_of(rt: &HostRuntime, path: &str, words: &[&str]) -> u8 {
    let mut board = FileBoard::new(rt, path);
    let status = run(rt.alloc(), words, &mut board).0;
    match board.finish() {
        Ok(()) => status,
        Err(_) => Status::OUTPUT.0,
    }
}

// Words that need the image, and those that make one.
const WORDS: [&[&str]; 10] = [
    &["put", "61", "616263"],
    &["get", "61"],
    &["del", "61"],
    &["has", "61"],
    &["list"],
    &["list", "61"],
    &["stat"],
    &["gen", "1", "3"],
    &["serve", "36"],
    &MAKE_WORKED,
];

// The state byte of a page is 3: each word that needs the image ends with 8, and no byte of the
// file changes. With the former byte the image is one again.
#[test]
fn third_state(rt: HostRuntime) {
    let folder = own_folder(&rt, "third_state").expect(&rt, "a folder");
    let path = format!(in rt.alloc(); "{}/image", folder.as_str()).expect(&rt, "memory");
    let made = status_of(&rt, path.as_str(), &MAKE_WORKED);
    assert!(rt; made == Status::DONE.0, "a made image");
    let mut options = OpenOptions::new();
    options.read(true).write(true);
    let file = options.open(&rt, path.as_str()).expect(&rt, "the file");
    file.write_all_at(&[3], 36).expect(&rt, "a state byte");
    let before = fs::read(&rt, path.as_str()).expect(&rt, "the file");
    for words in &WORDS {
        let status = status_of(&rt, path.as_str(), words);
        assert!(rt; status == Status::NO_DRIVE.0, "the status");
        let behind = fs::read(&rt, path.as_str()).expect(&rt, "the file");
        assert!(rt; behind.as_slice() == before.as_slice(), "the file");
    }
    file.write_all_at(&[0], 36).expect(&rt, "a state byte");
    let status = status_of(&rt, path.as_str(), &["stat"]);
    assert!(rt; status == Status::DONE.0, "an image");
    fs::remove_file(&rt, path.as_str()).expect(&rt, "the file");
    fs::remove_dir(&rt, folder.as_str()).expect(&rt, "the folder");
}

// Both pages of the root of a made image have the version 1 in place of 2: each word that needs the image ends with 8, `make` finds an image,
// and no byte of the file changes. With the bytes as they were the image is one again.
#[test]
fn former_version(rt: HostRuntime) {
    let folder = own_folder(&rt, "former_version").expect(&rt, "a folder");
    let path = format!(in rt.alloc(); "{}/image", folder.as_str()).expect(&rt, "memory");
    let made = status_of(&rt, path.as_str(), &MAKE_WORKED);
    assert!(rt; made == Status::DONE.0, "a made image");
    let mut options = OpenOptions::new();
    options.read(true).write(true);
    let file = options.open(&rt, path.as_str()).expect(&rt, "the file");
    write_versions(&file, 1).expect(&rt, "the versions");
    let before = fs::read(&rt, path.as_str()).expect(&rt, "the file");
    for words in &WORDS {
        let wanted = if words.len() == MAKE_WORKED.len() {
            Status::IMAGE_EXISTS.0
        } else {
            Status::NO_DRIVE.0
        };
        let status = status_of(&rt, path.as_str(), words);
        assert!(rt; status == wanted, "the status");
        let after = fs::read(&rt, path.as_str()).expect(&rt, "the file");
        assert!(rt; after.as_slice() == before.as_slice(), "the file");
    }
    write_versions(&file, 2).expect(&rt, "the versions");
    let status = status_of(&rt, path.as_str(), &["stat"]);
    assert!(rt; status == Status::DONE.0, "an image");
    fs::remove_file(&rt, path.as_str()).expect(&rt, "the file");
    fs::remove_dir(&rt, folder.as_str()).expect(&rt, "the folder");
}

// Writes the versions of the roots in the first two pages, which follow 32 bytes of the header and
// 1,024 state bytes.
fn write_versions(file: &File, version: u8) -> io::Result<()> {
    for page in 0..2u64 {
        file.write_all_at(&[version], 32 + 1024 + 512 * page + 8)?;
    }
    Ok(())
}

// The headers of images of shapes (512, 16, 64) and (512, 8, 33), whose lengths are 32 + 1,024 * 513 and 32 + 264 * 513 bytes.
const WORKED_HEADER: [u8; 20] = *b"PINKIMG1\x00\x02\x00\x00\x10\x00\x00\x00\x40\x00\x00\x00";

const SMALL_HEADER: [u8; 20] = *b"PINKIMG1\x00\x02\x00\x00\x08\x00\x00\x00\x21\x00\x00\x00";

// Writes a page whole, and its state.
fn write_page(file: &File, page: u32, bytes: &[u8], is_small: bool) -> io::Result<()> {
    let first = if is_small { 32 + 264 } else { 32 + 1024 };
    file.write_all_at(bytes, first + 512 * u64::from(page))?;
    file.write_all_at(&[1], 32 + u64::from(page))
}

// Sets the states of a block to Erased.
fn erase_block(file: &File, block: u32, is_small: bool) -> io::Result<()> {
    if is_small {
        return file.write_all_at(&[0; 8], 32 + 8 * u64::from(block));
    }
    file.write_all_at(&[0; 16], 32 + 16 * u64::from(block))
}

// Writes to a file what the trail of a board says, each page whole.
fn write_marks(flash: &Flash, file: &File, is_small: bool) -> io::Result<()> {
    for i in 0..flash.marks() {
        match flash.mark(i) {
            Mark::Program { page, bytes } => write_page(file, *page, bytes.bytes(), is_small)?,
            Mark::Erase { block } => erase_block(file, *block, is_small)?,
            Mark::Post { bytes: _ } => {}
        }
    }
    Ok(())
}

// A file with the image of a board that was made with its trail, of shape (512, 16, 64), or of shape (512, 8, 33).
fn write_image(rt: &HostRuntime, path: &str, flash: &Flash, is_small: bool) -> io::Result<()> {
    let file = File::create(rt, path)?;
    if is_small {
        file.set_len(135_464)?;
        file.write_all_at(&SMALL_HEADER, 0)?;
    } else {
        file.set_len(525_344)?;
        file.write_all_at(&WORKED_HEADER, 0)?;
    }
    write_marks(flash, &file, is_small)
}

// Sessions that write pages of all lengths over others, the later ones over what the earlier ones left.
const SESSIONS: [&[&str]; 6] = [
    &MAKE_WORKED,
    &["gen", "1", "150"],
    &["put", "61", "616263"],
    &["gen", "2", "300"],
    &["del", "61"],
    &["gen", "3", "150"],
];

// Whether words end with 0, both on the file at this path and on the board in memory.
fn run_both(rt: &HostRuntime, path: &str, flash: &mut Flash, words: &[&str]) -> bool {
    status_of(rt, path, words) == 0 && run(rt.alloc(), words, flash).0 == 0
}

// Whether all of these sessions end with 0 on both.
fn run_sessions(rt: &HostRuntime, path: &str, flash: &mut Flash) -> bool {
    for words in &SESSIONS {
        if !run_both(rt, path, flash, words) {
            return false;
        }
    }
    true
}

const KEYS: [&str; 3] = ["61", "62", "63"];

const LENGTHS: [u32; 20] = [
    480, 3, 200, 900, 31, 479, 100, 1, 700, 64, 480, 2, 150, 950, 33, 8, 478, 250, 5, 60,
];

// The words that store under a key a value that is the key's byte, `length` times.
fn put_text(alloc: Global, key: &str, length: u32) -> Result<String, AllocError> {
    let mut text = String::new(alloc);
    text.push_str("put ")?;
    text.push_str(key)?;
    text.push_str(" ")?;
    for _ in 0..length {
        text.push_str(key)?;
    }
    Ok(text)
}

// Whether these words, with a space between each two, end with 0 on both.
fn run_text(rt: &HostRuntime, path: &str, flash: &mut Flash, text: &str) -> bool {
    let mut words = Vec::new(rt.alloc());
    for word in text.split(' ') {
        if words.push(word).is_err() {
            return false;
        }
    }
    run_both(rt, path, flash, &words)
}

// Stores a value of this length under each of the keys, each in a session. Whether all end with 0.
fn put_length(rt: &HostRuntime, path: &str, flash: &mut Flash, length: u32) -> bool {
    for key in &KEYS {
        let text = match put_text(rt.alloc(), key, length) {
            Ok(text) => text,
            Err(_) => return false,
        };
        if !run_text(rt, path, flash, text.as_str()) {
            return false;
        }
    }
    true
}

// Makes a drive with three blocks for values, and stores values of these lengths, one after another. Whether all sessions end with 0.
fn put_values(rt: &HostRuntime, path: &str, flash: &mut Flash) -> bool {
    if !run_both(rt, path, flash, &MAKE_SMALL) {
        return false;
    }
    for length in &LENGTHS {
        if !put_length(rt, path, flash, *length) {
            return false;
        }
    }
    true
}

// How often this page was programmed with the first page of a value.
fn value_programs(flash: &Flash, page: u32) -> usize {
    let mut count: usize = 0;
    for i in 0..flash.marks() {
        if let Mark::Program { page: other, bytes } = flash.mark(i) {
            if *other == page && bytes.bytes().get(24..32) == Some(b"PINKDATA".as_slice()) {
                count = count.saturating_add(1);
            }
        }
    }
    count
}

// How many pages were programmed so more than twice.
fn rewritten_pages(flash: &Flash) -> usize {
    let mut count: usize = 0;
    for page in 0..264 {
        if 2 < value_programs(flash, page) {
            count = count.saturating_add(1);
        }
    }
    count
}

// Whether the file at this path has the bytes that it would have if each page of the board's trail were written whole, which `other` is
// the path of.
fn has_same_bytes(
    rt: &HostRuntime,
    path: &str,
    other: &str,
    flash: &Flash,
    is_small: bool,
) -> io::Result<bool> {
    write_image(rt, other, flash, is_small)?;
    let found = fs::read(rt, path)?;
    let wanted = fs::read(rt, other)?;
    Ok(found.as_slice() == wanted.as_slice())
}

// A board that records 6,000 marks.
fn recording(rt: &HostRuntime) -> Result<Flash, AllocError> {
    let room = Room {
        posted: 4096,
        marks: 6000,
    };
    Flash::new(rt.alloc(), None, Vec::new(rt.alloc()), room)
}

// Of a page no byte is written that the file has, and it has the bytes that it would have if each page were written whole: pages of the
// journal and the index written again within a run, and pages of values written again by later runs.
#[test]
fn same_bytes(rt: HostRuntime) {
    let folder = own_folder(&rt, "same_bytes").expect(&rt, "a folder");
    let path = format!(in rt.alloc(); "{}/image", folder.as_str()).expect(&rt, "memory");
    let other = format!(in rt.alloc(); "{}/marks", folder.as_str()).expect(&rt, "memory");
    let mut flash = recording(&rt).expect(&rt, "memory");
    let ended = run_sessions(&rt, path.as_str(), &mut flash);
    assert!(rt; ended, "the sessions");
    assert!(rt; 700 < flash.marks(), "the marks");
    let same = has_same_bytes(&rt, path.as_str(), other.as_str(), &flash, false);
    assert!(rt; same.expect(&rt, "the images"), "the bytes");
    fs::remove_file(&rt, path.as_str()).expect(&rt, "the file");
    let mut small = recording(&rt).expect(&rt, "memory");
    let stored = put_values(&rt, path.as_str(), &mut small);
    assert!(rt; stored, "the values");
    assert!(rt;
        4 < rewritten_pages(&small),
        "pages of values that were written again"
    );
    let same = has_same_bytes(&rt, path.as_str(), other.as_str(), &small, true);
    assert!(rt; same.expect(&rt, "the images"), "the bytes");
    fs::remove_file(&rt, path.as_str()).expect(&rt, "the file");
    fs::remove_file(&rt, other.as_str()).expect(&rt, "the file");
    fs::remove_dir(&rt, folder.as_str()).expect(&rt, "the folder");
}
