//! Sessions over a file, and files that are no images.
ghost use Rattle.std.specs.Prelude.{◌≡◌, length, None};

use pk_base::Shape;
use pk_file::FileBoard;
use pk_nand::{LoadFault, Nand, PageRead};
use std::alloc::Global;
use std::fs::{File, OpenOptions};
use std::os::unix::fs::FileExt;
use std::test::*;
use std::{env, fs, io, process};

// The path of an image for one test, of which there is no file.
fn image_path(rt: &HostRuntime, name: &str) -> io::Result<String> {
    let all = env::temp_dir(rt)?;
    Ok(format!(in rt.alloc();
        "{}/pk_file_{}_{}",
        all.display(),
        name,
        process::id(rt.process())
    )?)
}

// Makes an image and programs its first page.
fn make_and_program<B: Nand>(board: &mut B, alloc: Global, shape: Shape, bytes: &[u8]) -> bool
    requires full { length bytes.now ≡ shape.page_bytes }
{
    match board.load(alloc) {
        Ok(None) => {}
        _ => return false,
    }
    match board.make(alloc, shape) {
        Ok(()) => {}
        Err(_) => return false,
    }
    let _ = shape.page_count();
    match board.program(0, bytes) {
        Ok(()) => true,
        Err(_) => false,
    }
}

// Loads an image, reads its first page and erases its first block.
fn read_and_erase<B: Nand>(board: &mut B, alloc: Global, into: &mut [u8]) -> Option<PageRead> {
    let shape = match board.load(alloc) {
        Ok(Some(shape)) => shape,
        _ => return None,
    };
    if shape.page_count() == 0 || shape.blocks() == 0 || into.len() != shape.page_bytes() as usize {
        return None;
    }
    match board.read(0, into) {
        Ok(found) => match board.erase(0) {
            Ok(()) => Some(found),
            Err(_) => None,
        },
        Err(_) => None,
    }
}

// What a load of this file answers.
fn loaded(rt: &HostRuntime, path: &str) -> Result<Option<u32>, LoadFault> {
    let mut board = FileBoard::new(rt, path);
    match board.load(rt.alloc()) {
        Ok(Some(shape)) => Ok(Some(shape.page_count())),
        Ok(None) => Ok(None),
        Err(fault) => Err(fault),
    }
}

// Makes an image whose first page has these bytes. What a load of the file answers while the board
// is there.
fn first_board(
    rt: &HostRuntime,
    path: &str,
    bytes: &[u8; 512],
) -> Option<Result<Option<u32>, LoadFault>> {
    let shape = Shape::new(512, 16, 64).ok()?;
    if shape.page_bytes() != 512 {
        return None;
    }
    let mut board = FileBoard::new(rt, path);
    if !make_and_program(&mut board, rt.alloc(), shape, bytes) {
        return None;
    }
    let other = loaded(rt, path);
    match board.finish() {
        Ok(()) => Some(other),
        Err(_) => None,
    }
}

// Reads the first page by a board of its own, and erases its block.
fn next_board(rt: &HostRuntime, path: &str, into: &mut [u8; 512]) -> Option<PageRead> {
    let mut board = FileBoard::new(rt, path);
    read_and_erase(&mut board, rt.alloc(), into)
}

// Three boards over one file, one after another: what a load answers while the first is there, and
// what the next ones read.
fn three_boards(
    rt: &HostRuntime,
    path: &str,
) -> Option<(Result<Option<u32>, LoadFault>, PageRead, PageRead)> {
    let bytes = [7u8; 512];
    let mut into = [0u8; 512];
    let first = first_board(rt, path, &bytes)?;
    let second = next_board(rt, path, &mut into)?;
    if into != bytes {
        return None;
    }
    let third = next_board(rt, path, &mut into)?;
    Some((first, second, third))
}

// While a board is there no other opens its image; the next ones find the page as it was written,
// and then its block erased.
#[test]
fn sessions(rt: HostRuntime) -> Result<(), Fail> {
    let path = image_path(&rt, "sessions")?;
    let seen = three_boards(&rt, path.as_str());
    fs::remove_file(&rt, path.as_str())?;
    let wanted = (Err(LoadFault::Fault), PageRead::Whole, PageRead::Erased);
    assert_eq!(rt; seen, Some(wanted));
    Ok(())
}

// A new file.
fn new_file(rt: &HostRuntime, path: &str) -> io::Result<File> {
    OpenOptions::new()
        .read(true)
        .write(true)
        .create(true)
        .open(rt, path)
}

// What a load of the file answers after a change of its length, if there is one, and of these bytes
// of it.
fn changed(
    rt: &HostRuntime,
    path: &str,
    file: &File,
    len: Option<u64>,
    at: u64,
    bytes: &[u8],
) -> io::Result<Result<Option<u32>, LoadFault>> {
    if let Some(len) = len {
        file.set_len(len)?;
    }
    file.write_all_at(bytes, at)?;
    Ok(loaded(rt, path))
}

// The answer if the image leaves its grammar at this byte.
fn bad(at: u64) -> Result<Option<u32>, LoadFault> {
    Err(LoadFault::BadImage { at })
}

// An image of shape (512, 16, 64) written out by hand, then with a wrong state byte, a wrong header
// and wrong lengths. The file has no byte at first. The first of these changes after which another
// answer comes.
fn first_wrong(rt: &HostRuntime, path: &str) -> io::Result<Option<u32>> {
    let file = new_file(rt, path)?;
    let header = [0, 2, 0, 0, 16, 0, 0, 0, 64, 0, 0, 0];
    for (number, len, at, bytes, want) in [
        (0u32, None, 0u64, b"".as_slice(), Ok(None)),
        (1, Some(525_344u64), 0, b"", bad(0)),
        (2, None, 0, b"PINKIMG1", bad(8)),
        (3, None, 8, &header, Ok(Some(1024u32))),
        (4, None, 32, &[1, 2, 0, 1, 3, 4], bad(36)),
        (5, None, 36, &[2, 2], Ok(Some(1024))),
        (6, Some(525_343), 0, b"", bad(32)),
        (7, Some(525_345), 0, b"", bad(32)),
        (8, Some(32), 0, b"", bad(32)),
        (9, Some(20), 0, b"", bad(20)),
    ] {
        if changed(rt, path, &file, len, at, bytes)? != want {
            return Ok(Some(number));
        }
    }
    Ok(None)
}

#[test]
fn bad_images(rt: HostRuntime) -> Result<(), Fail> {
    let path = image_path(&rt, "bad_images")?;
    let missing = loaded(&rt, path.as_str());
    let wrong = first_wrong(&rt, path.as_str())?;
    fs::remove_file(&rt, path.as_str())?;
    assert_eq!(rt; missing, Ok(None));
    assert_eq!(rt; wrong, None);
    Ok(())
}
