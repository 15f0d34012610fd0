//! An image and its log in memory, and sessions of the program over them.
ghost use Rattle.std.specs.Prelude.{◌≡◌};

use crate::map::RECORD_BYTES;
use pk_base::Shape;
use pk_durable::DurableFlash;
use pk_flash::Flash;
use pk_image::{PageTag, header};
use pk_law_durable::session;
use pk_nand::PageState;
use pk_redo::LogSizes;
use pk_test_disks::{Fails, Medium};
use pk_test_scripts::boards::{shape_of, small};
use pk_test_scripts::script::{Ask, script};
use pk_test_scripts::steps::MAKE_SMALL;
use pk_test_scripts::{Program, made};
use pk_top::run;
use sqlite_disk::Disk;
use std::alloc::{AllocError, Global};
use std::test::Fail;

/// The program over the board in memory, with which sessions over disks are compared.
pub struct InMemory;

impl Program for InMemory {
    fn run(alloc: Global, words: &[&str], flash: &mut Flash) -> u8 {
        run(alloc, words, flash).0
    }
}

// How many bytes of steps a batch has, of zeros there are ahead, and a log has before it is emptied.
const BATCH_BYTES: u32 = 1_100;

const BLANK_BYTES: u32 = 1_300;

const MOST_BYTES: u32 = 2_700;

// Marks for which a board has room.
const MARKS: usize = 400;

/// The log and the image.
#[derive(Drop)]
pub struct Disks {
    pub log: Medium,
    pub image: Medium,
}

/// A session after its end, or after the machine has stopped.
#[derive(Drop)]
pub struct Ended {
    pub status: u8,
    /// The records that left.
    pub sent: Vec<u8>,
    pub disks: Disks,
}

impl Ended {
    /// How many commands were answered; each record is one without data.
    pub fn answered(&self) -> usize {
        self.sent.len() / RECORD_BYTES
    }
}

fn push_states(into: &mut Vec<u8>, pages: &[PageState]) -> Result<(), AllocError> {
    for page in pages {
        let tag = match page {
            PageState::Erased => PageTag::Erased,
            PageState::Whole(_) => PageTag::Whole,
            PageState::Torn => PageTag::Torn,
        };
        into.push(tag.byte())?;
    }
    Ok(())
}

fn push_pages(into: &mut Vec<u8>, pages: &[PageState], erased: &[u8]) -> Result<(), AllocError> {
    for page in pages {
        match page {
            PageState::Whole(bytes) => into.extend_from_slice(bytes.bytes())?,
            _ => into.extend_from_slice(erased)?,
        }
    }
    Ok(())
}

// The bytes of an image with these pages.
fn image_of(alloc: Global, shape: &Shape, pages: &[PageState]) -> Result<Vec<u8>, AllocError> {
    let mut bytes = Vec::new(alloc);
    let erased = Vec::from_elem(alloc, 0u8, shape.page_bytes() as usize)?;
    bytes.extend_from_slice(&header(shape))?;
    push_states(&mut bytes, pages)?;
    push_pages(&mut bytes, pages, &erased)?;
    Ok(bytes)
}

/// The bytes of the image of a made drive of 33 blocks.
pub fn made_image(alloc: Global) -> Result<Vec<u8>, Fail> {
    let pages = made::<InMemory>(alloc, &MAKE_SMALL)?;
    Ok(image_of(alloc, &small()?, &pages)?)
}

/// Files that hold these bytes, of which these calls fail.
pub fn disks_of(
    alloc: Global,
    log: (&[u8], Fails),
    image: (&[u8], Fails),
    is_mixing: bool,
) -> Result<Disks, AllocError> {
    Ok(Disks {
        log: Medium::new(alloc, log.0, is_mixing, log.1)?,
        image: Medium::new(alloc, image.0, is_mixing, image.1)?,
    })
}

/// A session of these words over these files; None if they are not opened.
pub fn run_over(
    alloc: Global,
    words: &[&str],
    input: Vec<u8>,
    disks: Disks,
) -> Result<Option<Ended>, Fail> {
    let shape = small()?;
    let Disks { log, image } = disks;
    if !log.may_be_used() || !image.may_be_used() {
        return Ok(None);
    }
    let sizes = LogSizes::new(&shape, BATCH_BYTES, BLANK_BYTES, MOST_BYTES);
    let Ok(flash) = DurableFlash::open(alloc, log, image, shape, sizes, MARKS) else {
        return Ok(None);
    };
    let (status, flash) = session(alloc, words, input, flash);
    let sent = flash.sent().to_vec(alloc)?;
    let (log, image) = flash.into_disks();
    Ok(Some(Ended {
        status: status.0,
        sent,
        disks: Disks { log, image },
    }))
}

/// Serves a script over these files.
pub fn serve_over(alloc: Global, asks: &[Ask], disks: Disks) -> Result<Option<Ended>, Fail> {
    run_over(alloc, &["serve", "36"], script(alloc, asks)?, disks)
}
