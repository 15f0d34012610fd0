//! The program that the trials are run on.

use pk_core::{Drive, OpenError};
use pk_drive::Engine;
use pk_flash::Flash;
use pk_test_scripts::Program;
use pk_test_spoiled::{Opened, Opens};
use pk_top::run;
use std::alloc::Global;

/// The program whose parts this repository proves.
pub struct Pink;

impl Program for Pink {
    fn run(alloc: Global, words: &[&str], flash: &mut Flash) -> u8 {
        run(alloc, words, flash).0
    }
}

// How many keys the first namespace of a drive has.
fn first_keys<D: Engine>(drive: &D) -> u32 {
    // so that the first namespace is known to be there
    let _ = drive.spaces();
    drive.counts(1).keys
}

impl Opens for Pink {
    fn opened(alloc: Global, flash: &mut Flash) -> Opened {
        let Some(shape) = flash.shape() else {
            return Opened::Failed;
        };
        match Drive::open(alloc, flash, shape, 36) {
            Ok(drive) => Opened::Keys(first_keys(&drive)),
            Err(OpenError::NotFormatted) => Opened::NotFormatted,
            Err(OpenError::Damaged { page }) => Opened::Damaged(page),
            Err(_) => Opened::Failed,
        }
    }
}
