//! What is found on a flash, before it is printed.
ghost use Rattle.pk_dump.specs.Pages.{AreFull};

use crate::reading::Reading;
use pk_nand::PageState;
use pk_rootfmt::Root;
use std::alloc::Global;

/// What was found on a flash.
#[derive(Drop)]
pub struct Finding {
    pub pages: Vec<PageState>,
    /// The newest root, and its page if there is one.
    pub root: Root<Global>,
    pub newest: Option<u32>,
    pub reading: Reading,
    ghost full: { AreFull root.shape pages.items },
}
