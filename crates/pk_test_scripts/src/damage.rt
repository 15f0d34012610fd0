//! A drive whose pages trials damage.

use crate::boards::{MAKE_WORKED, made, pages_behind, worked};
use crate::script::{Ask, Value};
use crate::tried::Program;
use pk_nand::PageState;
use std::alloc::Global;
use std::test::*;

/// The pages of a drive with the key `a`. Its value is in the pages 32 and 33, its journal begins
/// with the pages 64 and 65, and the roots are in the pages 0 and 1 and, newest, 16 and 17.
pub fn with_one_key<P: Program>(alloc: Global) -> Result<Vec<PageState>, Fail> {
    let value = Value { first: 1, len: 3 };
    let pages = made::<P>(alloc, &MAKE_WORKED)?;
    pages_behind::<P>(alloc, worked()?, pages, &[Ask::Store(0x61, value)])
}
