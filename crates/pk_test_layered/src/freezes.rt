//! Freezes on flashes made by hand, cut at every mark: alone, and after merges into each level that
//! empty the frozen buffer.

use crate::layered::{FLASHES, Layered, key_of, roots_of, value_of};
use crate::merges::{check_marks, serve_layered};
use pk_flash::Flash;
use pk_nvme::opcode::{FLUSH, STORE};
use pk_test_scripts::script::{entry, push_value};
use pk_test_scripts::steps::{add, at_least, ended_well, holds, last_program};
use pk_test_scripts::{Place, Program, same};
use std::alloc::Global;
use std::test::*;

// The key that is stored, which is above all others.
const NEW: u16 = 5000;

// The session of a Store and a Flush. An epoch that was found at opening takes no commit, so that the first Store needs a freeze.
fn session<P: Program>(alloc: Global, layered: &Layered) -> Result<Flash, Fail> {
    let value = value_of(NEW);
    let mut script = Vec::new(alloc);
    add(&mut script, &entry(1, STORE, key_of(NEW), 2, value.len))?;
    push_value(&mut script, &value)?;
    add(&mut script, &entry(1, FLUSH, [0, 0], 0, 0))?;
    let session = serve_layered::<P>(alloc, layered, layered.pages(alloc)?, script)?;
    ended_well(session, Place::Named("the Store"))
}

// Each merge and the freeze made a root, and the commit with the entry is programmed; each mark of the session is interrupted in some ways:
// how many cuts these are.
fn check_cuts<P: Program>(alloc: Global, layered: &Layered) -> Result<u32, Fail> {
    let flash = session::<P>(alloc, layered)?;
    let merges = if layered.lists.frozen == 0 { 0 } else { 4 };
    same(roots_of(&flash, &layered.sizes) as u64, merges + 1, "roots")?;
    holds(
        last_program(&flash).is_some(),
        "a program",
        Place::Named("the Store"),
    )?;
    check_marks::<P>(alloc, layered, &flash, Some(NEW))
}

/// A freeze that first empties the frozen buffer by merges into levels 4, 3, 2 and 1 is cut at
/// every mark: the keys and the lists are those of the newest root, and of the newest epoch.
pub fn freezes_behind_merges<P: Program>(alloc: Global) -> Result<(), Fail> {
    let mut cuts = 0u32;
    for layered in &FLASHES {
        let deleting = layered.with(3, layered.lists.frozen);
        cuts = cuts.saturating_add(check_cuts::<P>(alloc, &deleting)?);
    }
    at_least(cuts, 300, "cuts")
}

/// So is one if nothing is frozen, with entries in the newest epoch, and without.
pub fn freezes<P: Program>(alloc: Global) -> Result<(), Fail> {
    let mut cuts = 0u32;
    for layered in &FLASHES {
        cuts = cuts.saturating_add(check_cuts::<P>(alloc, &layered.with(0, 0))?);
        cuts = cuts.saturating_add(check_cuts::<P>(alloc, &layered.with(3, 0))?);
    }
    at_least(cuts, 100, "cuts")
}
