//! Blocks: what each is for, and a letter for each of its pages.
ghost use Rattle.std.specs.Prelude.{◌≡◌, ◌≤◌, ◌<◌, nat_lt, MatchBool, MatchOption, option_copied, ◌⊎◌};
ghost use Rattle.pk_live.specs.Values.{IsLive};
ghost use Rattle.pk_dump.specs.declared.picture.BlockUse.TheVariants.{Root as RootBlock, Rest};
ghost use Rattle.pk_dump.specs.declared.picture.Life.TheVariants.{Live as Living, Dead, Unknown};
ghost use Rattle.pk_rootfmt.specs.Held.{older_of, blocks_or_none};
ghost use Rattle.pk_dump.specs.Uses.{run_of, use_of};
ghost use Rattle.pk_scan.specs.Adopts.{is_among};

use crate::form::Form;
use crate::picture::{BlockUse, Life, letter};
use pk_base::{LEVELS, ROOT_BLOCKS, Shape};
use pk_live::Live;
use pk_nand::PageState;
use pk_rootfmt::Root;
use std::alloc::{AllocError, Allocator};
use std::fmt::Write;

/// Whether the run of a level has a block.
fn in_run<A: Allocator>(root: &Root<A>, level: u8, block: u16) -> bool
    requires { 1 ≤ level × level ≤ LEVELS }
    ensures { result ≡ is_among (run_of root.now.root level) block }
{
    root.blocks(level).contains(&block)
}

/// Whether the older epoch has a block.
fn in_older<A: Allocator>(root: &Root<A>, block: u16) -> bool
    ensures { result ≡ is_among (blocks_or_none (older_of root.now.root.older)) block }
{
    match root.older() {
        Some(blocks) => blocks.contains(&block),
        None => false,
    }
}

/// What a block after the root blocks is for, as the root names it.
fn named_use<A: Allocator>(root: &Root<A>, block: u16) -> BlockUse
    ensures { result ≡ use_of root.now.root block }
{
    if root.newest().contains(&block) {
        BlockUse::Newest
    } else if in_older(root, block) {
        BlockUse::Older
    } else if in_run(root, 1, block) {
        BlockUse::Run { level: 1 }
    } else if in_run(root, 2, block) {
        BlockUse::Run { level: 2 }
    } else if in_run(root, 3, block) {
        BlockUse::Run { level: 3 }
    } else if in_run(root, 4, block) {
        BlockUse::Run { level: 4 }
    } else {
        BlockUse::Rest
    }
}

/// What a block is for under the newest root, if there is one.
fn block_use<A: Allocator>(root: Option<&Root<A>>, block: u32) -> BlockUse
    requires { block < 65536 }
    ensures { MatchBool (nat_lt block ROOT_BLOCKS) (result ≡ RootBlock)
        (MatchOption (option_copied root.entry) (result ≡ Rest)
        (λ r. result ≡ use_of r.root block)) }
{
    if block < ROOT_BLOCKS {
        return BlockUse::Root;
    }
    match root {
        Some(root) => named_use(root, block as u16),
        None => BlockUse::Rest,
    }
}

/// What is known of the value to which a page belongs.
fn life_of<A: Allocator>(live: Option<&Live<A>>, page: u32) -> Life
    ensures { MatchOption (option_copied live.entry) (result ≡ Unknown)
        (λ l. ((result ≡ Living) × IsLive l page) ⊎ ((result ≡ Dead) × (IsLive l page → ⊥))) }
{
    match live {
        Some(live) => {
            if live.is_live(page) {
                Life::Live
            } else {
                Life::Dead
            }
        }
        None => Life::Unknown,
    }
}

/// The name of what a block is for; of a block that no root names, whether it has a live page.
fn name_of<A: Allocator>(used: BlockUse, live: Option<&Live<A>>, block: u32) -> &'static str {
    match used {
        BlockUse::Root => "roots",
        BlockUse::Newest => "newest-epoch",
        BlockUse::Older => "older-epoch",
        BlockUse::Run { level: 1 } => "run1",
        BlockUse::Run { level: 2 } => "run2",
        BlockUse::Run { level: 3 } => "run3",
        BlockUse::Run { .. } => "run4",
        BlockUse::Rest => match live {
            Some(live) => {
                if live.count(block) > 0 {
                    "values"
                } else {
                    "free"
                }
            }
            None => "unknown",
        },
    }
}

/// Prints what a block is for, and how many live pages it has.
fn tell_use(
    out: &mut String,
    form: Form,
    block: u32,
    name: &str,
    count: u32,
) -> Result<(), AllocError> {
    match form {
        Form::People => write!(out, "block {block:>4} {name:<12} {count:>3} live  "),
        Form::Programs => write!(out, "block number={block} use={name} live={count} pages="),
    }
}

/// How many live pages a block has.
fn count_of<A: Allocator>(live: Option<&Live<A>>, block: u32) -> u32 {
    match live {
        Some(live) => live.count(block),
        None => 0,
    }
}

/// What the lines of blocks are made of: the pages of a flash of this shape, the newest root if
/// there is one, and the live pages of its values if it holds a map.
#[derive(Drop)]
pub struct Ground<'a, A: Allocator> {
    pub shape: &'a Shape,
    pub root: Option<&'a Root<A>>,
    pub live: Option<&'a Live<A>>,
    pub pages: &'a [PageState],
}

/// Prints the pages of a block, a letter for each.
fn tell_letters<A: Allocator>(
    out: &mut String,
    on: &Ground<A>,
    used: BlockUse,
    block: u32,
) -> Result<(), AllocError>
    requires { block < on.now.shape.now.blocks }
{
    let shape = on.shape;
    shape.known();
    let first = block * shape.block_pages();
    for i in 0..shape.block_pages() {
        let Some(page) = on.pages.get((first + i) as usize) else {
            return Ok(());
        };
        out.push(letter(used, life_of(on.live, first + i), page))?;
    }
    writeln!(out, "")
}

/// Prints a block: its use, its live pages, and a letter for each page.
fn tell_block<A: Allocator>(
    out: &mut String,
    form: Form,
    on: &Ground<A>,
    block: u32,
) -> Result<(), AllocError>
    requires { block < on.now.shape.now.blocks }
{
    on.shape.known();
    let used = block_use(on.root, block);
    let name = name_of(used, on.live, block);
    tell_use(out, form, block, name, count_of(on.live, block))?;
    tell_letters(out, on, used, block)
}

/// Prints all blocks.
pub fn tell_blocks<A: Allocator>(
    out: &mut String,
    form: Form,
    on: &Ground<A>,
) -> Result<(), AllocError> {
    for block in 0..on.shape.blocks() {
        tell_block(out, form, on, block)?;
    }
    Ok(())
}
