//! A root in memory.
ghost use Rattle.std.specs.Prelude.{◌≡◌, ◌+◌, ◌-◌, ◌≤◌, ◌==◌, ◌||◌, length, take, drop, map, slice_index, slice_get, slice_set, true, Some, None, IfOk, IfErr, OnOk, OnErr};
ghost use Rattle.std.specs.List.{concat};
ghost use Rattle.pk_base.specs.declared.sizes.TheConstants.{MOST_SPACES};
ghost use Rattle.pk_base.specs.Shape.{meta_blocks, run_blocks};
ghost use Rattle.pk_rootfmt.specs.Root.{root_bytes, root_page, is_root, parts, are_limits, limits_of, page_limits, u32s_at};
ghost use Rattle.pk_rootfmt.specs.Fault.{root_fault};
ghost use Rattle.pk_rootfmt.specs.Held.{Held, none, total as total_of, two_of, older_of, blocks_or_none};

use crate::check::{checked, list_from, run_size};
use crate::copy::{read_blocks, replace_blocks};
use crate::layout::{LIMITS_BYTES, LIMITS_VERSION, LIST_FROM, SPACES};
use crate::page::put_page;
use pk_base::{EPOCH_BLOCKS, Shape, get_u16, get_u32, get_u64};
use std::alloc::{AllocError, Allocator};
use std::marker::Model;

/// The blocks of one epoch.
const ONE_EPOCH: usize = EPOCH_BLOCKS as usize;
/// The blocks of the newest epoch and of the older one.
const TWO_EPOCHS: usize = 2 * ONE_EPOCH;

/// Bytes are no root page: the first byte of the first wrong field.
#[derive(Clone, Copy, Debug, PartialEq, Eq)]
pub struct BadRoot {
    pub at: u32,
}

/// Where the epochs and the runs of a flash are.
#[derive(Drop)]
pub struct Root<A: Allocator> {
    shape: Shape,
    number: u64,
    epoch: u64,
    /// The two blocks of the newest epoch, then those of the older one, as many as `journal` says.
    epochs: [u16; TWO_EPOCHS],
    journal: usize,
    entries: [u32; 4],
    /// Blocks of each run.
    sizes: [usize; 4],
    /// The blocks of the runs in their order.
    blocks: Vec<u16, A>,
    /// The live limits of namespaces, of which the first `spaces` count; 0 if there is one namespace
    /// with the limit of the shape.
    limits: [u32; SPACES],
    spaces: usize,
}

impl<A: Allocator> Model for Root<A> {
    ghost use Rattle.std.specs.Prelude.{◌≡◌, ◌≤◌, take, drop, length};
    ghost use Rattle.pk_rootfmt.specs.Root.{parts};
    ghost use Rattle.pk_rootfmt.specs.Held.{Held, HasRoom};

    ghost Value = { Held };

    ghost view = { λ r. record {
      shape = r.shape;
      root = record {
        number = r.number;
        epoch = r.epoch;
        newest = take 2 (take r.journal r.epochs);
        older = drop 2 (take r.journal
            r.epochs);
        counts = r.entries;
        runs = parts r.sizes r.blocks.items;
        limits = take r.spaces r.limits;
      };
    } };

    ghost invariant = { λ r. HasRoom r.shape r.journal r.spaces r.epochs r.entries r.sizes r.blocks.items r.limits };
}

impl<A: Allocator + Clone> Root<A> {
    /// No root; all its memory is taken here.
    pub fn new(alloc: A, shape: Shape) -> Result<Root<A>, AllocError>
        ensures { IfOk result (λ r. r ≡ record { shape = shape; root = none }) }
    {
        let blocks = Vec::from_elem(alloc, 0u16, shape.meta_blocks() as usize + TWO_EPOCHS)?;
        Ok(Root {
            shape,
            number: 0,
            epoch: 0,
            epochs: [0, 0, 0, 0],
            journal: 0,
            entries: [0, 0, 0, 0],
            sizes: [0, 0, 0, 0],
            blocks,
            limits: [0; SPACES],
            spaces: 0,
        })
    }
}

impl<A: Allocator> Root<A> {
    /// The shape of the flash that it is a root of.
    pub fn shape(&self) -> &Shape
        ensures { result.now ≡ self.now.shape }
    {
        &self.shape
    }

    /// The root's number; 0 if there is none.
    pub fn number(&self) -> u64
        ensures { result ≡ self.now.root.number }
    {
        self.number
    }

    /// The number of the newest epoch.
    pub fn epoch(&self) -> u64
        ensures { result ≡ self.now.root.epoch }
    {
        self.epoch
    }

    /// The two blocks of the newest epoch; zeros if there is no root.
    pub fn newest(&self) -> [u16; 2]
        ensures { result ≡ two_of self.now.root.newest }
    {
        if self.journal == 0 {
            return [0, 0];
        }
        [self.epochs[0], self.epochs[1]]
    }

    /// The two blocks of the older epoch, if there is one.
    pub fn older(&self) -> Option<[u16; 2]>
        ensures { result ≡ older_of self.now.root.older }
    {
        if self.journal == TWO_EPOCHS {
            return Some([self.epochs[2], self.epochs[3]]);
        }
        None
    }

    /// The entries of the run of this level, 1 to 4.
    pub fn entries(&self, level: u8) -> u32
        requires { 1 ≤ level × level ≤ 4 }
        ensures { result ≡ slice_index self.now.root.counts (level - 1) }
    {
        self.entries[level as usize - 1]
    }

    /// The blocks of the run of this level, 1 to 4.
    pub fn blocks(&self, level: u8) -> &[u16]
        requires { 1 ≤ level × level ≤ 4 }
        ensures { slice_get self.now.root.runs (level - 1) ≡ Some result.now }
    {
        self.shape.known();
        run_at(&self.sizes, &self.blocks, level)
    }

    /// The number of namespaces.
    pub fn spaces(&self) -> u8
        ensures value { result ≡ length (limits_of self.now.shape self.now.root.limits) }
        ensures some { 1 ≤ result }
        ensures most { result ≤ MOST_SPACES }
    {
        if self.spaces == 0 {
            return 1;
        }
        self.spaces as u8
    }

    /// The live limit of this namespace in pages; namespaces are numbered from 1 on.
    pub fn space_limit(&self, space: u8) -> u32
        requires { 1 ≤ space
            × space ≤ length (limits_of self.now.shape self.now.root.limits) }
        ensures { result ≡ slice_index (limits_of self.now.shape self.now.root.limits) (space - 1) }
    {
        if self.spaces == 0 {
            return self.shape.limit();
        }
        self.limits[space as usize - 1]
    }

    /// Gives the root namespaces with these limits, so that it is written with the version that has
    /// limits.
    pub fn set_spaces(&mut self, limits: &[u32])
        requires limits { are_limits self.old.shape limits.now ≡ true }
        requires some { 1 ≤ length limits.now }
        ensures { self.new ≡ record self.old {
          root = record self.old.root { limits = limits.now };
        } }
    {
        let mut each = [0u32; SPACES];
        each[..limits.len()].copy_from_slice(limits);
        self.limits = each;
        self.spaces = limits.len();
    }

    /// Numbers the root anew.
    pub fn set_number(&mut self, number: u64)
        ensures { self.new ≡ record self.old { root = record self.old.root { number = number } } }
    {
        self.number = number;
    }

    /// Names the newest epoch with its two blocks, and those of the older one.
    pub fn set_epochs(&mut self, epoch: u64, newest: [u16; 2], older: Option<[u16; 2]>)
        ensures { self.new ≡ record self.old {
          root = record self.old.root {
            epoch = epoch;
            newest = newest;
            older = blocks_or_none older;
          };
        } }
    {
        self.epoch = epoch;
        self.journal = journal_size(older);
        self.epochs = all_epochs(newest, older);
    }

    /// Gives the run of this level, 1 to 4, these entries and blocks.
    pub fn set_run(&mut self, level: u8, entries: u32, blocks: &[u16])
        requires level { 1 ≤ level × level ≤ 4 }
        requires room { length (concat (slice_set self.old.root.runs (level - 1) blocks.now))
            ≤ meta_blocks self.old.shape }
        ensures { self.new ≡ record self.old {
          root = record self.old.root {
            counts = slice_set
                self.old.root.counts (level - 1) entries;
            runs = slice_set self.old.root.runs
                (level - 1) blocks.now;
          };
        } }
    {
        self.shape.known();
        put_run(&mut self.sizes, &mut self.blocks, level, blocks);
        self.entries[level as usize - 1] = entries;
    }

    /// Writes the page of a root of the grammar; `into` has the bytes of a page.
    pub fn encode(&self, into: &mut [u8])
        requires grammar { is_root self.now.shape self.now.root ≡ true }
        requires sized { length into.old ≡ self.now.shape.page_bytes }
        ensures bytes { into.new ≡ root_bytes self.now.shape self.now.root }
        // So the page is decoded to this root again.
        ensures again { root_page self.now.shape into.new ≡ Some self.now.root }
    {
        self.shape.known();
        let count = total(&self.sizes);
        put_page(
            &self.shape,
            &self.limits[..self.spaces],
            &self.epochs[..self.journal],
            self.number,
            self.epoch,
            &self.entries,
            &self.blocks[..count],
            into,
        );
    }

    /// Becomes the root of a page.
    pub fn decode(&mut self, page: &[u8]) -> Result<(), BadRoot>
        requires { length page.now ≡ self.old.shape.page_bytes }
        ensures shape { self.new.shape ≡ self.old.shape }

        // A page is decoded exactly if the definition has a root for it, to that root.
        ensures found { OnOk result (root_page self.old.shape page.now ≡ Some self.new.root) }
        ensures grammar { OnOk result (is_root self.new.shape self.new.root ≡ true) }

        // Otherwise the first wrong field is named, and the root is unchanged.
        ensures missing { OnErr result (root_page self.old.shape page.now ≡ None) }
        ensures exact { IfErr result (λ bad. root_fault self.old.shape page.now ≡ Some bad.at) }
        ensures kept { OnErr result (self.new ≡ self.old) }
    {
        self.shape.known();
        match checked(&self.shape, page) {
            Ok(()) => {
                self.fill(page);
                Ok(())
            }
            Err(wrong) => Err(BadRoot { at: wrong.at }),
        }
    }

    /// Takes what the fields of a page say that passes the check.
    fn fill(&mut self, page: &[u8])
        requires sized { length page.now ≡ self.old.shape.page_bytes }
        requires passes { root_fault self.old.shape page.now ≡ None }
        ensures shape { self.new.shape ≡ self.old.shape }
        ensures root { root_page self.old.shape page.now ≡ Some self.new.root }
    {
        self.shape.known();
        let entries = [
            get_u32(page, 40),
            get_u32(page, 44),
            get_u32(page, 48),
            get_u32(page, 52),
        ];
        let sizes = sizes_of(&self.shape, &entries);
        let journal = get_u16(page, 18) as usize;
        let from = list_from(page);
        self.spaces = spaces_of(page);
        self.limits = limits_in(page);
        read_blocks(page, from, journal, &mut self.epochs);
        read_blocks(page, from + 2 * journal, total(&sizes), &mut self.blocks);
        self.number = get_u64(page, 24);
        self.epoch = get_u64(page, 32);
        self.journal = journal;
        self.entries = entries;
        self.sizes = sizes;
    }
}

/// The number of limits of a page.
fn spaces_of(page: &[u8]) -> usize
    requires { LIST_FROM ≤ length page.now }
    ensures { result ≡ length (page_limits page.now) }
{
    if get_u16(page, 8) == LIMITS_VERSION {
        get_u32(page, 20) as usize
    } else {
        0
    }
}

/// The eight numbers at the place of the limits.
fn limits_in(page: &[u8]) -> [u32; SPACES]
    requires { LIST_FROM + LIMITS_BYTES ≤ length page.now }
    ensures { result ≡ u32s_at SPACES (drop LIST_FROM page.now) }
{
    [
        get_u32(page, 64),
        get_u32(page, 68),
        get_u32(page, 72),
        get_u32(page, 76),
        get_u32(page, 80),
        get_u32(page, 84),
        get_u32(page, 88),
        get_u32(page, 92),
    ]
}

/// The blocks of all runs.
fn total(sizes: &[usize; 4]) -> usize
    requires { total_of sizes.now ≤ 1000000 }
    ensures { result ≡ total_of sizes.now }
{
    sizes[0] + sizes[1] + sizes[2] + sizes[3]
}

/// The blocks of the runs before the run of this level.
fn start_of(sizes: &[usize; 4], level: u8) -> usize
    requires level { 1 ≤ level × level ≤ 4 }
    requires small { total_of sizes.now ≤ 1000000 }
    ensures { result ≡ total_of (take (level - 1) sizes.now) }
{
    match level {
        1 => 0,
        2 => sizes[0],
        3 => sizes[0] + sizes[1],
        _ => sizes[0] + sizes[1] + sizes[2],
    }
}

/// The blocks of each run of n entries.
fn sizes_of(shape: &Shape, entries: &[u32; 4]) -> [usize; 4]
    ensures { result ≡ map (run_blocks shape.now) entries.now }
{
    [
        run_size(shape, entries[0]) as usize,
        run_size(shape, entries[1]) as usize,
        run_size(shape, entries[2]) as usize,
        run_size(shape, entries[3]) as usize,
    ]
}

/// The blocks of the run of this level.
fn run_at<'a>(sizes: &[usize; 4], blocks: &'a [u16], level: u8) -> &'a [u16]
    requires level { 1 ≤ level × level ≤ 4 }
    requires small { total_of sizes.now ≤ 1000000 }
    requires fits { total_of sizes.now ≤ length blocks.now }
    ensures { slice_get (parts sizes.now blocks.now) (level - 1) ≡ Some result.now }
{
    let at = start_of(sizes, level);
    let size = sizes[level as usize - 1];
    &blocks[at..at + size]
}

/// Puts blocks in the place of those of the run of this level.
fn put_run(sizes: &mut [usize; 4], items: &mut [u16], level: u8, blocks: &[u16])
    requires level { 1 ≤ level × level ≤ 4 }
    requires small { total_of sizes.old ≤ 1000000 }
    requires fits { total_of sizes.old ≤ length items.old }
    requires room { total_of (slice_set sizes.old (level - 1) (length blocks.now))
        ≤ length items.old }

    // The run of the level is another one, and everything else is unchanged.
    ensures runs { parts sizes.new items.new
        ≡ slice_set (parts sizes.old items.old) (level - 1) blocks.now }
    ensures sizes { sizes.new ≡ slice_set sizes.old (level - 1) (length blocks.now) }
    ensures len { length items.new ≡ length items.old }
{
    let at = start_of(sizes, level);
    let old = sizes[level as usize - 1];
    let rest = total(sizes) - (at + old);
    replace_blocks(items, at, old, rest, blocks);
    sizes[level as usize - 1] = blocks.len();
}

/// As many journal blocks as two epochs have, or one.
fn journal_size(older: Option<[u16; 2]>) -> usize
    ensures value { result ≡ 2 + length (blocks_or_none older) }
    ensures even { (result == 0 || result == 2 || result == 4) ≡ true }
{
    match older {
        None => ONE_EPOCH,
        Some(_) => TWO_EPOCHS,
    }
}

/// The blocks of the newest epoch, and after them those of the older one.
fn all_epochs(newest: [u16; 2], older: Option<[u16; 2]>) -> [u16; 4]
    ensures newest { take 2 (take (2 + length (blocks_or_none older)) result) ≡ newest }
    ensures older { drop 2 (take (2 + length (blocks_or_none older)) result)
        ≡ blocks_or_none older }
{
    match older {
        None => [newest[0], newest[1], 0, 0],
        Some(older) => [newest[0], newest[1], older[0], older[1]],
    }
}
