//! Flashes made by hand, byte for byte as their formats say: entries in both epochs and in each run, under keys of two bytes, on pages of
//! any size.

use pk_base::{Shape, put_text, put_u8, put_u16, put_u32, put_u64};
use pk_flash::{Flash, Left};
use pk_nand::{Mark, PageState};
use pk_test_scripts::boards::shape_of;
use pk_test_scripts::pages::{Sizes, Top, erased, put_root, write};
use pk_test_scripts::script::Value;
use pk_test_scripts::steps::add;
use pk_test_scripts::ways::{few_ways, keeps_pair};
use std::alloc::Global;
use std::test::*;

/// How many entries the newest epoch, the older one, and runs 1 to 4 have. There is an older epoch
/// only if it has some.
#[derive(Clone, Copy)]
pub struct Lists {
    pub active: u16,
    pub frozen: u16,
    pub runs: [u16; 4],
}

/// What exists after a cut: how long the lists are, and a key that was stored.
#[derive(Clone, Copy)]
pub struct Wanted {
    pub lists: Lists,
    pub stored: Option<u16>,
}

/// A flash that is made, and what its lists have.
#[derive(Clone, Copy)]
pub struct Layered {
    pub sizes: Sizes,
    pub lists: Lists,
}

const SMALL: Sizes = Sizes {
    page_bytes: 512,
    block_pages: 8,
    blocks: 33,
};

const DEEP: Sizes = Sizes {
    page_bytes: 512,
    block_pages: 16,
    blocks: 22,
};

const WIDE: Sizes = Sizes {
    page_bytes: 1024,
    block_pages: 8,
    blocks: 32,
};

// The next merges are into levels 4, 3, 2 and 1 with 15 entries a page: 20 and 50 are more than 60, 50 and 200 more than 240, 200 and 800
// more than 960. The values of run 4 fit one block, so that there is nothing to reclaim.
const FIFTEENS: Lists = Lists {
    active: 0,
    frozen: 20,
    runs: [50, 200, 800, 4],
};

// The same with 31 entries a page: 30 and 100 are more than 124, 100 and 420 more than 496, 420 and 1,600 more than 1,984.
const THIRTY_ONES: Lists = Lists {
    active: 0,
    frozen: 30,
    runs: [100, 420, 1600, 4],
};

/// On the smallest flashes that there are with few pages in a block: nothing is in the newest epoch, and the next merges are into levels
/// 4, 3, 2 and 1.
pub const FLASHES: [Layered; 3] = [
    Layered {
        sizes: SMALL,
        lists: FIFTEENS,
    },
    Layered {
        sizes: DEEP,
        lists: FIFTEENS,
    },
    Layered {
        sizes: WIDE,
        lists: THIRTY_ONES,
    },
];

// Run 4 alone has keys that exist: the numbers from this one on. The newest epoch deletes the first of them, and the other lists have
// deleted keys, from the other number on, of which none covers one of run 4.
const FIRST_THERE: u16 = 4000;

const FIRST_GONE: u16 = 1000;

/// The bytes of a key.
pub fn key_of(number: u16) -> [u8; 2] {
    number.to_be_bytes()
}

// ---- pages

// How many entries a page has room for.
fn entries_of(sizes: &Sizes) -> u16 {
    sizes.page_bytes.saturating_sub(32) / 32
}

// The value of each key has five bytes.
const VALUE_BYTES: u32 = 5;

/// The value of a key, which is on the first page of a pair.
pub fn value_of(key: u16) -> Value {
    Value {
        first: (key % 256) as u8,
        len: VALUE_BYTES,
    }
}

// Writes the entry of a key at this place among those of a page: where its value begins, or that the key was deleted.
fn put_note(page: &mut [u8], i: u16, key: u16, first: Option<u32>) {
    let at = 32 + 32 * usize::from(i);
    if page.len() < at + 32 {
        return;
    }
    let name = key_of(key);
    put_u8(page, at, 2);
    put_u8(page, at + 4, name[0]);
    put_u8(page, at + 5, name[1]);
    if let Some(first) = first {
        put_u8(page, at + 1, 1);
        put_u32(page, at + 20, first);
        put_u32(page, at + 24, VALUE_BYTES);
    } else {
        put_u8(page, at + 1, 2);
    }
}

// Writes `count` entries of deleted keys, from this one on.
fn put_gone(page: &mut [u8], first: u16, count: u16) {
    for i in 0..count {
        put_note(page, i, first.saturating_add(i), None);
    }
}

// Writes the head of a page of a run.
fn put_meta(page: &mut [u8], level: u8, index: u16, count: u16) {
    if page.len() < 32 {
        return;
    }
    put_text(page, 0, b"PINKMETA");
    put_u8(page, 8, level);
    put_u16(page, 10, count);
    put_u32(page, 12, u32::from(index));
}

// Writes the head of a page of the commit of an epoch with this index.
fn put_journal(page: &mut [u8], epoch: u64, index: u16, count: u16) {
    if page.len() < 32 {
        return;
    }
    put_text(page, 0, b"PINKJRNL");
    put_u64(page, 8, epoch);
    put_u32(page, 16, u32::from(index));
    put_u16(page, 20, count);
}

// Writes the value of a key, which is on one page, after its head.
fn put_value(page: &mut [u8], key: u16) {
    if page.len() < 37 {
        return;
    }
    let name = key_of(key);
    put_u8(page, 0, 2);
    put_u8(page, 1, 0x44);
    put_u8(page, 4, name[0]);
    put_u8(page, 5, name[1]);
    put_u32(page, 20, VALUE_BYTES);
    put_text(page, 24, b"PINKDATA");
    for i in 0..5u8 {
        put_u8(
            page,
            32 + usize::from(i),
            value_of(key).first.wrapping_add(i),
        );
    }
}

// ---- the flash

// The pages of a flash while they are written.
#[derive(Drop)]
struct Writer {
    alloc: Global,
    sizes: Sizes,
    pages: Vec<PageState>,
    page: Vec<u8>,
}

impl Writer {
    // The number of a page of a block.
    fn at(&self, block: u16, i: u16) -> u32 {
        let first = u32::from(block).saturating_mul(u32::from(self.sizes.block_pages));
        first.saturating_add(u32::from(i))
    }

    // The number of the first page of a pair of a block.
    fn first_of(&self, block: u16, pair: u16) -> u32 {
        self.at(block, pair.saturating_mul(2))
    }

    // Writes the page that was made, and begins a new one.
    fn write(&mut self, at: u32) -> Result<(), Fail> {
        write(self.alloc, &mut self.pages, at, &self.page)?;
        self.page.fill(0);
        Ok(())
    }

    // Writes a run of deleted keys from this block on.
    fn write_gone(&mut self, level: u8, block: u16, entries: u16) -> Result<(), Fail> {
        let most = entries_of(&self.sizes).max(1);
        for index in 0..entries.div_ceil(most) {
            let from = index.saturating_mul(most);
            let count = most.min(entries.saturating_sub(from));
            put_meta(&mut self.page, level, index, count);
            put_gone(&mut self.page, FIRST_GONE.saturating_add(from), count);
            self.write(self.at(block, index))?;
        }
        Ok(())
    }

    // Writes the page that was made to both pages of a pair of a block, and begins a new one.
    fn write_pair(&mut self, block: u16, pair: u16) -> Result<(), Fail> {
        let first = self.first_of(block, pair);
        write(self.alloc, &mut self.pages, first, &self.page)?;
        self.write(first.saturating_add(1))?;
        Ok(())
    }

    // Writes run 4, of one page, and the values of its keys, which fill pairs of pages of this block.
    fn write_there(&mut self, block: u16, entries: u16, values: u16) -> Result<(), Fail> {
        for i in 0..entries {
            let first = self.first_of(values, i);
            put_value(&mut self.page, FIRST_THERE.saturating_add(i));
            self.write(first)?;
            // the second page of the pair has zeros
            self.write(first.saturating_add(1))?;
        }
        put_meta(&mut self.page, 4, 0, entries);
        for i in 0..entries {
            let first = self.first_of(values, i);
            put_note(
                &mut self.page,
                i,
                FIRST_THERE.saturating_add(i),
                Some(first),
            );
        }
        self.write(self.at(block, 0))?;
        Ok(())
    }

    // Writes a commit of an epoch with this many deleted keys from this one on, if there are some.
    fn write_epoch(
        &mut self,
        epoch: u64,
        block: u16,
        index: u16,
        first: u16,
        count: u16,
    ) -> Result<(), Fail> {
        if count == 0 {
            return Ok(());
        }
        put_journal(&mut self.page, epoch, index, count);
        put_gone(&mut self.page, first, count);
        self.write_pair(block, index)?;
        Ok(())
    }
}

// The blocks of a run.
fn blocks_for(sizes: &Sizes, entries: u16) -> u16 {
    let pages = entries.div_ceil(entries_of(sizes).max(1));
    pages.div_ceil(sizes.block_pages.max(1))
}

// The blocks that a root names, of which there are at most twenty.
#[derive(Clone, Copy)]
struct Named {
    blocks: [u16; 20],
    count: usize,
    next: u16,
}

impl Named {
    // Names this many more blocks.
    fn take(&mut self, count: u16) {
        for _ in 0..count {
            if self.count < 20 {
                self.blocks[self.count] = self.next;
                self.count += 1;
            }
            self.next = self.next.saturating_add(1);
        }
    }

    fn blocks(&self) -> &[u16] {
        &self.blocks[..self.count.min(20)]
    }
}

impl Layered {
    /// The same lists, but for this many entries of the newest epoch and of the older one.
    pub fn with(&self, active: u16, frozen: u16) -> Layered {
        Layered {
            sizes: self.sizes,
            lists: Lists {
                active,
                frozen,
                runs: self.lists.runs,
            },
        }
    }

    pub fn shape(&self) -> Result<Shape, Fail> {
        let sizes = &self.sizes;
        shape_of(
            u32::from(sizes.page_bytes),
            u32::from(sizes.block_pages),
            u32::from(sizes.blocks),
        )
    }

    /// The flash: the root in pages 0 and 1, epoch 3 in blocks 2 and 3, epoch 2 in the next two if there is one, the runs in the blocks after
    /// them, and the values in the last block but one.
    pub fn pages(&self, alloc: Global) -> Result<Vec<PageState>, Fail> {
        let sizes = self.sizes;
        let count = u32::from(sizes.block_pages).saturating_mul(u32::from(sizes.blocks));
        let mut writer = Writer {
            alloc,
            sizes,
            pages: erased(alloc, count)?,
            page: Vec::from_elem(alloc, 0u8, usize::from(sizes.page_bytes))?,
        };
        self.write_epochs(&mut writer)?;
        self.write_runs(&mut writer)?;
        Ok(writer.pages)
    }

    // Writes epoch 3 and, in two commits, epoch 2 if there is one.
    fn write_epochs(&self, writer: &mut Writer) -> Result<(), Fail> {
        let half = self.lists.frozen / 2;
        let rest = self.lists.frozen.saturating_sub(half);
        writer.write_epoch(3, 2, 0, FIRST_THERE, self.lists.active)?;
        writer.write_epoch(2, 4, 0, FIRST_GONE, half)?;
        writer.write_epoch(2, 4, 1, FIRST_GONE.saturating_add(half), rest)?;
        Ok(())
    }

    // Writes the runs, and the root, which names all blocks.
    fn write_runs(&self, writer: &mut Writer) -> Result<(), Fail> {
        let runs = self.lists.runs;
        let mut named = Named {
            blocks: [0; 20],
            count: 0,
            next: 2,
        };
        named.take(if self.lists.frozen > 0 { 4 } else { 2 });
        writer.write_gone(1, named.next, runs[0])?;
        named.take(blocks_for(&self.sizes, runs[0]));
        writer.write_gone(2, named.next, runs[1])?;
        named.take(blocks_for(&self.sizes, runs[1]));
        writer.write_gone(3, named.next, runs[2])?;
        named.take(blocks_for(&self.sizes, runs[2]));
        writer.write_there(named.next, runs[3], self.sizes.blocks.saturating_sub(2))?;
        named.take(blocks_for(&self.sizes, runs[3]));
        let top = Top {
            number: 7,
            epoch: 3,
            epochs: if self.lists.frozen == 0 { 1 } else { 2 },
            runs: [
                u32::from(runs[0]),
                u32::from(runs[1]),
                u32::from(runs[2]),
                u32::from(runs[3]),
            ],
            blocks: named.blocks(),
        };
        put_root(&mut writer.page, &self.sizes, &top);
        writer.write_pair(0, 0)?;
        Ok(())
    }

    /// The data of a List: the keys of run 4 but for those that the newest epoch deletes, and one
    /// more if it was stored.
    pub fn keys_listed(&self, alloc: Global, stored: Option<u16>) -> Result<Vec<u8>, Fail> {
        let mut data = Vec::new(alloc);
        let there = u32::from(self.lists.runs[3].saturating_sub(self.lists.active));
        let more = if stored.is_some() { 1 } else { 0 };
        add(&mut data, &there.saturating_add(more).to_le_bytes())?;
        for i in self.lists.active..self.lists.runs[3] {
            add_key(&mut data, FIRST_THERE.saturating_add(i))?;
        }
        if let Some(key) = stored {
            add_key(&mut data, key)?;
        }
        Ok(data)
    }
}

fn add_key(data: &mut Vec<u8>, number: u16) -> Result<(), Fail> {
    let key = key_of(number);
    add(data, &[2, 0, key[0], key[1]])
}

// ---- what roots change

impl Lists {
    /// After this many more roots, of the merges into levels 4, 3, 2 and 1 if there is an older
    /// epoch, and of the freeze.
    pub fn behind(&self, roots: usize) -> Lists {
        let mut lists = *self;
        let mut left = roots;
        if self.frozen > 0 {
            lists.merge(roots.min(4));
            left = roots.saturating_sub(4);
        }
        if left > 0 {
            lists.frozen = lists.active;
            lists.active = 0;
        }
        lists
    }

    /// What exists with these lists: if a key was stored, it is the only entry of the newest epoch.
    pub fn with_stored(&self, stored: Option<u16>) -> Wanted {
        let mut lists = *self;
        if stored.is_some() {
            lists.active = 1;
        }
        Wanted { lists, stored }
    }

    // This many of the four merges are made. All that run 3 has are deleted keys.
    fn merge(&mut self, merges: usize) {
        if merges >= 1 {
            self.runs[2] = 0;
        }
        if merges >= 2 {
            self.runs[2] = self.runs[1];
            self.runs[1] = 0;
        }
        if merges >= 3 {
            self.runs[1] = self.runs[0];
            self.runs[0] = 0;
        }
        if merges >= 4 {
            self.runs[0] = self.frozen;
            self.frozen = 0;
        }
    }
}

// ---- cuts

/// Some ways in which this mark is interrupted, and one at a post.
pub fn ways(alloc: Global, flash: &Flash, k: usize) -> Result<Vec<Left>, Fail> {
    let mut ways = few_ways(alloc, flash, k)?;
    if ways.is_empty() {
        ways.push(Left::Untouched)?;
    }
    Ok(ways)
}

// Whether this mark programs the first page of a pair of the root blocks.
fn is_root(mark: &Mark, sizes: &Sizes) -> bool {
    match mark {
        Mark::Program { page, .. } => {
            *page % 2 == 0 && *page < u32::from(sizes.block_pages).saturating_mul(2)
        }
        _ => false,
    }
}

/// Whether the pair is there whose first page is programmed by the mark with number i and whose
/// second page by the next mark, if the marks are cut at the one with number k, which leaves this.
pub fn is_pair_there(i: usize, k: usize, left: &Left) -> bool {
    if k == i {
        return matches!(left, Left::Done);
    }
    i < k && (k != i + 1 || keeps_pair(left))
}

/// How many roots are there after such a cut.
pub fn roots_behind(flash: &Flash, sizes: &Sizes, k: usize, left: &Left) -> usize {
    let mut roots = 0usize;
    for i in 0..flash.marks() {
        if is_root(flash.mark(i), sizes) && is_pair_there(i, k, left) {
            roots = roots.saturating_add(1);
        }
    }
    roots
}

/// How many roots are programmed in all.
pub fn roots_of(flash: &Flash, sizes: &Sizes) -> usize {
    roots_behind(flash, sizes, flash.marks(), &Left::Untouched)
}
