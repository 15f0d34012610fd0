//! The entries of the next output page.
ghost use Rattle.std.specs.Prelude.{◌≡◌, ◌<◌, ◌≤◌, ◌==◌, ◌++◌, ◌∷◌, [], length, not, is_some, IfOk};
ghost use Rattle.pk_base.specs.Shape.{IsShape, page_entries};
ghost use Rattle.pk_base.specs.EntryBytes.{entry_at};
ghost use Rattle.pk_meta.specs.Cells.{IsCell};
ghost use Rattle.pk_meta.specs.Over.{kept_at};
ghost use Rattle.pk_meta.specs.Page.{meta_bytes};

use pk_base::{ENTRY_BYTES, HEAD_BYTES, LEVELS, PUT_KIND, Shape};
use pk_meta::complete;
use std::alloc::{AllocError, Allocator};
use std::marker::Model;

/// At most the entries of a page, by their bytes in it: how many there are, and the page that is
/// being filled.
#[derive(Drop)]
pub struct Gathered<A: Allocator> {
    shape: Shape,
    count: u32,
    page: Vec<u8, A>,
}

impl<A: Allocator> Model for Gathered<A> {
    ghost use Rattle.pk_base.specs.declared.sizes.TheConstants.{HEAD_BYTES};
    ghost use Rattle.pk_base.specs.EntryBytes.{entries_from};
    ghost use Rattle.pk_merge.specs.Gathering as spec;

    ghost Value = { spec.Gathered };

    ghost view = { λ g. record {
      shape = g.shape;
      entries = entries_from HEAD_BYTES g.count g.page.items;
      page = g.page.items;
    } };

    ghost invariant = { λ g. spec.HasGathered g.shape g.count g.page.items };
}

impl<A: Allocator> Gathered<A> {
    /// None, with room for a page of them.
    pub fn new(alloc: A, shape: Shape) -> Result<Gathered<A>, AllocError>
        ensures { IfOk result (λ g. (g.shape ≡ shape) × (g.entries ≡ [])) }
    {
        let page = Vec::from_elem(alloc, 0u8, shape.page_bytes() as usize)?;
        Ok(Gathered {
            shape,
            count: 0,
            page,
        })
    }

    /// Does nothing: brings the invariant of the list into a proof.
    pub fn known(&self)
        ensures { IsShape self.now.shape }
    {
        self.shape.known();
    }

    /// How many there are.
    pub fn len(&self) -> u32
        ensures { result ≡ length self.now.entries }
    {
        self.count
    }

    /// The page that is being filled.
    pub fn bytes(&self) -> &[u8]
        ensures value { result.now ≡ self.now.page }
        ensures len { length self.now.page ≡ self.now.shape.page_bytes }
    {
        self.page.as_slice()
    }

    /// Whether a page of them is full.
    pub fn is_full(&self) -> bool
        ensures full { result ≡ (length self.now.entries == page_entries self.now.shape) }
        ensures bound { length self.now.entries ≤ page_entries self.now.shape }
        ensures room { 0 < page_entries self.now.shape }
    {
        self.shape.known();
        self.count == self.shape.entries()
    }

    /// Whether there is none.
    pub fn is_empty(&self) -> bool
        ensures { result ≡ (length self.now.entries == 0) }
    {
        self.count == 0
    }

    /// Adds the entry of these bytes after the others, but for a deleted key if the output is the
    /// deepest run.
    pub fn keep(&mut self, level: u8, cell: &[u8])
        requires room { length self.old.entries < page_entries self.old.shape }
        requires cell { IsCell cell.now }
        ensures entries { self.new.entries
            ≡ self.old.entries ++ kept_at level (entry_at cell.now ∷ []) }
        ensures shape { self.new.shape ≡ self.old.shape }
    {
        if level == LEVELS && is_gone(cell) {
            return;
        }
        self.push(cell);
    }

    // Copies the bytes of an entry after those of the others.
    fn push(&mut self, cell: &[u8])
        requires room { length self.old.entries < page_entries self.old.shape }
        requires cell { IsCell cell.now }
        ensures entries { self.new.entries ≡ self.old.entries ++ entry_at cell.now ∷ [] }
        ensures shape { self.new.shape ≡ self.old.shape }
    {
        self.shape.known();
        let at = HEAD_BYTES + ENTRY_BYTES * self.count as usize;
        self.page[at..at + ENTRY_BYTES].copy_from_slice(cell);
        self.count += 1;
    }

    /// Makes the page that holds them.
    pub fn complete(&mut self, level: u8, index: u32)
        ensures page { self.new.page ≡ meta_bytes self.old.shape level index self.old.entries }
        ensures entries { self.new.entries ≡ self.old.entries }
        ensures shape { self.new.shape ≡ self.old.shape }
    {
        self.shape.known();
        complete(&self.shape, level, index, self.count, &mut self.page);
    }

    /// Takes all of them out.
    pub fn clear(&mut self)
        ensures entries { self.new.entries ≡ [] }
        ensures shape { self.new.shape ≡ self.old.shape }
    {
        self.count = 0;
    }
}

// Whether these are the bytes of an entry of a deleted key.
fn is_gone(cell: &[u8]) -> bool
    requires { IsCell cell.now }
    ensures { result ≡ not (is_some (entry_at cell.now).1) }
{
    cell[1] != PUT_KIND
}
