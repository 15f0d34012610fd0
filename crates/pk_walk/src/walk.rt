//! The walk itself.
ghost use Rattle.std.specs.Prelude.{◌≡◌, ◌≤◌, ◌∷◌, List, length, None, IfOk, IfErr, OnOk, OnErr};
ghost use Rattle.std.specs.Option.{option_copied};
ghost use Rattle.pk_base.specs.Entry.{Entry as EntrySpec, Place};
ghost use Rattle.pk_base.specs.Key.{Key as KeySpec};
ghost use Rattle.pk_base.specs.Page.{Flash};
ghost use Rattle.pk_nand.specs.Calls.{IsReady};
ghost use Rattle.pk_nand.specs.declared.types.Fault.TheVariants.{Reading};
ghost use Rattle.pk_pin.specs.Frames.{Frames};
ghost use Rattle.pk_run.specs.Kept.{Kept};
ghost use Rattle.pk_level.specs.Levels.{RunsOnFlash};
ghost use Rattle.pk_walk.specs.declared.position.Position.TheVariants.{First};
ghost use Rattle.pk_walk.specs.Steps.{AreKnown, Comes, GoOn, ShowsEach, WalksOn};
ghost use Rattle.pk_walk.specs.Visible.{is_wanted, visible, wanted};
ghost use Rattle.pk_walk.specs.Walking.{FollowEach, WalkGives, IsLeft, IsWalk, Reads, ReadsAll, ReadsFail, ShowBoth, SkipsNone, AreOfShape, walk_begun, first_position, most_read, pages_read, seen_tops};

use crate::buffers::Tops;
use crate::cursors::Cursors;
use crate::orders::KeptOrders;
use crate::position::Position;
use pk_base::{Entry, Key, Shape};
use pk_buf::Buffer;
use pk_level::Levels;
use pk_nand::{Fault, Nand};
use pk_pin::PinArena;
use pk_region::Region;
use std::alloc::AllocError;
use std::marker::Model;

/// A walk over the keys that exist. Contracts see its position and its cursors, and `IsLeft` says which keys it has still to
/// give.
pub struct Walk<A: Region> {
    shape: Shape,
    position: Position,
    cursors: Cursors<A>,
    tops: Tops,
    orders: KeptOrders,
}

// Written out, so that whoever drops one meets a call, and not the drops of all its parts.
impl<A: Region> Drop for Walk<A> {
    fn drop(self) {
        let Walk {
            shape: _,
            position: _,
            cursors: _,
            tops: _,
            orders: _,
        } = self;
    }
}

impl<A: Region> Model for Walk<A> {
    ghost use Rattle.pk_walk.specs.Walking as spec;
    ghost use Rattle.pk_walk.specs.Orders.{AreKept};
    ghost use Rattle.pk_walk.specs.Walking.{IsWalk, seen_tops};

    ghost Value = { spec.Walk };

    ghost view = { λ w. record {
      shape = w.shape;
      position = w.position;
      tops = seen_tops w.tops;
      cursors = w.cursors;
    } };

    ghost invariant = { λ w. IsWalk (record {
      shape = w.shape;
      position = w.position;
      tops = seen_tops w.tops;
      cursors = w.cursors;
    }) × AreKept (seen_tops w.tops) w.cursors w.orders };
}

impl<A: Region> Walk<A> {
    /// A walk that is at the first key of all. All its memory is taken here: the bytes of four pages.
    pub fn new(alloc: A, shape: Shape) -> Result<Walk<A>, AllocError>
        ensures shape { IfOk result (λ w. w.shape ≡ shape) }
        ensures walk_begun { IfOk result (λ w. w ≡ walk_begun w First) }
        ensures left { IfOk result (λ w. (flash : Flash) (arena : Frames) (runs : List Kept)
            (active frozen : List EntrySpec) (ess : List (List EntrySpec))
            → RunsOnFlash flash arena runs ess
            → IsLeft w flash arena runs active frozen (visible (active ∷ frozen ∷ ess))) }
        ensures none_read { IfOk result (λ w. (runs : List Kept) → pages_read runs w.cursors ≡ 0) }
        ensures skips_none { IfOk result (λ w. SkipsNone w) }
    {
        let cursors = Cursors::new(alloc, shape)?;
        cursors.known();
        Ok(Walk {
            shape,
            position: Position::First,
            cursors,
            tops: Tops::new(),
            orders: KeptOrders::none(),
        })
    }

    /// Does nothing: brings the invariant of the walk into a proof.
    pub fn known(&self)
        ensures { IsWalk self.now }
    {
        let _ = &self.shape;
    }

    /// Begins a walk at the first key that is not below this one, or at the first of all.
    pub fn start(&mut self, from: Option<&Key>)
        ensures walk_begun { self.new ≡ walk_begun self.old
            (first_position (option_copied from.entry)) }
        ensures left { (flash : Flash) (arena : Frames) (runs : List Kept)
            (active frozen : List EntrySpec) (ess : List (List EntrySpec))
            → RunsOnFlash flash arena runs ess
            → IsLeft self.new flash arena runs active frozen
            (wanted (is_wanted self.new.position) (visible (active ∷ frozen ∷ ess))) }
        ensures none_read { (runs : List Kept) → pages_read runs self.new.cursors ≡ 0 }
        ensures skips_none { option_copied from.entry ≡ None → SkipsNone self.new }
    {
        self.cursors.restart();
        self.tops = Tops::new();
        self.orders = KeptOrders::none();
        match from {
            Some(key) => {
                self.position = Position::From(key.copy());
            }
            None => {
                self.position = Position::First;
            }
        }
    }

    // Comes to the next entry that counts, also to one of a deleted key; None after the last.
    // Inlined into the callers, as is all that it calls for a key whose page is there: then an
    // entry is moved least on its way out.
    #[inline(always)]
    fn step<B: Nand>(
        &mut self,
        board: &mut B,
        arena: &PinArena<A>,
        levels: &Levels<A>,
        active: &Buffer<A>,
        frozen: &Buffer<A>,
    ) -> Result<Option<Entry>, Fault>
        requires ready { IsReady (B.state board.old) levels.now.shape }
        requires shape { self.old.shape ≡ levels.now.shape }
        requires follow { (ess : List (List EntrySpec))
            × RunsOnFlash (B.state board.old).pages arena.now levels.now.runs ess
            × FollowEach (B.state board.old).pages levels.now.runs ess self.old.position
            self.old.cursors }
        requires tops { ShowBoth active.now.entries frozen.now.entries self.old.position
            self.old.tops }

        // The next entry.
        ensures comes { IfOk result (λ found. Comes levels.now.runs arena.now
            active.now.entries frozen.now.entries (B.state board.old) (B.state board.new)
            self.old self.new found) }

        // The walk goes on in any case, and only a read fails.
        ensures walks_on { WalksOn (B.state board.old).pages arena.now levels.now.runs
            active.now.entries frozen.now.entries self.old self.new }
        ensures reading { IfErr result (λ fault. fault ≡ Reading) }
        ensures fails { OnErr result ((self.new.position ≡ self.old.position)
            × ReadsFail (pages_read levels.now.runs self.old.cursors)
            (pages_read levels.now.runs self.new.cursors) (B.state board.old) (B.state board.new)) }

        // The flash is unchanged.
        ensures same { (B.state board.new).pages ≡ (B.state board.old).pages }
        ensures ready { IsReady (B.state board.new) levels.now.shape }
    {
        levels.known();
        let _ = active.len();
        let _ = frozen.len();
        match know_all(
            &mut self.cursors,
            &mut self.tops,
            &self.position,
            board,
            arena,
            levels,
            &Buffers { active, frozen },
        ) {
            Ok(()) => Ok(
                self.cursors
                    .take_least(&mut self.tops, &mut self.orders, &mut self.position),
            ),
            Err(fault) => {
                self.orders = KeptOrders::none();
                Err(fault)
            }
        }
    }

    /// The next key that exists, as its entry with the place of the value; None exactly after the
    /// last. `Reading` if a read fails, and the same call may be made again then; otherwise nothing
    /// fails.
    ///
    /// The parts are as at the first call since the start. A page of a run without frames is read
    /// when the walk reaches it, and not again; a walk that began at the first key has read each of
    /// them once after its last key.
    #[inline(always)]
    pub fn next<B: Nand>(
        &mut self,
        board: &mut B,
        arena: &PinArena<A>,
        levels: &Levels<A>,
        active: &Buffer<A>,
        frozen: &Buffer<A>,
    ) -> Result<Option<Entry>, Fault>
        requires ready { IsReady (B.state board.old) levels.now.shape }
        requires shape { self.old.shape ≡ levels.now.shape }
        requires left { (rest : List (KeySpec × Place))
            × IsLeft self.old (B.state board.old).pages arena.now levels.now.runs active.now.entries
            frozen.now.entries rest }

        // The next key that exists.
        ensures gives { IfOk result (λ found. (rest : List (KeySpec × Place))
            → IsLeft self.old (B.state board.old).pages arena.now levels.now.runs active.now.entries
            frozen.now.entries rest → (later : List (KeySpec × Place)) × WalkGives found rest later
            × IsLeft self.new (B.state board.new).pages arena.now levels.now.runs active.now.entries
            frozen.now.entries later) }

        // Or a read failed, and it is still to come.
        ensures kept { OnErr result ((rest : List (KeySpec × Place))
            → IsLeft self.old (B.state board.old).pages arena.now levels.now.runs active.now.entries
            frozen.now.entries rest
            → IsLeft self.new (B.state board.new).pages arena.now levels.now.runs active.now.entries
            frozen.now.entries rest) }

        // How many pages are read, from the first key to the last.
        ensures shape { self.new.shape ≡ self.old.shape }
        ensures reads { OnOk result (Reads (pages_read levels.now.runs self.old.cursors)
            (pages_read levels.now.runs self.new.cursors) (B.state board.old) (B.state board.new)) }
        ensures few { pages_read levels.now.runs self.new.cursors ≤ most_read levels.now.runs }
        ensures skips_none { SkipsNone self.old → SkipsNone self.new }
        ensures exact { OnOk result (SkipsNone self.old
            → ReadsAll (pages_read levels.now.runs self.old.cursors)
            (pages_read levels.now.runs self.new.cursors) (B.state board.old) (B.state board.new)) }
        ensures ended { IfOk result (λ found. found ≡ None → SkipsNone self.old
            → pages_read levels.now.runs self.new.cursors ≡ most_read levels.now.runs) }

        // Which fault, and that nothing but reads was done.
        ensures reading { IfErr result (λ fault. fault ≡ Reading) }
        ensures err { OnErr result (ReadsFail (pages_read levels.now.runs self.old.cursors)
            (pages_read levels.now.runs self.new.cursors) (B.state board.old) (B.state board.new)) }
        ensures rest { B.state board.new ≡ record (B.state board.old) {
          reads = (B.state board.new).reads;
          flash_faults = (B.state board.new).flash_faults;
          read_faults = (B.state board.new).read_faults;
          failed_at =
              (B.state board.new).failed_at;
        } }
        ensures same { (B.state board.new).pages ≡ (B.state board.old).pages }
        ensures ready { IsReady (B.state board.new) levels.now.shape }
    {
        loop {
            match self.step(board, arena, levels, active, frozen) {
                Ok(Some(entry)) => {
                    if entry.is_put() {
                        return Ok(Some(entry));
                    }
                }
                Ok(None) => return Ok(None),
                Err(fault) => return Err(fault),
            }
        }
    }
}

/// The two write buffers.
#[derive(Drop)]
struct Buffers<'a, A: Region> {
    active: &'a Buffer<A>,
    frozen: &'a Buffer<A>,
}

// Knows the first wanted entry of each buffer and of each run.
#[inline(always)]
fn know_all<A: Region, B: Nand>(
    cursors: &mut Cursors<A>,
    tops: &mut Tops,
    position: &Position,
    board: &mut B,
    arena: &PinArena<A>,
    levels: &Levels<A>,
    buffers: &Buffers<A>,
) -> Result<(), Fault>
    requires ready { IsReady (B.state board.old) levels.now.shape }
    requires shape { AreOfShape levels.now.shape cursors.old }
    requires follow { (ess : List (List EntrySpec))
        × RunsOnFlash (B.state board.old).pages arena.now levels.now.runs ess
        × FollowEach (B.state board.old).pages levels.now.runs ess position.now cursors.old }

    // The first wanted entries.
    ensures learns { OnOk result (ShowsEach levels.now.runs position.now
        (B.state board.old) (B.state board.new) cursors.old cursors.new
        × AreKnown buffers.now.active.now.entries buffers.now.frozen.now.entries position.now
        (seen_tops tops.old) (seen_tops tops.new)) }

    // The cursors go on in any case, and only a read fails.
    ensures go_on { GoOn (B.state board.old).pages arena.now levels.now.shape
        levels.now.runs position.now cursors.old cursors.new }
    ensures reading { IfErr result (λ fault. fault ≡ Reading) }
    ensures fails { OnErr result ((tops.new ≡ tops.old)
        × ReadsFail (pages_read levels.now.runs cursors.old)
        (pages_read levels.now.runs cursors.new) (B.state board.old) (B.state board.new)) }

    // The flash is unchanged.
    ensures same { (B.state board.new).pages ≡ (B.state board.old).pages }
    ensures ready { IsReady (B.state board.new) levels.now.shape }
    ensures four { length cursors.new ≡ 4 }
{
    match cursors.seek(board, arena, levels, position) {
        Ok(()) => {
            cursors.known();
            tops.frozen.seek(buffers.frozen, position);
            tops.active.seek(buffers.active, position);
            Ok(())
        }
        Err(fault) => {
            cursors.known();
            Err(fault)
        }
    }
}
