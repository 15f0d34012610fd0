//! A cursor for each of the four runs.
ghost use Rattle.std.specs.List.{AllByRecursion};
ghost use Rattle.std.specs.Prelude.{◌≡◌, List, length, option_map, IfOk, IfErr, OnErr, OnOk};
ghost use Rattle.pk_base.specs.Entry.{Entry as EntrySpec};
ghost use Rattle.pk_base.specs.declared.sizes.TheConstants.{LEVELS};
ghost use Rattle.pk_base.specs.Seen.{entry as seen};
ghost use Rattle.pk_nand.specs.Calls.{IsReady};
ghost use Rattle.pk_nand.specs.declared.types.Fault.TheVariants.{Reading};
ghost use Rattle.pk_level.specs.Levels.{RunsOnFlash};
ghost use Rattle.pk_walk.specs.Heads.{least_of};
ghost use Rattle.pk_walk.specs.Orders.{AreKept, AreOrdersOf, IsSettled};
ghost use Rattle.pk_walk.specs.Steps.{GoBehind, GoOn, ShowsEach, heads_in};
ghost use Rattle.pk_walk.specs.Visible.{behind_found};
ghost use Rattle.pk_walk.specs.Walking.{AreOfShape, FollowEach, ReadsFail, all_at_start, pages_read, seen_tops};

use crate::buffers::Tops;
use crate::cursor::Cursor;
use crate::orders::{KeptOrders, Orders, orders_of};
use crate::position::Position;
use crate::seek::seek;
use pk_base::{Entry, Shape};
use pk_level::Levels;
use pk_nand::{Fault, Nand};
use pk_pin::PinArena;
use std::alloc::{AllocError, Allocator};
use std::marker::Model;

/// The cursors of runs 1 to 4. Contracts see the list of them.
#[derive(Drop)]
pub struct Cursors<A: Allocator> {
    first: Cursor<A>,
    second: Cursor<A>,
    third: Cursor<A>,
    fourth: Cursor<A>,
}

impl<A: Allocator> Model for Cursors<A> {
    ghost use Rattle.std.specs.Prelude.{List, [], ◌∷◌};
    ghost use Rattle.pk_walk.specs.Walking as spec;

    ghost Value = { List spec.Cursor };

    ghost view = { λ c. c.first ∷ c.second ∷ c.third ∷ c.fourth ∷ [] };
}

impl<A: Allocator + Clone> Cursors<A> {
    /// Four cursors before all entries. Their memory, four pages' bytes, is taken here.
    pub fn new(alloc: A, shape: Shape) -> Result<Cursors<A>, AllocError>
        ensures shape { IfOk result (λ cs. AreOfShape shape cs) }
        ensures start { IfOk result (λ cs. cs ≡ all_at_start cs) }
    {
        let first = Cursor::new(alloc.clone()?, shape)?;
        let second = Cursor::new(alloc.clone()?, shape)?;
        let third = Cursor::new(alloc.clone()?, shape)?;
        let fourth = Cursor::new(alloc, shape)?;
        Ok(Cursors {
            first,
            second,
            third,
            fourth,
        })
    }
}

impl<A: Allocator> Cursors<A> {
    /// There are four.
    pub fn known(&self)
        ensures { length self.now ≡ LEVELS }
    {
        let _ = &self.first;
    }

    /// Goes back before all entries.
    pub fn restart(&mut self)
        ensures { self.new ≡ all_at_start self.old }
    {
        self.first.restart();
        self.second.restart();
        self.third.restart();
        self.fourth.restart();
    }

    /// Knows the first wanted entry of each run. `Reading` if a read fails; otherwise nothing
    /// fails.
    #[inline(always)]
    pub fn seek<B: Nand>(
        &mut self,
        board: &mut B,
        arena: &PinArena<A>,
        levels: &Levels<A>,
        position: &Position,
    ) -> Result<(), Fault>
        requires ready { IsReady (B.state board.old) levels.now.shape }
        requires shape { AreOfShape levels.now.shape self.old }
        requires follow { (ess : List (List EntrySpec))
            × RunsOnFlash (B.state board.old).pages arena.now levels.now.runs ess
            × FollowEach (B.state board.old).pages levels.now.runs ess position.now self.old }

        // The first wanted entries.
        ensures shows { OnOk result (ShowsEach levels.now.runs position.now
            (B.state board.old) (B.state board.new) self.old self.new) }

        // The cursors go on in any case, and only a read fails.
        ensures go_on { GoOn (B.state board.old).pages arena.now levels.now.shape
            levels.now.runs position.now self.old self.new }
        ensures reading { IfErr result (λ fault. fault ≡ Reading) }
        ensures err { OnErr result (ReadsFail (pages_read levels.now.runs self.old)
            (pages_read levels.now.runs self.new) (B.state board.old) (B.state board.new)) }

        // The flash is unchanged.
        ensures same { (B.state board.new).pages ≡ (B.state board.old).pages }
        ensures ready { IsReady (B.state board.new) levels.now.shape }
    {
        levels.known();
        match seek(&mut self.first, board, arena, levels.run(1), position) {
            Ok(()) => {}
            Err(fault) => return Err(fault),
        }
        match seek(&mut self.second, board, arena, levels.run(2), position) {
            Ok(()) => {}
            Err(fault) => return Err(fault),
        }
        match seek(&mut self.third, board, arena, levels.run(3), position) {
            Ok(()) => {}
            Err(fault) => return Err(fault),
        }
        match seek(&mut self.fourth, board, arena, levels.run(4), position) {
            Ok(()) => {}
            Err(fault) => return Err(fault),
        }
        Ok(())
    }

    /// How the entries that are known compare with each other.
    #[inline(always)]
    fn orders(&self, tops: &Tops, kept: &KeptOrders) -> Orders
        requires { AreKept (seen_tops tops.now) self.now kept.now }
        ensures { AreOrdersOf (heads_in (seen_tops tops.now) self.now) result }
    {
        orders_of(
            kept,
            &tops.active.head,
            &tops.frozen.head,
            self.first.head(),
            self.second.head(),
            self.third.head(),
            self.fourth.head(),
        )
    }

    /// Returns the least of the entries, which are known, moves the position past it, and drops the
    /// others of its key: of one key the first counts. None if there is none.
    #[inline(always)]
    pub fn take_least(
        &mut self,
        tops: &mut Tops,
        kept: &mut KeptOrders,
        position: &mut Position,
    ) -> Option<Entry>
        requires kept { AreKept (seen_tops tops.old) self.old kept.old }
        requires settled { AllByRecursion IsSettled (heads_in (seen_tops tops.old) self.old) }

        // The least one; the cursors and buffers that had its key have to look for their next.
        ensures least { option_map seen result ≡ least_of (heads_in (seen_tops tops.old) self.old) }
        ensures behind { GoBehind (option_map seen result) (seen_tops tops.old) self.old
            (seen_tops tops.new) self.new }
        ensures four { length self.new ≡ LEVELS }

        // What is kept of the orders of the others, and the position after it.
        ensures kept { AreKept (seen_tops tops.new) self.new kept.new }
        ensures passed { position.new ≡ behind_found (option_map seen result) position.old }
    {
        let orders = self.orders(tops, kept);
        if orders.fourth.is_gt() {
            *kept = orders.before_fourth();
            self.fourth.lead(position);
            return self.fourth.take();
        }
        self.fourth.pass(orders.fourth);
        if orders.third.is_gt() {
            *kept = orders.before_third();
            self.third.lead(position);
            return self.third.take();
        }
        self.third.pass(orders.third);
        if orders.second.is_gt() {
            *kept = orders.before_second();
            self.second.lead(position);
            return self.second.take();
        }
        self.second.pass(orders.second);
        if orders.first.is_gt() {
            *kept = orders.before_first();
            self.first.lead(position);
            return self.first.take();
        }
        self.first.pass(orders.first);
        *kept = KeptOrders::none();
        if orders.frozen.is_gt() {
            tops.frozen.head.lead(position);
            return tops.frozen.head.take();
        }
        tops.frozen.head.pass(orders.frozen);
        tops.active.head.lead(position);
        tops.active.head.take()
    }
}
