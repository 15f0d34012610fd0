//! The pool.
ghost use Rattle.std.specs.Prelude.{◌≡◌, ℕ, ◌+◌, ◌*◌, ◌<◌, ◌≤◌, ◌⊎◌, count_by, length, map, slice_get, nat_lt, Some, IfOk, IfErr, OnOk, OnErr, MatchOption, MatchBool};
ghost use Rattle.pk_base.specs.Page.{Flash};
ghost use Rattle.pk_plan.specs.Quotas.{quota_of};
ghost use Rattle.pk_plan.specs.declared.owner.Owner.{Owner};
ghost use Rattle.pk_nand.specs.Calls.{IsReady};
ghost use Rattle.pk_nand.specs.Operations.{IsErasedBlock};
ghost use Rattle.pk_nand.specs.declared.types.Fault.TheVariants.{Stopped};
ghost use Rattle.pk_pool.specs.declared.state.BlockState.TheVariants.{Free, Ready, Owned, Leaving};
ghost use Rattle.pk_pool.specs.Blocks as spec;
ghost use Rattle.pk_pool.specs.Blocks.{is_ready, used_by, unused, with_state, freed, IsOwned, IsLeaving, IsSpare, NoneLeaves, IsShared, IsLowest, IsNowhere, PoolOnFlash};
ghost use Rattle.pk_pool.specs.Unready.{unready};
ghost use Rattle.pk_pool.specs.Taking.{ReachesIn, TakesReady, ErasesFree, FailsToErase, ErasesOne, ErasesNone};

use crate::state::BlockState;
use pk_base::MOST_BLOCKS;
use pk_nand::{Fault, Nand};
use pk_plan::{Owner, Plan};
use std::alloc::{AllocError, Allocator};
use std::marker::Model;

/// The blocks of a flash. Contracts see the shape and the state of each block.
#[derive(Drop)]
pub struct Pool<A: Allocator> {
    plan: Plan,
    states: Vec<BlockState, A>,
}

impl<A: Allocator> Model for Pool<A> {
    ghost use Rattle.pk_pool.specs.Blocks.{Blocks, IsShared};

    ghost Value = { Blocks };

    ghost view = { λ p. record { shape = p.plan; states = p.states.items } };

    ghost invariant = { λ p. IsShared p.plan p.states.items };
}

// The lowest-numbered block in this state.
fn lowest(states: &[BlockState], wanted: BlockState) -> Option<usize>
    ensures { MatchOption result (IsNowhere wanted states.now) (λ b. IsLowest wanted states.now b) }
{
    for (b, state) in states.iter().enumerate() {
        if *state == wanted {
            return Some(b);
        }
    }
    None
}

// Whether a block counts as the owner's.
fn is_owned_by(state: BlockState, owner: Owner) -> bool
    ensures { result ≡ spec.is_owned_by owner state }
{
    match state {
        BlockState::Owned(other) | BlockState::Leaving(other) => other == owner,
        _ => false,
    }
}

// How many blocks count as the owner's.
fn count_used(states: &[BlockState], owner: Owner) -> u32
    requires { length states.now ≤ MOST_BLOCKS }
    ensures { result ≡ used_by owner states.now }
{
    let mut count = 0;
    for state in states {
        if is_owned_by(*state, owner) {
            count += 1;
        }
    }
    count
}

// How many free blocks were erased in this session.
fn count_ready(states: &[BlockState]) -> u32
    requires { length states.now ≤ MOST_BLOCKS }
    ensures { result ≡ count_by is_ready states.now }
{
    let mut count = 0;
    for state in states {
        if *state == BlockState::Ready {
            count += 1;
        }
    }
    count
}

// What a block is if those that leave are freed.
fn freed_state(state: BlockState) -> BlockState
    ensures { result ≡ spec.freed_state state }
{
    match state {
        BlockState::Leaving(_) => BlockState::Free,
        other => other,
    }
}

// Frees every block that leaves.
fn release<A: Allocator>(states: &mut Vec<BlockState, A>)
    ensures { states.new.items ≡ map spec.freed_state states.old.items }
{
    for state in states.iter_mut() {
        *state = freed_state(*state);
    }
}

impl<A: Allocator> Pool<A> {
    /// All blocks after the root blocks are free, and none is erased. All memory of the pool is
    /// taken here.
    pub fn new(alloc: A, plan: Plan) -> Result<Pool<A>, AllocError>
        ensures unused { IfOk result (λ p. p ≡ unused plan) }
        ensures whole { IfOk result (λ p. NoneLeaves p) }
        ensures fits { IfOk result (λ p. (flash : Flash) → PoolOnFlash p flash) }
    {
        plan.known();
        let blocks = plan.shape().blocks() as usize;
        let mut states = Vec::from_elem(alloc, BlockState::Free, blocks)?;
        states[0] = BlockState::Root;
        states[1] = BlockState::Root;
        Ok(Pool { plan, states })
    }

    /// Does nothing: brings the invariant of the pool into a proof.
    pub fn known(&self)
        ensures { IsShared self.now.shape self.now.states }
    {
        let _ = &self.states;
    }

    /// Makes a free block the owner's, as it is found at opening.
    pub fn adopt(&mut self, block: u32, owner: Owner)
        requires free { IsSpare self.old block }
        requires below { used_by owner self.old.states < quota_of self.old.shape owner }
        ensures adopted { self.new ≡ with_state self.old block (Owned owner) }
        ensures counted { used_by owner self.new.states ≡ used_by owner self.old.states + 1 }
        ensures fits { (flash : Flash) → PoolOnFlash self.old flash → PoolOnFlash self.new flash }
    {
        self.states[block as usize] = BlockState::Owned(owner);
    }

    /// Allocates a block whose pages are all Erased: the lowest-numbered one that was erased in
    /// this session, otherwise the lowest-numbered free one, which is erased now by the one flash
    /// operation. `Stopped` if this operation fails; the pool is as before then.
    pub fn take<B: Nand>(&mut self, board: &mut B, owner: Owner) -> Result<u32, Fault>
        requires below { used_by owner self.old.states < quota_of self.old.shape owner }
        requires ready { IsReady (B.state board.old) self.old.shape }
        requires fits { PoolOnFlash self.old (B.state board.old).pages }

        // The block that was taken, and how.
        ensures choice { IfOk result (λ b. TakesReady self.old (B.state board.old) b
            (B.state board.new) ⊎ ErasesFree self.old (B.state board.old) b (B.state board.new)) }
        ensures spare { IfOk result (λ b. IsSpare self.old b) }
        ensures place { IfOk result (λ b. 2 ≤ b × b < self.old.shape.blocks) }
        ensures taken { IfOk result (λ b. self.new ≡ with_state self.old b (Owned owner)) }
        ensures counted { OnOk result
            (used_by owner self.new.states ≡ used_by owner self.old.states + 1) }
        ensures owned { IfOk result (λ b. slice_get self.new.states b ≡ Some (Owned owner)) }
        ensures shape { self.new.shape ≡ self.old.shape }
        ensures erased { IfOk result
            (λ b. IsErasedBlock self.old.shape (B.state board.new).pages b) }
        ensures cuts { IfOk result
            (λ b. ReachesIn self.old.shape b (B.state board.old) (B.state board.new)) }

        // The erase failed, and no block was ready.
        ensures stopped { IfErr result (λ e. e ≡ Stopped) }
        ensures none_ready { OnErr result (IsNowhere Ready self.old.states) }
        ensures failed { OnErr result
            (FailsToErase self.old (B.state board.old) (B.state board.new)) }
        ensures kept { OnErr result (self.new ≡ self.old) }

        // Either way the pool and the flash agree.
        ensures ready { IsReady (B.state board.new) self.new.shape }
        ensures fits { PoolOnFlash self.new (B.state board.new).pages }
    {
        match lowest(&self.states, BlockState::Ready) {
            Some(b) => {
                self.states[b] = BlockState::Owned(owner);
                Ok(b as u32)
            }
            None => match lowest(&self.states, BlockState::Free) {
                Some(b) => match board.erase(b as u32) {
                    Ok(()) => {
                        self.states[b] = BlockState::Owned(owner);
                        Ok(b as u32)
                    }
                    Err(_) => Err(Fault::Stopped),
                },
                None => unreachable!(),
            },
        }
    }

    /// Gives a block back. It is free, and counts as not erased.
    pub fn give(&mut self, block: u32)
        requires { IsOwned self.old block }
        ensures given { self.new ≡ with_state self.old block Free }
        ensures counted { (o : Owner) → slice_get self.old.states block ≡ Some (Owned o)
            → used_by o self.new.states + 1 ≡ used_by o self.old.states }
        ensures fits { (flash : Flash) → PoolOnFlash self.old flash → PoolOnFlash self.new flash }
    {
        self.states[block as usize] = BlockState::Free;
    }

    /// Makes a block leave its owner: it still counts as the owner's, and is not allocated until
    /// `free_left`.
    pub fn leave(&mut self, block: u32)
        requires { IsOwned self.old block }
        ensures left { (o : Owner) → slice_get self.old.states block ≡ Some (Owned o)
            → self.new ≡ with_state self.old block (Leaving o) }
        ensures freed { freed self.new ≡ with_state (freed self.old) block Free }
        ensures unready { unready self.new.states ≡ unready self.old.states }
        ensures counted { (o : Owner) → used_by o self.new.states ≡ used_by o self.old.states }
        ensures fits { (flash : Flash) → PoolOnFlash self.old flash → PoolOnFlash self.new flash }
    {
        match self.states[block as usize] {
            BlockState::Owned(owner) => self.states[block as usize] = BlockState::Leaving(owner),
            _ => unreachable!(),
        }
    }

    /// Frees every block that leaves. They count as not erased.
    pub fn free_left(&mut self)
        ensures freed { self.new ≡ freed self.old }
        ensures none { NoneLeaves self.new }
        ensures counted { (o : Owner) → used_by o self.new.states ≤ used_by o self.old.states }
        ensures fits { (flash : Flash) → PoolOnFlash self.old flash → PoolOnFlash self.new flash }
    {
        release(&mut self.states);
    }

    /// Erases the lowest-numbered free block that was not erased in this session, by one flash
    /// operation; false exactly if there is none. `Stopped` if this operation fails; the pool is as
    /// before then.
    pub fn erase_one<B: Nand>(&mut self, board: &mut B) -> Result<bool, Fault>
        requires ready { IsReady (B.state board.old) self.old.shape }
        requires fits { PoolOnFlash self.old (B.state board.old).pages }

        // A block was erased, or there was none.
        ensures cases { IfOk result (λ erased. MatchBool erased
            (ErasesOne self.old (B.state board.old) self.new (B.state board.new))
            (ErasesNone self.old (B.state board.old) self.new (B.state board.new))) }

        // The erase failed.
        ensures stopped { IfErr result (λ e. e ≡ Stopped) }
        ensures failed { OnErr result
            (FailsToErase self.old (B.state board.old) (B.state board.new)) }
        ensures kept { OnErr result (self.new ≡ self.old) }

        // Either way the pool and the flash agree.
        ensures ready { IsReady (B.state board.new) self.new.shape }
        ensures shape { self.new.shape ≡ self.old.shape }
        ensures owned { (b : ℕ) → IsOwned self.old b
            → slice_get self.new.states b ≡ slice_get self.old.states b }
        ensures fits { PoolOnFlash self.new (B.state board.new).pages }
    {
        match lowest(&self.states, BlockState::Free) {
            None => Ok(false),
            Some(b) => match board.erase(b as u32) {
                Ok(()) => {
                    self.states[b] = BlockState::Ready;
                    Ok(true)
                }
                Err(_) => Err(Fault::Stopped),
            },
        }
    }

    /// Whether the owner may have another block.
    pub fn has_room(&self, owner: Owner) -> bool
        ensures { result ≡ nat_lt (used_by owner self.now.states) (quota_of self.now.shape owner) }
    {
        self.used(owner) < self.plan.quota(owner)
    }

    /// How many blocks there are.
    pub fn blocks(&self) -> u32
        ensures { result ≡ self.now.shape.blocks }
    {
        self.plan.shape().blocks()
    }

    /// What a block is; None past the last one.
    pub fn state(&self, block: u32) -> Option<BlockState>
        ensures { result ≡ slice_get self.now.states block }
    {
        self.states.get(block as usize).copied()
    }

    /// How many blocks the owner has, those that leave included.
    pub fn used(&self, owner: Owner) -> u32
        ensures value { result ≡ used_by owner self.now.states }
        ensures most { result ≤ quota_of self.now.shape owner }
    {
        count_used(&self.states, owner)
    }

    /// How many free blocks were erased in this session.
    pub fn ready(&self) -> u32
        ensures { result ≡ count_by is_ready self.now.states }
    {
        count_ready(&self.states)
    }
}
