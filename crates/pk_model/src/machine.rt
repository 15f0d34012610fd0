//! The plain slow machine: what a drive without faults answers, over a map in memory. It is a yardstick for tests.
ghost use Rattle.std.specs.Prelude.{◌≡◌, ◌==◌, ◌≤◌, ◌<◌, ◌^◌, ◌/◌, ◌%◌, ◌⊎◌, ◌&&◌, ◌||◌, not, nat_le, ℕ, length, flat_map, ◌++◌, None, Some, IfOk, OnOk, OnErr, List, [], ◌∷◌};
ghost use Rattle.std.specs.FinMap.{empty, get, contains_key};
ghost use Rattle.pk_base.specs.Fields.{u32 as u32_bytes};
ghost use Rattle.pk_base.specs.Key.{space_of};
ghost use Rattle.pk_base.specs.Shape.{charge, limit};
ghost use Rattle.pk_base.specs.declared.sizes.TheConstants.{KEY_BYTES};
ghost use Rattle.pk_base.specs.Map.{pages_of, pages_if_some, live as live_of};
ghost use Rattle.std.specs.FinMap as map;
ghost use Rattle.pk_nvme.specs.Command.{command, key, IsWhole};
ghost use Rattle.pk_nvme.specs.Seen.{command_of};
ghost use Rattle.pk_model.specs.declared.machine.TheConstants.{SPACES};
ghost use Rattle.pk_model.specs.Answer.{early, success};
ghost use Rattle.pk_model.specs.Spaces.{in_space};
ghost use Rattle.pk_model.specs.Listing.{offered_all};
ghost use Rattle.pk_model.specs.Machine.{Machine, Answers, replied};

use crate::answer::Answer;
use crate::early::{early_fault, store_fault};
use crate::listing::Page;
use crate::table::Table;
use crate::value::Value;
use pk_base::{HEAD_BYTES, Key, Shape};
use pk_nvme::limits::{COUNT_BYTES, MOST_LIST_BYTES};
use pk_nvme::opcode::{DELETE, EXIST, FLUSH, LIST, REPORT, RETRIEVE, STORE, TICK};
use pk_nvme::status::{INVALID_COMMAND_OPCODE, KEY_DOES_NOT_EXIST};
use pk_nvme::{REPORT_BYTES, Request, SUBMISSION_BYTES};
use std::alloc::{AllocError, Global};
use std::marker::Model;

/// The bytes of the numbers of a Report that are not 0 here, and of those that are.
const FRONT_BYTES: usize = 12;

const REST_BYTES: usize = REPORT_BYTES - FRONT_BYTES;

/// How many namespaces a machine has.
const SPACES: u32 = 1;

/// A shape and a map from keys to values.
#[derive(Drop)]
pub struct MapMachine {
    shape: Shape,
    map: Table,
    live: u64,
}

impl Model for MapMachine {
    ghost use Rattle.std.specs.Prelude.{◌≡◌, ◌≤◌};
    ghost use Rattle.std.specs.FinMap.{code};
    ghost use Rattle.std.specs.Coded.{codes, coded_ℕ, coded_list};
    ghost use Rattle.pk_base.specs.Key.{key_cmp};
    ghost use Rattle.pk_base.specs.Shape.{limit};
    ghost use Rattle.pk_base.specs.Map.{live as live_of};
    ghost use Rattle.pk_model.specs.Spaces.{in_space};
    ghost use Rattle.pk_model.specs.Machine.{Machine};

    ghost Value = { Machine };

    ghost coded = { Prim.hlevel (
      codes,
      code {R = key_cmp} (coded_list coded_ℕ)
          (coded_list coded_ℕ),
    ) };

    ghost view = { λ m. record { shape = m.shape; map = m.map } };

    ghost invariant = { λ m. (m.live ≡ live_of m.shape m.map) × (m.live ≤ limit m.shape) × (in_space 1 m.map ≡ m.map) };
}

/// The pages of a value.
#[tactic(auto, unfolding(pk_base::specs::Shape::charge))]
fn pages(shape: &Shape, value: &[u8]) -> u64
    ensures { result ≡ pages_of shape.now value.now }
{
    2 * (HEAD_BYTES as u64 + value.len() as u64).div_ceil(2 * shape.page_bytes() as u64)
}

/// The numbers of a Report that are not 0: the live pages, their limit and the keys.
fn report_front(live: u32, limit: u32, keys: u32) -> [u8; FRONT_BYTES]
    ensures { result ≡ flat_map u32_bytes (live ∷ limit ∷ keys ∷ []) }
{
    let [a0, a1, a2, a3] = live.to_le_bytes();
    let [b0, b1, b2, b3] = limit.to_le_bytes();
    let [c0, c1, c2, c3] = keys.to_le_bytes();
    [a0, a1, a2, a3, b0, b1, b2, b3, c0, c1, c2, c3]
}

/// The answer of a List: how many keys there are, and they.
fn answer_of(alloc: Global, page: &Page) -> Result<Answer, AllocError>
    ensures { IfOk result
        (λ a. replied a ≡ success 0 (u32_bytes page.now.count ++ page.now.bytes)) }
{
    Answer::of_parts(alloc, 0, &page.count().to_le_bytes(), page.bytes())
}

/// Whether a key has a value, and its pages; none if it has none.
#[derive(Clone, Copy)]
struct Held {
    is_there: bool,
    pages: u64,
}

impl MapMachine {
    /// A machine of this shape with the empty map; an error if the memory for it is missing.
    pub fn new(alloc: Global, shape: Shape) -> Result<MapMachine, AllocError>
        ensures { IfOk result (λ m. m ≡ record { shape = shape; map = empty }) }
    {
        Ok(MapMachine {
            shape,
            map: Table::new(alloc),
            live: 0,
        })
    }

    /// The answer to a command, with the value that follows its entry; an error if the memory for
    /// the answer or for the value is missing, with the machine unchanged.
    pub fn step(
        &mut self,
        alloc: Global,
        entry: &[u8; SUBMISSION_BYTES],
        value: &[u8],
    ) -> Result<Answer, AllocError>
        requires { IsWhole (command entry.now value.now) }
        ensures ok { IfOk result (λ a. Answers self.old self.new (command entry.now value.now) a) }
        ensures err { OnErr result (self.new ≡ self.old) }
    {
        let request = Request::of(entry);
        match early_fault(&self.shape, SPACES, &request) {
            Some(status) => Answer::of_status(alloc, status),
            None => self.serve(alloc, &request, value),
        }
    }

    /// The answer to a command that passed the checks that read it alone.
    fn serve(
        &mut self,
        alloc: Global,
        request: &Request,
        value: &[u8],
    ) -> Result<Answer, AllocError>
        requires passed { (v : List ℕ) → early SPACES self.old.shape (command_of request.now v) ≡ None }
        requires whole { IsWhole (command_of request.now value.now) }
        ensures ok { IfOk result
            (λ a. Answers self.old self.new (command_of request.now value.now) a) }
        ensures err { OnErr result (self.new ≡ self.old) }
    {
        match request.opcode {
            FLUSH | TICK => self.done(alloc, request),
            STORE => self.store(alloc, request, value),
            RETRIEVE => self.retrieve(alloc, request),
            LIST => self.list(alloc, request),
            DELETE => self.delete(alloc, request),
            EXIST => self.exist(alloc, request),
            REPORT => self.report(alloc, request),
            _ => Answer::of_status(alloc, INVALID_COMMAND_OPCODE),
        }
    }

    /// The value of a key.
    fn held(&self, key: &Key) -> Held
        ensures there { result.is_there ≡ contains_key self.now.map key.now }
        ensures pages { result.pages ≡ pages_if_some self.now.shape (get self.now.map key.now) }
        ensures most { result.pages ≤ live_of self.now.shape self.now.map }
    {
        match self.map.get(key) {
            Some(value) => Held {
                is_there: true,
                pages: pages(&self.shape, value.bytes()),
            },
            None => Held {
                is_there: false,
                pages: 0,
            },
        }
    }

    /// Puts a key and a value into the map, unless a check on the map fails.
    fn store(
        &mut self,
        alloc: Global,
        request: &Request,
        value: &[u8],
    ) -> Result<Answer, AllocError>
        requires opcode { request.now.opcode ≡ STORE }
        requires passed { (v : List ℕ) → early SPACES self.old.shape (command_of request.now v) ≡ None }
        requires whole { length value.now ≡ request.now.size }
        ensures ok { IfOk result
            (λ a. Answers self.old self.new (command_of request.now value.now) a) }
        ensures err { OnErr result (self.new ≡ self.old) }
    {
        let limit = self.shape.limit() as u64;
        let key = request.key();
        let held = self.held(&key);
        let live = self.live - held.pages + self.shape.charge(request.size) as u64;
        match store_fault(request, held.is_there, live, limit) {
            Some(status) => Answer::of_status(alloc, status),
            None => self.put(alloc, key, value, live),
        }
    }

    /// Puts a key and a value into the map, which then has this many live pages.
    fn put(
        &mut self,
        alloc: Global,
        key: Key,
        value: &[u8],
        live: u64,
    ) -> Result<Answer, AllocError>
        requires short { length value.now < 2 ^ 32 }
        requires live { live ≡ live_of self.old.shape (map.insert self.old.map key value.now) }
        requires most { live ≤ limit self.old.shape }
        requires space { space_of key ≡ 1 }
        ensures ok { IfOk result (λ a. replied a ≡ success 0 []) }
        ensures left { OnOk result
            (self.new ≡ record self.old { map = map.insert self.old.map key value.now }) }
        ensures err { OnErr result (self.new ≡ self.old) }
    {
        let answer = Answer::of_parts(alloc, 0, &[], &[])?;
        match self.map.insert(key, Value::of(alloc, value)?) {
            Ok(()) => {
                self.live = live;
                Ok(answer)
            }
            Err(error) => Err(error),
        }
    }

    /// Takes a key away.
    fn delete(&mut self, alloc: Global, request: &Request) -> Result<Answer, AllocError>
        requires opcode { request.now.opcode ≡ DELETE }
        requires passed { (v : List ℕ) → early SPACES self.old.shape (command_of request.now v) ≡ None }
        ensures ok { IfOk result
            (λ a. (v : List ℕ) → Answers self.old self.new (command_of request.now v) a) }
        ensures err { OnErr result (self.new ≡ self.old) }
    {
        let key = request.key();
        let held = self.held(&key);
        if !held.is_there {
            return Answer::of_status(alloc, KEY_DOES_NOT_EXIST);
        }
        match Answer::of_parts(alloc, 0, &[], &[]) {
            Ok(answer) => {
                self.map.remove(&key);
                self.live -= held.pages;
                Ok(answer)
            }
            Err(error) => Err(error),
        }
    }

    /// A prefix of the value of a key.
    fn retrieve(&self, alloc: Global, request: &Request) -> Result<Answer, AllocError>
        requires opcode { request.now.opcode ≡ RETRIEVE }
        requires passed { (v : List ℕ) → early SPACES self.now.shape (command_of request.now v) ≡ None }
        ensures { IfOk result
            (λ a. (v : List ℕ) → Answers self.now self.now (command_of request.now v) a) }
    {
        match self.map.get(&request.key()) {
            Some(value) => {
                let size = (request.size as usize).min(value.bytes().len());
                Answer::of_parts(alloc, value.len(), &[], &value.bytes()[..size])
            }
            None => Answer::of_status(alloc, KEY_DOES_NOT_EXIST),
        }
    }

    /// Whether the key of a request exists.
    fn exist(&self, alloc: Global, request: &Request) -> Result<Answer, AllocError>
        requires opcode { request.now.opcode ≡ EXIST }
        requires passed { (v : List ℕ) → early SPACES self.now.shape (command_of request.now v) ≡ None }
        ensures { IfOk result
            (λ a. (v : List ℕ) → Answers self.now self.now (command_of request.now v) a) }
    {
        match self.map.get(&request.key()) {
            Some(_) => Answer::of_parts(alloc, 0, &[], &[]),
            None => Answer::of_status(alloc, KEY_DOES_NOT_EXIST),
        }
    }

    /// Lists the keys from the one that a request names on, from the first of its namespace if it names none.
    fn list_into(&self, request: &Request, page: &mut Page)
        requires len { request.now.key_len ≤ KEY_BYTES }
        requires space { request.now.namespace ≡ 1 }
        ensures { page.new ≡ offered_all (key (command_of request.now [])) page.old
            (map.keys (in_space request.now.namespace self.now.map)) }
    {
        let from = &request.key[..request.key_len as usize];
        self.map.list(request.namespace as u8, from, page);
    }

    /// The keys from a key on, as many as fit.
    fn list(&self, alloc: Global, request: &Request) -> Result<Answer, AllocError>
        requires opcode { request.now.opcode ≡ LIST }
        requires passed { (v : List ℕ) → early SPACES self.now.shape (command_of request.now v) ≡ None }
        ensures { IfOk result
            (λ a. (v : List ℕ) → Answers self.now self.now (command_of request.now v) a) }
    {
        let mut page = Page::with_room(
            alloc,
            (request.size.min(MOST_LIST_BYTES) - COUNT_BYTES) as usize,
        )?;
        self.list_into(request, &mut page);
        answer_of(alloc, &page)
    }

    /// A success that leaves the map: of a Flush or a Tick.
    fn done(&self, alloc: Global, request: &Request) -> Result<Answer, AllocError>
        requires opcode { (request.now.opcode ≡ FLUSH) ⊎ (request.now.opcode ≡ TICK) }
        requires passed { (v : List ℕ) → early SPACES self.now.shape (command_of request.now v) ≡ None }
        ensures { IfOk result
            (λ a. (v : List ℕ) → Answers self.now self.now (command_of request.now v) a) }
    {
        let _ = request;
        Answer::of_parts(alloc, 0, &[], &[])
    }

    /// The numbers of the map, and zeros for those of a drive.
    fn report(&self, alloc: Global, request: &Request) -> Result<Answer, AllocError>
        requires opcode { request.now.opcode ≡ REPORT }
        requires passed { (v : List ℕ) → early SPACES self.now.shape (command_of request.now v) ≡ None }
        ensures { IfOk result
            (λ a. (v : List ℕ) → Answers self.now self.now (command_of request.now v) a) }
    {
        let _ = request;
        let limit = self.shape.limit();
        let front = report_front(self.live as u32, limit, self.map.len() as u32);
        Answer::of_parts(alloc, 0, &front, &[0; REST_BYTES])
    }
}
