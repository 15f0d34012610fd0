//! The result of a workload.
ghost use Rattle.std.specs.Prelude.{◌≡◌, ◌<◌, ◌≤◌, ◌+◌, ◌-◌, ◌^◌, ◌++◌, ◌∷◌, [], ◌==◌, ℕ, max, List, length, if◌then◌else◌};
ghost use Rattle.pk_model.specs.Run.{Exchange};
ghost use Rattle.pk_nvme.specs.Bytes.{RoomyList};
ghost use Rattle.pk_nvme.specs.declared.opcode.TheConstants.{RETRIEVE};
ghost use Rattle.pk_words.specs.Lines.{number_line};
ghost use Rattle.pk_wordrun.specs.Summary.{summary_lines};
ghost use Rattle.pk_wordrun.specs.Sums.{Sums, IsOf};
ghost use Rattle.pk_wordrun.specs.declared.sizes.TheConstants.{SUMMARY_BYTES, SUMMARY_LINE_BYTES};

use pk_call::Outcome;
use pk_nvme::opcode::RETRIEVE;
use pk_nvme::status::{
    CAPACITY_EXCEEDED, INVALID_VALUE_SIZE, KEY_DOES_NOT_EXIST, SUCCESSFUL_COMPLETION,
    UNRECOVERED_ERROR,
};
use pk_nvme::{Bytes, Request};

/// How many commands were answered, and how.
#[derive(Clone, Copy, Debug)]
pub struct Summary {
    /// The commands.
    pub commands: u32,
    /// Those with success.
    pub ok: u32,
    /// Those whose key was missing.
    pub missing: u32,
    /// Those whose value was too large.
    pub large: u32,
    /// Those for which the drive was too full.
    pub full: u32,
    /// Those in which a read failed.
    pub failed: u32,
    /// The most pages that one Retrieve read.
    pub most: u32,
}

impl Summary {
    /// Nothing was answered yet.
    pub fn new() -> Summary
        ensures { Sums result [] }
    {
        Summary {
            commands: 0,
            ok: 0,
            missing: 0,
            large: 0,
            full: 0,
            failed: 0,
            most: 0,
        }
    }

    /// One more command was answered.
    pub fn add(&mut self, request: &Request, outcome: &Outcome)
        ensures { (all : List Exchange) (x : Exchange) → length all < 2 ^ 32 - 1 → Sums self.old all
            → IsOf request.now outcome.now x → Sums self.new (all ++ x ∷ []) }
    {
        let status = outcome.status;
        self.commands = one_more(self.commands, true);
        self.ok = one_more(self.ok, status == SUCCESSFUL_COMPLETION);
        self.missing = one_more(self.missing, status == KEY_DOES_NOT_EXIST);
        self.large = one_more(self.large, status == INVALID_VALUE_SIZE);
        self.full = one_more(self.full, status == CAPACITY_EXCEEDED);
        self.failed = one_more(self.failed, status == UNRECOVERED_ERROR);
        self.most = greater(self.most, reads_of(request, outcome));
    }

    /// Says it, with the keys and the live pages of the map at the end.
    pub fn say(&self, keys: u32, pages: u32, text: &mut Bytes)
        requires { SUMMARY_BYTES ≤ text.old.room }
        ensures { (all : List Exchange) → Sums self.now all
            → text.new ≡ record text.old { items = summary_lines all keys pages } }
    {
        text.clear();
        add_line(b"commands", self.commands, text);
        add_line(b"ok", self.ok, text);
        add_line(b"missing", self.missing, text);
        add_line(b"large", self.large, text);
        add_line(b"full", self.full, text);
        add_line(b"failed", self.failed, text);
        add_line(b"keys", keys, text);
        add_line(b"live", pages, text);
        add_line(b"most", self.most, text);
    }
}

/// One more if this holds.
fn one_more(count: u32, holds: bool) -> u32
    ensures { count < 2 ^ 32 - 1 → result ≡ count + (if holds then 1 else 0) }
{
    if holds {
        count.saturating_add(1)
    } else {
        count
    }
}

/// The greater of two numbers.
fn greater(most: u32, reads: u32) -> u32
    ensures { result ≡ max most reads }
{
    most.max(reads)
}

/// The pages that a Retrieve read; 0 of another command.
fn reads_of(request: &Request, outcome: &Outcome) -> u32
    ensures { result ≡ (if request.now.opcode == RETRIEVE then outcome.now.reads else 0) }
{
    if request.opcode == RETRIEVE {
        outcome.reads
    } else {
        0
    }
}

/// Says one more number with its name.
fn add_line(name: &[u8], number: u32, text: &mut Bytes)
    requires short { length name.now ≤ 8 }
    requires room { length text.old.items + SUMMARY_LINE_BYTES ≤ text.old.room }
    ensures line { text.new ≡ record text.old {
      items = text.old.items ++ number_line name.now number;
    } }
    ensures most { length text.new.items ≤ length text.old.items + SUMMARY_LINE_BYTES }
{
    text.extend(name);
    text.push(b' ');
    text.push_number(number);
    text.push(b'\n');
}
