//! The turns of a workload.
ghost use Rattle.std.specs.Prelude.{◌≡◌, ◌≤◌};
ghost use Rattle.pk_nvme.specs.Bytes.{RoomyList};
ghost use Rattle.pk_nvme.specs.Seen.{entry_of};
ghost use Rattle.pk_gen.specs.Workload.{Generator, begin, request_of, value_of, after};
ghost use Rattle.pk_gen.specs.declared.numbers.TheConstants.{MOST_VALUE_BYTES};

use crate::command::command;
use crate::draw::{drawn, step};
use crate::value::write_value;
use pk_nvme::{Bytes, Request, SUBMISSION_BYTES};
use std::marker::Model;

/// The generator of a workload. Contracts see its state and the identifier of its next command.
#[derive(Drop)]
pub struct Workload {
    state: u32,
    cid: u16,
}

impl Model for Workload {
    ghost use Rattle.std.specs.Prelude.{◌<◌, ◌^◌};
    ghost use Rattle.pk_gen.specs.Workload.{Generator};

    ghost Value = { Generator };

    ghost view = { λ w. record { state = w.state; cid = w.cid } };

    ghost invariant = { λ w. w.state < 2 ^ 31 };
}

impl Workload {
    /// The workload of this start, before its first turn.
    pub fn new(start: u32) -> Workload
        ensures { result ≡ begin start }
    {
        Workload {
            state: start % (1 << 31),
            cid: 1,
        }
    }

    /// The next command; its value, which is empty if it is no Store, replaces what was there.
    pub fn next_request(&mut self, value: &mut Bytes) -> Request
        requires { MOST_VALUE_BYTES ≤ value.old.room }
        ensures request { result ≡ request_of self.old }
        ensures value { value.new ≡ record value.old { items = value_of self.old } }
        ensures after { self.new ≡ after self.old }
    {
        let first = step(self.state);
        let second = step(first);
        let third = step(second);
        let (a, b, c) = (drawn(first), drawn(second), drawn(third));
        let cid = self.cid;
        self.cid = cid.wrapping_add(1);
        if a % 10 < 5 {
            self.state = third;
            write_value(b, c, value);
        } else {
            self.state = second;
            value.clear();
        }
        command(cid, a, b, c)
    }

    /// The entry of the next command; its value, which is empty if it is no Store, replaces what
    /// was there.
    pub fn next(&mut self, value: &mut Bytes) -> [u8; SUBMISSION_BYTES]
        requires { MOST_VALUE_BYTES ≤ value.old.room }
        ensures entry { result ≡ entry_of (request_of self.old) }
        ensures value { value.new ≡ record value.old { items = value_of self.old } }
        ensures after { self.new ≡ after self.old }
    {
        self.next_request(value).entry()
    }
}
