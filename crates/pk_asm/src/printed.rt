//! The line of an entry and its bytes.
ghost use Rattle.std.specs.Prelude.{◌≡◌, ◌+◌, ◌≤◌, ◌<◌, ◌++◌, ◌∷◌, ◌&&◌, [], length, nat_le, if◌then◌else◌, codes};
ghost use Rattle.pk_nvme.specs.Text.{hex_text, bytes_text, number_text};
ghost use Rattle.pk_asm.specs.Printed.{WritesLine};
ghost use Rattle.pk_nvme.specs.Seen.{command_of};
ghost use Rattle.pk_nvme.specs.Command.{command};
ghost use Rattle.pk_asm.specs.Printed as spec;

use crate::form::Form;
use crate::writer::{Word, put_line};
use pk_base::{KEY_BYTES, Key};
use pk_nvme::limits::NAMESPACE;
use pk_nvme::opcode::{DELETE, EXIST, FLUSH, LIST, REPORT, RETRIEVE, STORE, TICK};
use pk_nvme::options::{BOTH, IF_ABSENT, IF_EXISTS};
use pk_nvme::{Bytes, Request, SUBMISSION_BYTES};

/// The key of a request, if its length is that of a key.
fn key_of(request: &Request) -> Option<Key>
    ensures { result ≡ spec.key_at request.now.key_len request.now.key }
{
    let size = request.key_len as usize;
    if size == 0 || size > KEY_BYTES {
        return None;
    }
    let place = request.key;
    Some(Key::of(NAMESPACE as u8, &place[..size]))
}

fn store(request: &Request, value: &[u8]) -> Option<Form>
    ensures { result ≡ spec.store_candidate request.now.key_len request.now.key request.now.size
        request.now.options (length value.now) }
{
    if request.size as usize != value.len() || request.options > BOTH {
        return None;
    }
    Some(Form::Store {
        key: key_of(request)?,
        size: request.size,
        options: request.options,
    })
}

fn retrieve(request: &Request) -> Option<Form>
    ensures { result
        ≡ spec.retrieve_candidate request.now.key_len request.now.key request.now.size }
{
    Some(Form::Retrieve {
        key: key_of(request)?,
        size: request.size,
    })
}

fn list(request: &Request) -> Option<Form>
    ensures { result ≡ spec.list_candidate request.now.key_len request.now.key request.now.size }
{
    let size = request.size;
    if request.key_len == 0 {
        return Some(Form::ListFrom { from: None, size });
    }
    let from = Some(key_of(request)?);
    Some(Form::ListFrom { from, size })
}

fn delete(request: &Request) -> Option<Form>
    ensures { result ≡ spec.delete_candidate request.now.key_len request.now.key }
{
    Some(Form::Delete {
        key: key_of(request)?,
    })
}

fn exist(request: &Request) -> Option<Form>
    ensures { result ≡ spec.exist_candidate request.now.key_len request.now.key }
{
    Some(Form::Exist {
        key: key_of(request)?,
    })
}

/// The form with the fields of a request, whatever else its entry holds.
#[tactic(auto, unfolding(crate::specs::Printed::candidate))]
fn candidate(request: &Request, value: &[u8]) -> Option<Form>
    ensures { result ≡ spec.candidate (command_of request.now value.now) }
{
    let opcode = request.opcode;
    if opcode == STORE {
        store(request, value)
    } else if !value.is_empty() {
        None
    } else if opcode == RETRIEVE {
        retrieve(request)
    } else if opcode == DELETE {
        delete(request)
    } else if opcode == EXIST {
        exist(request)
    } else if opcode == LIST {
        list(request)
    } else if opcode == FLUSH {
        Some(Form::Flush)
    } else if opcode == REPORT {
        Some(Form::Report)
    } else if opcode == TICK {
        Some(Form::Tick {
            steps: request.size,
        })
    } else {
        None
    }
}

/// The form, if its entry of this number is this one.
fn that_gives(number: u64, entry: &[u8; SUBMISSION_BYTES], form: Option<Form>) -> Option<Form>
    ensures { result ≡ spec.that_gives number entry.now form }
{
    let form = form?;
    if form.entry(number).as_slice() == entry.as_slice() {
        Some(form)
    } else {
        None
    }
}

/// The form that gives this entry, which is of this number, with these bytes.
#[tactic(auto, unfolding(crate::specs::Printed::form_that_gives))]
fn form_that_gives(number: u64, entry: &[u8; SUBMISSION_BYTES], value: &[u8]) -> Option<Form>
    ensures { result ≡ spec.form_that_gives number entry.now value.now }
{
    that_gives(number, entry, candidate(&Request::of(entry), value))
}

/// The line of a Store with these option bits, and its line feed, if they fit.
fn put_store<'a>(key: &'a [u8], options: u8, value: &'a [u8], into: &mut Bytes) -> bool
    ensures { WritesLine (spec.line_of (codes "store" ∷ hex_text key.now ∷ bytes_text value.now
        ∷ spec.option_words options)) into.old into.new result }
{
    let key = Word::Hex(key);
    let bytes = Word::of_bytes(value);
    match options {
        IF_EXISTS => put_line(b"store", &[key, bytes, Word::Text(b"if-exists")], into),
        IF_ABSENT => put_line(b"store", &[key, bytes, Word::Text(b"if-absent")], into),
        BOTH => put_line(b"store", &[key, bytes, Word::Text(b"both")], into),
        _ => put_line(b"store", &[key, bytes], into),
    }
}

fn put_list(from: &Option<Key>, size: u32, into: &mut Bytes) -> bool
    ensures { WritesLine
        (spec.line_of (codes "list" ∷ spec.from_text from.now ∷ number_text size ∷ [])) into.old
        into.new result }
{
    match from {
        Some(key) => put_line(b"list", &[Word::Hex(key.bytes()), Word::Number(size)], into),
        None => put_line(b"list", &[Word::Text(b"-"), Word::Number(size)], into),
    }
}

/// The line of a form and its line feed, if they fit.
fn put_form(form: &Form, value: &[u8], into: &mut Bytes) -> bool
    ensures { WritesLine (spec.form_line form.now value.now) into.old into.new result }
{
    match form {
        Form::Store { key, options, .. } => put_store(key.bytes(), *options, value, into),
        Form::Retrieve { key, size } => {
            put_line(
                b"retrieve",
                &[Word::Hex(key.bytes()), Word::Number(*size)],
                into,
            )
        }
        Form::Delete { key } => put_line(b"delete", &[Word::Hex(key.bytes())], into),
        Form::Exist { key } => put_line(b"exist", &[Word::Hex(key.bytes())], into),
        Form::ListFrom { from, size } => put_list(from, *size, into),
        Form::Flush => put_line(b"flush", &[], into),
        Form::Report => put_line(b"report", &[], into),
        Form::Tick { steps } => put_line(b"tick", &[Word::Number(*steps)], into),
    }
}

/// Writes the line of an entry and its bytes and a line feed after what is in `into`: the named
/// line if one of this number gives the same entry and bytes, otherwise the `raw` line. False, and
/// nothing is written, if they do not fit into the room or the line has more than
/// `MOST_LINE_BYTES`.
pub fn print(entry: &[u8; SUBMISSION_BYTES], value: &[u8], number: u64, into: &mut Bytes) -> bool
    ensures line { WritesLine (spec.printed number entry.now value.now) into.old into.new result }
    // The named line is printed exactly if it can be, and what is printed is assembled to the same
    // entry and bytes.
    ensures prints { spec.Prints number entry.now value.now
        (spec.printed number entry.now value.now) }
{
    match form_that_gives(number, entry, value) {
        Some(form) => put_form(&form, value, into),
        None => put_line(b"raw", &[Word::Hex(entry), Word::of_bytes(value)], into),
    }
}
