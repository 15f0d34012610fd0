//! From a line to its entry and bytes.
ghost use Rattle.std.specs.Prelude.{◌≡◌, ◌*◌, ◌≤◌, ◌^◌, ◌<◌, [], length, option_map, Some, None, MatchResult, bytes_eq};
ghost use Rattle.std.specs.List.{AllByRecursion};
ghost use Rattle.pk_nvme.specs.Text.{bytes_of};
ghost use Rattle.pk_asm.specs.Words.{words};
ghost use Rattle.pk_asm.specs.Operands.{words_in};
ghost use Rattle.pk_asm.specs.Line as spec;
ghost use Rattle.pk_asm.specs.declared.sizes.TheConstants.{MOST_LINE_VALUE_BYTES};

use crate::form::Form;
use crate::operands::{Operands, split_word, words_behind};
use crate::sizes::MOST_LINE_BYTES;
use crate::words::{bytes_word, entry_word, key, number as number_of};
use pk_base::Key;
use pk_nvme::options::{BOTH, IF_ABSENT, IF_EXISTS};
use pk_nvme::{Bytes, SUBMISSION_BYTES};

/// A line is outside the grammar.
#[derive(Clone, Copy, Debug, PartialEq, Eq)]
pub struct BadLine;

fn is(word: &[u8], text: &[u8]) -> bool
    ensures { result ≡ bytes_eq word.now text.now }
{
    word == text
}

fn retrieve(operands: Operands) -> Option<Form>
    ensures { result ≡ spec.retrieve_of (words_in operands.entry) }
{
    match operands {
        Operands::Two(word, size) => {
            let key = key(word)?;
            let size = number_of(size)?;
            Some(Form::Retrieve { key, size })
        }
        _ => None,
    }
}

fn delete(operands: Operands) -> Option<Form>
    ensures { result ≡ spec.delete_of (words_in operands.entry) }
{
    match operands {
        Operands::One(word) => Some(Form::Delete { key: key(word)? }),
        _ => None,
    }
}

fn exist(operands: Operands) -> Option<Form>
    ensures { result ≡ spec.exist_of (words_in operands.entry) }
{
    match operands {
        Operands::One(word) => Some(Form::Exist { key: key(word)? }),
        _ => None,
    }
}

/// The key from which to list; `-` is no key.
fn from(word: &[u8]) -> Option<Option<Key>>
    ensures { result ≡ spec.from_of word.now }
{
    if is(word, b"-") {
        return Some(None);
    }
    Some(Some(key(word)?))
}

fn list(operands: Operands) -> Option<Form>
    ensures { result ≡ spec.list_form (words_in operands.entry) }
{
    match operands {
        Operands::Two(word, size) => {
            let from = from(word)?;
            let size = number_of(size)?;
            Some(Form::ListFrom { from, size })
        }
        _ => None,
    }
}

fn flush(operands: Operands) -> Option<Form>
    ensures { result ≡ spec.flush_of (words_in operands.entry) }
{
    match operands {
        Operands::Nothing => Some(Form::Flush),
        _ => None,
    }
}

fn report(operands: Operands) -> Option<Form>
    ensures { result ≡ spec.report_of (words_in operands.entry) }
{
    match operands {
        Operands::Nothing => Some(Form::Report),
        _ => None,
    }
}

fn tick(operands: Operands) -> Option<Form>
    ensures { result ≡ spec.tick_of (words_in operands.entry) }
{
    match operands {
        Operands::One(steps) => Some(Form::Tick {
            steps: number_of(steps)?,
        }),
        _ => None,
    }
}

/// What a named line without bytes asks for.
#[tactic(auto, unfolding(crate::specs::Line::plain_of))]
fn plain(name: &[u8], operands: Operands) -> Option<Form>
    ensures { result ≡ spec.plain_of name.entry.now (words_in operands.entry) }
{
    if is(name, b"retrieve") {
        retrieve(operands)
    } else if is(name, b"delete") {
        delete(operands)
    } else if is(name, b"exist") {
        exist(operands)
    } else if is(name, b"list") {
        list(operands)
    } else if is(name, b"flush") {
        flush(operands)
    } else if is(name, b"report") {
        report(operands)
    } else if is(name, b"tick") {
        tick(operands)
    } else {
        None
    }
}

/// The option bits of a Store.
fn options(word: &[u8]) -> Option<u8>
    ensures { result ≡ spec.options_of word.now }
{
    if is(word, b"if-exists") {
        Some(IF_EXISTS)
    } else if is(word, b"if-absent") {
        Some(IF_ABSENT)
    } else if is(word, b"both") {
        Some(BOTH)
    } else {
        None
    }
}

/// A Store of this key with these options; its bytes come into `value`.
fn store_with(
    key: Option<Key>,
    bytes: &[u8],
    options: Option<u8>,
    value: &mut Bytes,
) -> Option<Form>
    requires empty { value.old.items ≡ [] }
    requires fits { length bytes.now ≤ 2 * value.old.room }
    requires short { length bytes.now < 2 ^ 32 }
    ensures form { result
        ≡ option_map (λ s. s.0) (spec.store_with key (bytes_of bytes.now) options) }
    ensures value { value.new ≡ record value.old
        { items = spec.brought (spec.store_with key (bytes_of bytes.now) options) } }
{
    let key = key?;
    let options = options?;
    if bytes_word(bytes, value) {
        let size = value.len() as u32;
        Some(Form::Store { key, size, options })
    } else {
        None
    }
}

fn store(operands: Operands, value: &mut Bytes) -> Option<Form>
    requires empty { value.old.items ≡ [] }
    requires fits { AllByRecursion (λ word. length word ≤ 2 * value.old.room) (words_in operands) }
    requires short { AllByRecursion (λ word. length word < 2 ^ 32) (words_in operands) }
    ensures form { result ≡ option_map (λ s. s.0) (spec.store_of (words_in operands.entry)) }
    ensures value { value.new
        ≡ record value.old { items = spec.brought (spec.store_of (words_in operands.entry)) } }
{
    match operands {
        Operands::Two(key_word, bytes) => store_with(key(key_word), bytes, Some(0), value),
        Operands::Three(key_word, bytes, option) => {
            store_with(key(key_word), bytes, options(option), value)
        }
        _ => None,
    }
}

/// An entry as it is; the bytes after it are put into `value`.
fn raw(operands: Operands, value: &mut Bytes) -> Option<[u8; SUBMISSION_BYTES]>
    requires empty { value.old.items ≡ [] }
    requires fits { AllByRecursion (λ word. length word ≤ 2 * value.old.room) (words_in operands) }
    ensures entry { result ≡ option_map (λ s. s.0) (spec.raw_of (words_in operands.entry)) }
    ensures value { value.new
        ≡ record value.old { items = spec.brought (spec.raw_of (words_in operands.entry)) } }
{
    match operands {
        Operands::Two(word, bytes) => {
            let entry = entry_word(word)?;
            if bytes_word(bytes, value) {
                Some(entry)
            } else {
                None
            }
        }
        _ => None,
    }
}

/// What a named line asks for; its bytes come into `value`.
fn named(name: &[u8], operands: Operands, value: &mut Bytes) -> Option<Form>
    requires empty { value.old.items ≡ [] }
    requires fits { AllByRecursion (λ word. length word ≤ 2 * value.old.room) (words_in operands) }
    requires short { AllByRecursion (λ word. length word < 2 ^ 32) (words_in operands) }
    ensures form { result
        ≡ option_map (λ s. s.0) (spec.named_of name.now (words_in operands.entry)) }
    ensures value { value.new ≡ record value.old
        { items = spec.brought (spec.named_of name.now (words_in operands.entry)) } }
{
    if is(name, b"store") {
        store(operands, value)
    } else {
        plain(name, operands)
    }
}

/// The entry of a line; its bytes come into `value`.
#[tactic(auto, unfolding(crate::specs::Line::entry_said))]
fn entry_said(line: &[u8], number: u64, value: &mut Bytes) -> Option<[u8; SUBMISSION_BYTES]>
    requires empty { value.old.items ≡ [] }
    requires fits { length line.now ≤ 2 * value.old.room }
    requires short { length line.now < 2 ^ 32 }
    ensures entry { result ≡ option_map (λ s. s.0) (spec.entry_said number (words line.now)) }
    ensures value { value.new
        ≡ record value.old { items = spec.brought (spec.entry_said number (words line.now)) } }
{
    let (name, rest) = split_word(line);
    let operands = words_behind(rest);
    if is(name, b"raw") {
        return raw(operands, value);
    }
    match named(name, operands, value) {
        Some(form) => Some(form.entry(number)),
        None => None,
    }
}

/// The entry that a line gives, which is of this number among the entries of its script; its bytes come into `value`.
/// An empty line and one that begins with `#` give nothing. `value` is emptied first.
#[tactic(auto, unfolding(crate::specs::Line::says))]
pub fn assemble_line(
    line: &[u8],
    number: u64,
    value: &mut Bytes,
) -> Result<Option<[u8; SUBMISSION_BYTES]>, BadLine>
    requires { MOST_LINE_VALUE_BYTES ≤ value.old.room }
    // `BadLine` comes exactly outside the grammar.
    ensures exact { MatchResult result
        (λ entry. option_map spec.entry_in (spec.says number line.now) ≡ Some entry)
        (λ _. spec.says number line.now ≡ None) }
    ensures value { value.new
        ≡ record value.old { items = spec.line_bytes (spec.says number line.now) } }
{
    value.clear();
    if line.len() > MOST_LINE_BYTES {
        return Err(BadLine);
    }
    if line.is_empty() || line[0] == b'#' {
        return Ok(None);
    }
    match entry_said(line, number, value) {
        Some(entry) => Ok(Some(entry)),
        None => Err(BadLine),
    }
}
