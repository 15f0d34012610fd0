//! From an entry and its bytes to a line.
ghost use Rattle.std.specs.Prelude.{◌≡◌, ◌+◌, ◌*◌, ◌-◌, ◌^◌, ◌≤◌, ◌<◌, ◌++◌, ◌∷◌, ◌&&◌, length, nat_le, if◌then◌else◌, map};
ghost use Rattle.pk_nvme.specs.Text.{bytes_text};
ghost use Rattle.pk_asm.specs.Words.{blank};
ghost use Rattle.pk_asm.specs.PrintedWord.{word_text, tail_text};
ghost use Rattle.pk_asm.specs.Printed.{WritesLine};

use crate::sizes::MOST_LINE_BYTES;
use itoa::Buffer;
use pk_nvme::Bytes;

/// A word as it is printed.
#[derive(Clone, Copy)]
pub enum Word<'a> {
    /// As it is.
    Text(&'a [u8]),
    /// As two hexadecimal digits for each byte.
    Hex(&'a [u8]),
    /// As decimal digits.
    Number(u32),
}

impl<'a> Word<'a> {
    ghost use Rattle.pk_asm.specs.PrintedWord.{word_text};

    /// Bytes as digits, and `-` for none.
    pub fn of_bytes(bytes: &'a [u8]) -> Word<'a>
        ensures { word_text result ≡ bytes_text bytes.entry.now }
    {
        if bytes.is_empty() {
            Word::Text(b"-")
        } else {
            Word::Hex(bytes)
        }
    }

    fn len(self) -> usize
        ensures value { result ≡ length (word_text self.entry) }
        ensures small { result < 2 ^ 64 - 1 }
    {
        match self {
            Word::Text(text) => text.len(),
            Word::Hex(bytes) => 2 * bytes.len(),
            Word::Number(number) => Buffer::new().format(number).len(),
        }
    }

    /// The word after a blank.
    fn put(self, into: &mut Bytes)
        requires { length into.old.items + (1 + length (word_text self)) ≤ into.old.room }
        ensures { into.new
            ≡ record into.old { items = into.old.items ++ blank ∷ word_text self.entry } }
    {
        into.push(b' ');
        match self {
            Word::Text(text) => into.extend(text),
            Word::Hex(bytes) => into.push_hex(bytes),
            Word::Number(number) => into.push_number(number),
        }
    }
}

/// Whether the words fit into `room` bytes, each with a blank before it.
fn fit(words: &[Word], room: usize) -> bool
    ensures { result ≡ nat_le (length (tail_text words.now)) room }
{
    let mut left = room;
    for word in words {
        let size = word.len() + 1;
        if size > left {
            return false;
        }
        left -= size;
    }
    true
}

/// The words, each after a blank.
fn put_words(words: &[Word], into: &mut Bytes)
    requires { length into.old.items + length (tail_text words.now) ≤ into.old.room }
    ensures { into.new ≡ record into.old { items = into.old.items ++ tail_text words.now } }
{
    for word in words {
        word.put(into);
    }
}

/// Whether a line that begins with this word, and its line feed, fit into `left` bytes.
fn line_fits(name: &[u8], words: &[Word], left: usize) -> bool
    ensures { result
        ≡ (nat_le (length (name.now ++ tail_text words.now)) MOST_LINE_BYTES && nat_le
        (length (name.now ++ tail_text words.now) + 1) left) }
{
    if left == 0 {
        return false;
    }
    let room = if left - 1 < MOST_LINE_BYTES {
        left - 1
    } else {
        MOST_LINE_BYTES
    };
    name.len() <= room && fit(words, room - name.len())
}

/// If they fit, writes the line of these words and its line feed and returns true; otherwise writes
/// nothing and returns false.
pub fn put_line(name: &[u8], words: &[Word], into: &mut Bytes) -> bool
    ensures { WritesLine (name.now ++ tail_text words.now) into.old into.new result }
{
    if !line_fits(name, words, into.left()) {
        return false;
    }
    into.extend(name);
    put_words(words, into);
    into.push(b'\n');
    true
}
