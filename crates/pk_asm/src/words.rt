//! Words of a line: numbers, keys, entries and bytes.
ghost use Rattle.std.specs.Prelude.{◌≡◌, ◌+◌, ◌-◌, ◌*◌, ◌%◌, ◌^◌, ◌<◌, ◌≤◌, [], length, nat_lt, if◌then◌else◌, true, is_some, unwrap_or, SomeIff, IfSome};
ghost use Rattle.std.specs.Char.{is_ascii_digit};
ghost use Rattle.std.specs.List.{list_all};
ghost use Rattle.std.specs.Str.Parse.{digits_value};
ghost use Rattle.std.specs.Result.{result_ok};
ghost use Rattle.hex.specs.Hex.{decode_of, hex_digit_value, is_hex_digit, pair_value};
ghost use Rattle.pk_nvme.specs.Text.{is_number as is_number_text, number_of, some_bytes_of, bytes_of};
ghost use Rattle.pk_asm.specs.Words.{key_of, hex_entry};

use hex::FromHex;
use pk_base::{KEY_BYTES, Key};
use pk_nvme::limits::NAMESPACE;
use pk_nvme::{Bytes, SUBMISSION_BYTES};

fn are_digits(word: &[u8]) -> bool
    ensures { result ≡ list_all is_ascii_digit word.now }
{
    for byte in word {
        if !byte.is_ascii_digit() {
            return false;
        }
    }
    true
}

fn is_number(word: &[u8]) -> bool
    ensures { result ≡ is_number_text word.now }
{
    !word.is_empty() && are_digits(word) && (word.len() == 1 || word[0] != b'0')
}

/// The number with one decimal digit more, below 2^32.
fn with_digit(value: u32, digit: u8) -> Option<u32>
    requires { 48 ≤ digit × digit ≤ 57 }
    ensures { SomeIff result (value * 10 + (digit - 48) < 2 ^ 32) (value * 10 + (digit - 48)) }
{
    value.checked_mul(10)?.checked_add(u32::from(digit - b'0'))
}

/// The number that these decimal digits are, below 2^32.
fn value_of(digits: &[u8]) -> Option<u32>
    requires { list_all is_ascii_digit digits.now ≡ true }
    ensures { result ≡ (if nat_lt (digits_value 10 digits.now) (2 ^ 32) then Some
        (digits_value 10 digits.now) else None) }
{
    let mut value: u32 = 0;
    for digit in digits {
        match with_digit(value, *digit) {
            Some(more) => value = more,
            None => return None,
        }
    }
    Some(value)
}

/// The number below 2^32 that a word of decimal digits is; only `0` has a leading zero.
pub fn number(word: &[u8]) -> Option<u32>
    ensures { result ≡ number_of word.now }
{
    if is_number(word) {
        value_of(word)
    } else {
        None
    }
}

/// The key, in namespace 1, that a word of hexadecimal digits is, two for each byte, in either case.
pub fn key(word: &[u8]) -> Option<Key>
    ensures { result ≡ key_of word.now }
{
    let size = word.len() / 2;
    if size == 0 || size > KEY_BYTES || word.len() % 2 == 1 {
        return None;
    }
    let mut bytes = [0u8; KEY_BYTES];
    match hex::decode_to_slice(word, &mut bytes[..size]) {
        Ok(()) => Some(Key::of(NAMESPACE as u8, &bytes[..size])),
        Err(_) => None,
    }
}

/// The entry that a word of hexadecimal digits is, two for each of its bytes.
pub fn entry_word(word: &[u8]) -> Option<[u8; SUBMISSION_BYTES]>
    ensures { result ≡ hex_entry word.now }
{
    match <[u8; SUBMISSION_BYTES] as FromHex>::from_hex(word) {
        Ok(entry) => Some(entry),
        Err(_) => None,
    }
}

/// What a hexadecimal digit is worth, in either case.
fn digit(byte: u8) -> Option<u8>
    ensures value { result ≡ hex_digit_value byte }
    ensures small { IfSome result (λ worth. worth < 16) }
{
    match byte {
        b'A'..=b'F' => Some(byte - b'A' + 10),
        b'a'..=b'f' => Some(byte - b'a' + 10),
        b'0'..=b'9' => Some(byte - b'0'),
        _ => None,
    }
}

/// The byte of two hexadecimal digits.
fn pair(high: u8, low: u8) -> Option<u8>
    ensures { result ≡ result_ok (pair_value high low 0) }
{
    Some(digit(high)? * 16 + digit(low)?)
}

/// The bytes that a word of hexadecimal digits is, after those that are in `value`.
fn decode(word: &[u8], value: &mut Bytes) -> bool
    requires empty { value.old.items ≡ [] }
    requires even { length word.now % 2 ≡ 0 }
    requires fits { length word.now ≤ 2 * value.old.room }

    // Whether it is digits, and the bytes that it spells.
    ensures read { result ≡ is_some (result_ok (decode_of word.now)) }
    ensures value { result ≡ true
        → value.new ≡ record value.old { items = unwrap_or (result_ok (decode_of word.now)) [] } }

    // The room is unchanged, and what was read so far has the length of its digits.
    ensures room { value.new.room ≡ value.old.room }
    ensures short { 2 * length value.new.items ≤ length word.now }
{
    for i in 0..word.len() / 2 {
        match pair(word[2 * i], word[2 * i + 1]) {
            Some(byte) => value.push(byte),
            None => return false,
        }
    }
    true
}

/// The bytes that a word is, `-` for none; `value` is empty if the word is none.
pub fn bytes_word(word: &[u8], value: &mut Bytes) -> bool
    requires { length word.now ≤ 2 * value.old.room }
    ensures read { result ≡ is_some (bytes_of word.now) }
    ensures value { value.new ≡ record value.old { items = unwrap_or (bytes_of word.now) [] } }
    ensures short { 2 * length value.new.items ≤ length word.now }
{
    value.clear();
    if word == b"-".as_slice() {
        return true;
    }
    if word.is_empty() || word.len() % 2 == 1 {
        return false;
    }
    if decode(word, value) {
        return true;
    }
    value.clear();
    false
}

/// Whether all of a word is hexadecimal digits, in either case.
fn are_hex_digits(word: &[u8]) -> bool
    ensures { result ≡ list_all is_hex_digit word.now }
{
    for byte in word {
        if digit(*byte).is_none() {
            return false;
        }
    }
    true
}

/// Whether a word is bytes, `-` for none. It takes no memory for them.
pub fn is_bytes_word(word: &[u8]) -> bool
    ensures { result ≡ is_some (bytes_of word.now) }
{
    if word == b"-".as_slice() {
        return true;
    }
    if word.is_empty() || word.len() % 2 == 1 {
        return false;
    }
    are_hex_digits(word)
}
