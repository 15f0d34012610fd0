//! Keys, entries and block numbers as text.

use crate::form::Form;
use pk_base::{Entry, Key};
use std::alloc::AllocError;
use std::fmt::Write;

/// Prints two blocks.
pub fn tell_pair(out: &mut String, blocks: [u16; 2]) -> Result<(), AllocError> {
    tell_blocks(out, &blocks)
}

/// Prints blocks, with a comma between two; a dash if there are none.
pub fn tell_blocks(out: &mut String, blocks: &[u16]) -> Result<(), AllocError> {
    if blocks.is_empty() {
        return write!(out, "-");
    }
    for (i, block) in blocks.iter().enumerate() {
        if i > 0 {
            write!(out, ",")?;
        }
        write!(out, "{block}")?;
    }
    Ok(())
}

/// Prints a key: two hexadecimal digits a byte.
pub fn tell_key(out: &mut String, key: &Key) -> Result<(), AllocError> {
    for byte in key.bytes() {
        write!(out, "{byte:02x}")?;
    }
    Ok(())
}

/// Prints the namespace of a key, before it; for people not if it is the first one.
pub fn tell_space(out: &mut String, form: Form, key: &Key) -> Result<(), AllocError> {
    let space = key.space();
    match form {
        Form::People if space == 1 => Ok(()),
        Form::People => write!(out, "{space}:"),
        Form::Programs => write!(out, "space={space} "),
    }
}

/// Prints an entry.
pub fn tell_entry(out: &mut String, form: Form, entry: &Entry) -> Result<(), AllocError> {
    out.push_str(match form {
        Form::People => "  ",
        Form::Programs => "entry ",
    })?;
    tell_space(out, form, entry.key())?;
    out.push_str(match form {
        Form::People => "",
        Form::Programs => "key=",
    })?;
    tell_key(out, entry.key())?;
    match entry.place() {
        Some(place) => tell_place(out, form, place.page, place.len),
        None => tell_deleted(out, form),
    }
}

/// Prints where a value is, after its key.
fn tell_place(out: &mut String, form: Form, page: u32, len: u32) -> Result<(), AllocError> {
    match form {
        Form::People => writeln!(out, " in page {page}, {len} bytes"),
        Form::Programs => writeln!(out, " page={page} len={len}"),
    }
}

/// Prints that a key was deleted, after it.
fn tell_deleted(out: &mut String, form: Form) -> Result<(), AllocError> {
    match form {
        Form::People => out.push_str(" deleted\n"),
        Form::Programs => out.push_str(" deleted=1\n"),
    }
}
