//! What a named line asks for.
ghost use Rattle.std.specs.Prelude.{◌≡◌, ◌≤◌, length};
ghost use Rattle.pk_asm.specs.Form.{entry_with, form_entry};

use pk_base::{KEY_BYTES, Key, put_padded};
use pk_nvme::limits::NAMESPACE;
use pk_nvme::opcode::{DELETE, EXIST, FLUSH, LIST, REPORT, RETRIEVE, STORE, TICK};
use pk_nvme::{Request, SUBMISSION_BYTES};

/// A command as a named line gives it; the bytes of a Store are separate.
#[derive(Drop)]
pub enum Form {
    /// `options` are the option bits, `size` the bytes of the value.
    Store { key: Key, size: u32, options: u8 },
    /// `size` is that of the host's buffer, in bytes.
    Retrieve { key: Key, size: u32 },
    Delete { key: Key },
    Exist { key: Key },
    /// From this key on, or from the first; `size` is that of the host's buffer, in bytes.
    ListFrom { from: Option<Key>, size: u32 },
    Flush,
    Report,
    Tick { steps: u32 },
}

/// The entry of this number, in namespace 1, with these fields.
fn entry_of(number: u64, opcode: u8, key: &[u8], size: u32, options: u8) -> [u8; SUBMISSION_BYTES]
    requires { length key.now ≤ KEY_BYTES }
    ensures { result ≡ entry_with number opcode key.now size options }
{
    let mut place = [0u8; KEY_BYTES];
    put_padded(&mut place, 0, KEY_BYTES, key);
    let request = Request {
        opcode,
        cid: (number % 65536) as u16,
        namespace: NAMESPACE,
        key_len: key.len() as u8,
        key: place,
        size,
        options,
    };
    request.entry()
}

impl Form {
    ghost use Rattle.pk_asm.specs.Form.{form_entry};

    /// The entry of this number among the entries of its script, counted from 1.
    pub fn entry(&self, number: u64) -> [u8; SUBMISSION_BYTES]
        ensures { result ≡ form_entry number self.now }
    {
        match self {
            Form::Store { key, size, options } => entry_of(
                number,
                STORE,
                key.bytes(),
                *size,
                *options,
            ),
            Form::Retrieve { key, size } => entry_of(number, RETRIEVE, key.bytes(), *size, 0),
            Form::Delete { key } => entry_of(number, DELETE, key.bytes(), 0, 0),
            Form::Exist { key } => entry_of(number, EXIST, key.bytes(), 0, 0),
            Form::ListFrom { from, size } => match from {
                Some(key) => entry_of(number, LIST, key.bytes(), *size, 0),
                None => entry_of(number, LIST, b"", *size, 0),
            },
            Form::Flush => entry_of(number, FLUSH, b"", 0, 0),
            Form::Report => entry_of(number, REPORT, b"", 0, 0),
            Form::Tick { steps } => entry_of(number, TICK, b"", *steps, 0),
        }
    }
}
