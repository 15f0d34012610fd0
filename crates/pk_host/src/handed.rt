//! What a port knows of what it is handed.
ghost use Rattle.std.specs.Prelude.{◌≡◌, ◌<◌, ◌^◌, length};
ghost use Rattle.pk_base.specs.Fields.{AreBytes};
ghost use Rattle.pk_nvme.specs.Command.{command, IsWhole};
ghost use Rattle.pk_host.specs.Good.{IsHanded};

use pk_base::{KEY_BYTES, are_bytes};
use pk_nvme::{Request, SUBMISSION_BYTES};

// The place of a key has 16 bytes.
fn is_place(place: &[u8; KEY_BYTES])
    ensures size { length place.now ≡ KEY_BYTES }
    ensures bytes { AreBytes place.now }
{
    are_bytes(place);
}

// Numbers of 32 bits are below 2^32.
fn is_u32(number: u32)
    ensures { number < 2 ^ 32 }
{
    let _ = number;
}

/// An entry and a whole value are bytes, and the size that the entry names has 32 bits. This computes nothing.
pub fn is_handed(entry: &[u8; SUBMISSION_BYTES], value: &[u8])
    requires { IsWhole (command entry.now value.now) }
    ensures bytes { IsHanded (command entry.now value.now) }
    ensures size { (command entry.now value.now).size < 2 ^ 32 }
{
    let request = Request::of(entry);
    is_place(&request.key);
    is_u32(request.size);
    are_bytes(value);
}

/// A status has 8 bits, and the number next to it 32. This computes nothing.
pub fn are_fields(status: u8, number: u32)
    ensures status { status < 256 }
    ensures number { number < 2 ^ 32 }
{
    let _ = (status, number);
}
