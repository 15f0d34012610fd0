//! The start of a record's line.
ghost use Rattle.std.specs.Prelude.{◌≡◌, ◌+◌, ◌≤◌, ◌++◌, length, IsTrue, ◌↔◌, if◌then◌else◌};
ghost use Rattle.pk_nvme.specs.Bytes.{RoomyList};
ghost use Rattle.pk_nvme.specs.Text.{number_text};
ghost use Rattle.pk_show.specs.Shown.{head_of, front, shown_head};

use pk_nvme::{Bytes, RECORD_HEAD_BYTES, cid_in, data_bytes_in, reads_in, result_in, status_in};

/// Writes a record's line up to the digits of its data, with `-` if it has no data: the digits, if
/// there are any, and a line feed follow. It is false exactly if that text does not fit the room,
/// and then nothing is written.
pub fn show_head(head: &[u8; RECORD_HEAD_BYTES], into: &mut Bytes) -> bool
    ensures fits { IsTrue result
        ↔ (length into.old.items + length (shown_head head.now) ≤ into.old.room) }
    ensures written { into.new
        ≡ (if result then record into.old { items = into.old.items ++ shown_head head.now } else
        into.old) }
{
    let head = Head::of(head);
    if into.left() < head.len() {
        return false;
    }
    head.write(into);
    true
}

// What a record's line says before its data.
#[derive(Clone, Copy)]
struct Head {
    cid: u32,
    status: u8,
    result: u32,
    reads: u32,
    data_len: u32,
}

impl Head {
    fn of(head: &[u8; RECORD_HEAD_BYTES]) -> Head
        ensures { result ≡ head_of head.now }
    {
        Head {
            cid: cid_in(head).into(),
            status: status_in(head),
            result: result_in(head),
            reads: reads_in(head),
            data_len: data_bytes_in(head),
        }
    }

    // The bytes of the text.
    fn len(&self) -> usize
        ensures { result ≡ length (front self.now) }
    {
        let digits = digits(self.cid) + digits(self.result) + digits(self.reads);
        if self.data_len == 0 {
            digits + 36
        } else {
            digits + 35
        }
    }

    fn write(&self, into: &mut Bytes)
        requires { length into.old.items + length (front self.now) ≤ into.old.room }
        ensures { into.new
            ≡ record into.old { items = into.old.items ++ front self.now } }
    {
        into.extend(b"cid=");
        into.push_number(self.cid);
        into.extend(b" status=");
        into.push_hex(&[self.status]);
        into.extend(b" result=");
        into.push_number(self.result);
        into.extend(b" reads=");
        into.push_number(self.reads);
        into.extend(b" data=");
        if self.data_len == 0 {
            into.push(b'-');
        }
    }
}

// How many digits a number has.
fn digits(number: u32) -> usize
    ensures count { result ≡ length (number_text number) }
    ensures few { result ≤ 10 }
{
    itoa::Buffer::new().format(number).len()
}
