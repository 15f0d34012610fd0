//! Lines of text.
ghost use Rattle.std.specs.Prelude.{◌≡◌, ◌+◌, ◌*◌, ◌≤◌, ◌++◌, List, [], length, take, Some};
ghost use Rattle.pk_nvme.specs.Bytes.{RoomyList};
ghost use Rattle.pk_host.specs.declared.sizes.TheConstants.{MOST_KEYS};
ghost use Rattle.pk_words.specs.declared.sizes.TheConstants.{LINE_BYTES};
ghost use Rattle.pk_words.specs.Lines.{status_line, value_line, key_line, key_lines};

use crate::sizes::LINE_BYTES;
use pk_base::Key;
use pk_host::KeyPage;
use pk_nvme::Bytes;
use pk_nvme::status::SUCCESSFUL_COMPLETION;

/// Says how a command was answered.
pub fn say_status(status: u8, text: &mut Bytes)
    requires { 11 ≤ text.old.room }
    ensures { text.new ≡ record text.old { items = status_line status } }
{
    text.clear();
    if status == SUCCESSFUL_COMPLETION {
        text.extend(b"ok\n");
        return;
    }
    text.extend(b"refused ");
    text.push_hex(&[status]);
    text.push(b'\n');
}

/// Says a value that was found.
pub fn say_value(value: &[u8], text: &mut Bytes)
    requires { 5 + 2 * length value.now ≤ text.old.room }
    ensures { text.new ≡ record text.old { items = value_line (Some value.now) } }
{
    text.clear();
    text.extend(b"ok ");
    if value.is_empty() {
        text.extend(b"-\n");
        return;
    }
    text.push_hex(value);
    text.push(b'\n');
}

/// The first `len` bytes; all if there are no more.
pub fn front(bytes: &[u8], len: usize) -> &[u8]
    ensures { result.now ≡ take len bytes.now }
{
    &bytes[..len.min(bytes.len())]
}

/// Says one more key.
pub fn add_key(key: &Key, text: &mut Bytes)
    requires { length text.old.items + LINE_BYTES ≤ text.old.room }
    ensures line { text.new
        ≡ record text.old { items = text.old.items ++ key_line key.now } }
    ensures most { length text.new.items ≤ length text.old.items + LINE_BYTES }
{
    text.push_hex(key.bytes());
    text.push(b'\n');
}

/// Says the keys of a page.
pub fn say_keys(page: &KeyPage, text: &mut Bytes)
    requires { MOST_KEYS * LINE_BYTES ≤ text.old.room }
    ensures { text.new ≡ record text.old { items = key_lines page.now } }
{
    text.clear();
    for i in 0..page.len() {
        add_key(page.at(i), text);
    }
}
