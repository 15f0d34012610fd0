//! The data of a record's line.
ghost use Rattle.std.specs.Prelude.{◌≡◌, ◌+◌, ◌*◌, ◌≤◌, ◌++◌, length, IsTrue, ◌↔◌, if◌then◌else◌};
ghost use Rattle.pk_nvme.specs.Bytes.{RoomyList};
ghost use Rattle.pk_nvme.specs.Text.{hex_text};

use pk_nvme::Bytes;

/// Writes the digits of a piece of the data, two for each byte. It is false exactly if they do not
/// fit the room, and then nothing is written.
pub fn show_piece(piece: &[u8], into: &mut Bytes) -> bool
    ensures fits { IsTrue result
        ↔ (length into.old.items + 2 * length piece.now ≤ into.old.room) }
    ensures written { into.new
        ≡ (if result then record into.old { items = into.old.items ++ hex_text piece.now } else
        into.old) }
{
    if into.left() / 2 < piece.len() {
        return false;
    }
    into.push_hex(piece);
    true
}
