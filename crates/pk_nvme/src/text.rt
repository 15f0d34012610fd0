//! Numbers and bytes as text.
ghost use Rattle.std.specs.Prelude.{◌≡◌, ◌+◌, ◌*◌, ◌≤◌, ◌∷◌, [], ◌++◌, length};
ghost use Rattle.pk_nvme.specs.Bytes.{RoomyList};
ghost use Rattle.pk_nvme.specs.Text.{number_text, hex_text};

use crate::Bytes;

impl Bytes {
    /// A number in decimal digits, for which there is room.
    pub fn push_number(&mut self, number: u32)
        requires { length self.old.items + length (number_text number) ≤ self.old.room }
        ensures { self.new ≡ record self.old { items = self.old.items ++ number_text number } }
    {
        let mut digits = itoa::Buffer::new();
        self.extend(digits.format(number).as_bytes());
    }

    /// Bytes in hexadecimal digits of lower case, two for each, for which there is room.
    pub fn push_hex(&mut self, bytes: &[u8])
        requires { length self.old.items + 2 * length bytes.now ≤ self.old.room }
        ensures { self.new ≡ record self.old { items = self.old.items ++ hex_text bytes.now } }
    {
        for byte in bytes {
            self.extend(&hex_digits(*byte));
        }
    }
}

// The two digits of a byte.
fn hex_digits(byte: u8) -> [u8; 2]
    ensures { result ≡ hex_text (byte ∷ []) }
{
    let mut digits = [0; 2];
    match hex::encode_to_slice([byte], &mut digits) {
        Ok(()) => digits,
        Err(_) => unreachable!(),
    }
}
