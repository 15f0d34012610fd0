//! Pages of runs, written out.
ghost use Rattle.std.specs.Prelude.{◌<◌};

const GONE_A: &[u8; 32] = b"\x01\x02\0\0a\0\0\0\0\0\0\0\0\0\0\0\0\0\0\0\0\0\0\0\0\0\0\0\0\0\0\0";

const PUT_A: &[u8; 32] = b"\x01\x01\0\0a\0\0\0\0\0\0\0\0\0\0\0\0\0\0\0\xa0\0\0\0\x05\0\0\0\0\0\0\0";

const PUT_B: &[u8; 32] = b"\x01\x01\0\0b\0\0\0\0\0\0\0\0\0\0\0\0\0\0\0\xa2\0\0\0\x03\0\0\0\0\0\0\0";

const PUT_C: &[u8; 32] = b"\x01\x01\0\0c\0\0\0\0\0\0\0\0\0\0\0\0\0\0\0\xa4\0\0\0\x04\0\0\0\0\0\0\0";

// The first page of a run of this level, with the head for `count` entries and none of them.
fn head(level: u8, count: u8) -> [u8; 512] {
    let mut page = [0u8; 512];
    page[..8].copy_from_slice(b"PINKMETA");
    page[8] = level;
    page[10] = count;
    page
}

// Writes an entry at its place.
fn put(page: &mut [u8; 512], place: usize, entry: &[u8; 32])
    requires { place < 15 }
{
    let at = 32 + 32 * place;
    page[at..at + 32].copy_from_slice(entry);
}

/// A deleted key and one with a value.
pub fn source_page(level: u8) -> [u8; 512] {
    let mut page = head(level, 2);
    put(&mut page, 0, GONE_A);
    put(&mut page, 1, PUT_B);
    page
}

/// The first of those keys with a value, and another one.
pub fn target_page(level: u8) -> [u8; 512] {
    let mut page = head(level, 2);
    put(&mut page, 0, PUT_A);
    put(&mut page, 1, PUT_C);
    page
}

/// The source's page over the target's: run 4 alone keeps no deleted key.
pub fn output_page(level: u8) -> [u8; 512] {
    if level == 4 {
        let mut page = head(4, 2);
        put(&mut page, 0, PUT_B);
        put(&mut page, 1, PUT_C);
        return page;
    }
    let mut page = head(level, 3);
    put(&mut page, 0, GONE_A);
    put(&mut page, 1, PUT_B);
    put(&mut page, 2, PUT_C);
    page
}
