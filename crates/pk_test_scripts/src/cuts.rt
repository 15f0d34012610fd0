//! What is posted if a session is cut.

use pk_flash::Flash;
use pk_nand::Mark;

/// The most bytes that may be posted if the mark with this number is interrupted: those of all
/// posts up to it.
pub fn bytes_out(flash: &Flash, k: usize) -> usize {
    let mut bytes = 0usize;
    for i in 0..flash.marks() {
        if i <= k {
            if let Mark::Post { bytes: more } = flash.mark(i) {
                bytes = bytes.saturating_add(more.bytes().len());
            }
        }
    }
    bytes
}
