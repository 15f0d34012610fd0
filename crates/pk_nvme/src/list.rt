//! Keys in the data of a List.
ghost use Rattle.std.specs.Prelude.{◌≡◌, ◌<◌};
ghost use Rattle.pk_nvme.specs.Reply.{fill_behind as fill};

/// The zeros after a key of `len` bytes: with the two bytes of its length before it they make a
/// multiple of four bytes.
#[inline(always)]
pub fn fill_behind(len: usize) -> usize
    ensures fill { result ≡ fill len }
    ensures few { result < 4 }
{
    (6 - len % 4) % 4
}
