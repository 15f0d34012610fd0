//! What the way to a host promises, which is little: a board that records neither what it gets nor what it gives states no more.
ghost use Rattle.std.specs.Prelude.{◌≡◌, ◌≤◌, length, IfOk};

/// A transfer to or from the host failed.
#[derive(Clone, Copy, Debug, PartialEq, Eq)]
pub struct LinkFault;

/// A way to the host and back.
pub trait Link {
    /// Fills a prefix of `into` with the next bytes from the host, and answers how many. 0 for a buffer with room only at the end.
    fn receive(&mut self, into: &mut [u8]) -> Result<usize, LinkFault>
        ensures within { IfOk result (λ n. n ≤ length into.old) }
        ensures len { length into.new ≡ length into.old };

    /// Gives bytes to the host.
    fn send(&mut self, bytes: &[u8]) -> Result<(), LinkFault>;
}
