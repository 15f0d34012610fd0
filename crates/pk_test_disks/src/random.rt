//! Numbers that look random.
ghost use Rattle.std.specs.Prelude.{◌<◌};

#[derive(Clone, Copy)]
pub struct Random(u32);

impl Random {
    pub fn new(seed: u32) -> Random {
        Random(seed)
    }

    fn next(&mut self) -> u32 {
        self.0 = self.0.wrapping_mul(1_664_525).wrapping_add(1_013_904_223);
        let mixed = self.0 ^ (self.0 / 65_536);
        mixed.wrapping_mul(2_246_822_519) / 256
    }

    /// A number below a limit.
    pub fn below(&mut self, limit: usize) -> usize
        requires { 0 < limit }
        ensures { result < limit }
    {
        self.next() as usize % limit
    }

    /// A number with which another sequence begins.
    pub fn seed(&mut self) -> u32 {
        self.next()
    }

    pub fn byte(&mut self) -> u8 {
        (self.next() % 256) as u8
    }
}
