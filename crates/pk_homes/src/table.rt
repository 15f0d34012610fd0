//! A table of homes.
ghost use Rattle.std.specs.Prelude.{◌≡◌, ◌<◌, ◌^◌, suc, length};
ghost use Rattle.pk_homes.specs.Homes.{IsAdded, home_of};

/// Added to the number of the first entry of a home that others have too.
pub const SHARED: u16 = 32_768;

/// The square root of the least number that is no hash.
pub const HALF: u64 = 4_294_967_296;

/// The home of a hash in a table of this many homes.
#[inline(always)]
#[tactic(auto, unfolding(crate::specs::Homes::home_of))]
pub fn home(hash: u64, homes: usize) -> usize
    requires some { 0 < homes }
    requires few { homes < 2 ^ 16 }
    ensures place { result ≡ home_of hash homes }
    ensures bound { result < homes }
{
    let high = hash / HALF;
    (high * homes as u64 / HALF) as usize
}

/// Notes at a home that the entry with this number, counted from 0, has it.
#[inline(always)]
pub fn add(table: &mut [u16], at: usize, number: u16)
    requires within { at < length table.old }
    requires few { suc number < SHARED }
    ensures { IsAdded table.old table.new at number }
{
    if table[at] == 0 {
        table[at] = number + 1;
    } else {
        table[at] = table[at] % SHARED + SHARED;
    }
}
