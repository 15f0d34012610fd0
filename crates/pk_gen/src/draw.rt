//! The numbers that a workload is drawn from.
ghost use Rattle.std.specs.Prelude.{◌≡◌, ◌+◌, ◌*◌, ◌/◌, ◌%◌, ◌^◌, ◌<◌, ◌≤◌};
ghost use Rattle.pk_gen.specs.Workload.{step, drawn};

/// The state after a state of 31 bits.
pub fn step(state: u32) -> u32
    requires { state < 2 ^ 31 }
    ensures next { result ≡ step state }
    ensures bits { result < 2 ^ 31 }
{
    ((u64::from(state) * 1_103_515_245 + 12_345) % (1 << 31)) as u32
}

/// The number of 15 bits that a state gives.
pub fn drawn(state: u32) -> u32
    requires { state < 2 ^ 31 }
    ensures number { result ≡ drawn state }
    ensures bits { result < 2 ^ 15 }
{
    state / 65_536
}
