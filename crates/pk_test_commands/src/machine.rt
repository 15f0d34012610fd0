//! A machine over a map in memory, whose map is known to be one of its shape, within its limit.
ghost use Rattle.std.specs.Prelude.{◌≡◌, IfOk, OnErr};
ghost use Rattle.std.specs.FinMap.{empty};
ghost use Rattle.pk_nvme.specs.Command.{command, IsWhole};
ghost use Rattle.pk_model.specs.Machine.{Answers};
ghost use Rattle.pk_host.specs.Good.{IsGood};

use pk_base::Shape;
use pk_host::is_handed;
use pk_model::{Answer, MapMachine};
use std::alloc::{AllocError, Global};
use std::marker::Model;

/// A machine that no command brings past its limit.
#[derive(Drop)]
pub struct GoodMachine {
    machine: MapMachine,
}

impl Model for GoodMachine {
    ghost use Rattle.std.specs.FinMap.{code};
    ghost use Rattle.std.specs.Coded.{codes, coded_ℕ, coded_list};
    ghost use Rattle.pk_base.specs.Key.{key_cmp};
    ghost use Rattle.pk_model.specs.Machine.{Machine};
    ghost use Rattle.pk_host.specs.Good.{IsGood};

    ghost Value = { Machine };

    ghost coded = { Prim.hlevel (
      codes,
      code {R = key_cmp} (coded_list coded_ℕ)
          (coded_list coded_ℕ),
    ) };

    ghost view = { λ g. g.machine };

    ghost invariant = { λ g. IsGood g.machine };
}

impl GoodMachine {
    /// A machine of this shape with the empty map; an error if the memory for it is missing.
    pub fn new(alloc: Global, shape: Shape) -> Result<GoodMachine, AllocError>
        ensures { IfOk result (λ g. g ≡ record { shape = shape; map = empty }) }
    {
        match MapMachine::new(alloc, shape) {
            Ok(machine) => Ok(GoodMachine { machine }),
            Err(error) => Err(error),
        }
    }

    /// The answer to a command, with the value that follows its entry; an error if memory is
    /// missing, with the machine unchanged.
    pub fn step(
        &mut self,
        alloc: Global,
        entry: &[u8; 64],
        value: &[u8],
    ) -> Result<Answer, AllocError>
        requires { IsWhole (command entry.now value.now) }
        ensures good { IsGood self.old }
        ensures ok { IfOk result (λ a. Answers self.old self.new (command entry.now value.now) a) }
        ensures err { OnErr result (self.new ≡ self.old) }
    {
        is_handed(entry, value);
        self.machine.step(alloc, entry, value)
    }
}
