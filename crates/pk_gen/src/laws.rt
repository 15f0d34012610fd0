//! The law of generated values, as the contract of a function.
ghost use Rattle.pk_nvme.specs.Command.{IsWhole};
ghost use Rattle.pk_nvme.specs.Seen.{command_of};
ghost use Rattle.pk_gen.specs.Workload.{Generator, request_of, value_of};

/// A Store's value is as long as its entry says, and no other command has one.
pub fn whole()
    ensures { (g : Generator) → IsWhole (command_of (request_of g) (value_of g)) }
{}
