//! Opcodes: the commands and their numbers. The numbers are written here alone: code, contracts and
//! definitions use the names.
ghost use Rattle.std.specs.Prelude.{◌≡◌};
ghost use Rattle.pk_nvme.specs.Opcode.{op_of};

/// The opcode of a Flush: all that was answered before it is on the flash.
pub const FLUSH: u8 = 0x00;
/// The opcode of a Store: a value is put under a key.
pub const STORE: u8 = 0x01;
/// The opcode of a Retrieve: a prefix of a key's value is read.
pub const RETRIEVE: u8 = 0x02;
/// The opcode of a List: keys are returned in their order.
pub const LIST: u8 = 0x06;
/// The opcode of a Delete: a key and its value are taken away.
pub const DELETE: u8 = 0x10;
/// The opcode of an Exist: whether a key exists.
pub const EXIST: u8 = 0x14;
/// The opcode of a Tick, of the vendor's own: steps of the work in the background.
pub const TICK: u8 = 0xC0;
/// The opcode of a Report, of the vendor's own: the drive's numbers.
pub const REPORT: u8 = 0xC2;

/// The commands of the drive.
#[derive(Clone, Copy, Debug, PartialEq, Eq)]
pub enum Opcode {
    Flush,
    Store,
    Retrieve,
    List,
    Delete,
    Exist,
    Tick,
    Report,
}

impl Opcode {
    /// The command with this number, or `None` if no command has it.
    pub fn of(number: u8) -> Option<Opcode>
        ensures { result ≡ op_of number }
    {
        match number {
            FLUSH => Some(Opcode::Flush),
            STORE => Some(Opcode::Store),
            RETRIEVE => Some(Opcode::Retrieve),
            LIST => Some(Opcode::List),
            DELETE => Some(Opcode::Delete),
            EXIST => Some(Opcode::Exist),
            TICK => Some(Opcode::Tick),
            REPORT => Some(Opcode::Report),
            _ => None,
        }
    }
}
