//! The numbers of a drive.
ghost use Rattle.std.specs.Prelude.{◌≡◌, ◌+◌, ◌*◌, ◌≤◌, ◌<◌, ◌++◌, [], ◌∷◌, length, slice_index_or, OnOk, OnErr};
ghost use Rattle.pk_base.specs.Fields.{u32_at};
ghost use Rattle.pk_nand.specs.Calls.{Rose};
ghost use Rattle.pk_nvme.specs.Bytes.{RoomyList};
ghost use Rattle.pk_host.specs.Calls.{report};
ghost use Rattle.pk_words.specs.Lines.{number_line, report_names, report_lines};
ghost use Rattle.pk_words.specs.Says.{SaysNumbers};
ghost use Rattle.pk_words.specs.Said.{Said, Spoken};

use crate::lines::say_status;
use crate::words::Words;
use pk_base::get_u32;
use pk_host::{HostError, Port, PortFault};
use pk_nvme::{Bytes, REPORT_BYTES};

impl Words {
    /// Says the numbers of a Report.
    pub fn stat<P: Port>(&mut self, port: &mut P) -> Result<(), PortFault>
        ensures said { OnOk result (Said SaysNumbers (P.state port.old) (P.state port.new)
            self.new.text) }
        ensures fault { OnErr result
            (Rose (P.state port.old).port_faults (P.state port.new).port_faults) }
        ensures took { P.took port.old (report ∷ []) port.new }
        ensures shape { self.new.shape ≡ self.old.shape }
    {
        let mut numbers = [0u8; REPORT_BYTES];
        match self.host.report(port, &mut numbers) {
            Ok(()) => {
                say_numbers(&numbers, &mut self.text);
                Ok(())
            }
            Err(HostError::Refused { status }) => {
                say_status(status, &mut self.text);
                Ok(())
            }
            Err(_) => Err(PortFault),
        }
    }
}

/// Says the numbers of a Report, each with its name.
fn say_numbers(numbers: &[u8; REPORT_BYTES], text: &mut Bytes)
    requires { 16 * 18 ≤ text.old.room }
    ensures { text.new ≡ record text.old { items = report_lines numbers.now } }
{
    text.clear();
    for i in 0..16 {
        add_number(name_of(i), numbers, 4 * i, text);
    }
}

/// Says one more number with its name, from its four bytes at a place.
fn add_number(name: &[u8], numbers: &[u8; REPORT_BYTES], at: usize, text: &mut Bytes)
    requires inside { at + 4 ≤ REPORT_BYTES }
    requires short { length name.now ≤ 6 }
    requires room { length text.old.items + 18 ≤ text.old.room }
    ensures line { text.new ≡ record text.old {
      items = text.old.items ++ number_line name.now (u32_at numbers.now at);
    } }
    ensures most { length text.new.items ≤ length text.old.items + 18 }
{
    text.extend(name);
    text.push(b' ');
    text.push_number(get_u32(numbers, at));
    text.push(b'\n');
}

/// The name of the number at this place of a Report.
#[tactic(auto, unfolding(crate::specs::Lines::report_names))]
fn name_of(i: usize) -> &'static [u8]
    requires { i < 16 }
    ensures name { result.now ≡ slice_index_or report_names i [] }
    ensures short { length result.now ≤ 6 }
{
    match i {
        0 => b"live",
        1 => b"limit",
        2 => b"keys",
        3 => b"pinned",
        4 => b"frames",
        5 => b"leased",
        6 => b"active",
        7 => b"frozen",
        8 => b"run1",
        9 => b"run2",
        10 => b"run3",
        11 => b"run4",
        12 => b"epoch",
        13 => b"blocks",
        14 => b"ready",
        15 => b"merge",
        _ => unreachable!(),
    }
}
