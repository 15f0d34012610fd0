//! The sixteen numbers of a Report.
ghost use Rattle.std.specs.Prelude.{◌∷◌, [], OnOk, IfErr};
ghost use Rattle.pk_host.specs.Calls.{report};
ghost use Rattle.pk_host.specs.Outcomes.{IsCause, Gives, Leaves, Numbers, stored};

use crate::ask::{Asked, ask};
use crate::host::Host;
use crate::port::Port;
use crate::types::HostError;
use pk_nvme::REPORT_BYTES;
use pk_nvme::opcode::REPORT;
use pk_nvme::status::SUCCESSFUL_COMPLETION;

impl Host {
    /// The numbers of a Report, each in four bytes, the lowest first. `Refused` if a read failed,
    /// `Port` if the port did.
    pub fn report<P: Port>(
        &mut self,
        port: &mut P,
        numbers: &mut [u8; REPORT_BYTES],
    ) -> Result<(), HostError>
        ensures gives { Gives (P.state port.old) (P.state port.new) report stored result }
        ensures causes { IfErr result (λ e. IsCause (P.state port.old) (P.state port.new)
            stored e) }
        ensures numbers { OnOk result (Numbers (P.state port.old) numbers.new) }
        ensures leaves { OnOk result (Leaves (P.state port.old) (P.state port.new) (λ m. m)) }
        ensures took { P.took port.old (report ∷ []) port.new }
    {
        let asked = Asked {
            opcode: REPORT,
            size: 0,
            options: 0,
        };
        match ask(port, asked, &[], &[], numbers) {
            Ok(received) => match received.status {
                SUCCESSFUL_COMPLETION => Ok(()),
                status => Err(HostError::Refused { status }),
            },
            Err(error) => Err(error),
        }
    }
}
