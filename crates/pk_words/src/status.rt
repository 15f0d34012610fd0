//! The status of a command, from what the host made of its reply.
ghost use Rattle.pk_host.specs.Outcomes.{stored, existed};
ghost use Rattle.pk_words.specs.Said.{IsStatus};

use pk_host::{HostError, PortFault};
use pk_nvme::status::{KEY_DOES_NOT_EXIST, SUCCESSFUL_COMPLETION};

/// The status of a Store that ended so.
pub fn stored_status(outcome: Result<(), HostError>) -> Result<u8, PortFault>
    ensures { IsStatus stored outcome result }
{
    match outcome {
        Ok(()) => Ok(SUCCESSFUL_COMPLETION),
        Err(HostError::Refused { status }) => Ok(status),
        Err(_) => Err(PortFault),
    }
}

/// The status of a Delete or an Exist that ended so.
pub fn existed_status(outcome: Result<bool, HostError>) -> Result<u8, PortFault>
    ensures { IsStatus existed outcome result }
{
    match outcome {
        Ok(true) => Ok(SUCCESSFUL_COMPLETION),
        Ok(false) => Ok(KEY_DOES_NOT_EXIST),
        Err(HostError::Refused { status }) => Ok(status),
        Err(_) => Err(PortFault),
    }
}
