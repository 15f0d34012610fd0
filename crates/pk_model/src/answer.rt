//! Answers of the machine in memory.
ghost use Rattle.std.specs.Prelude.{◌≡◌, ◌≤◌, ◌++◌, length, IfOk};

use pk_nvme::Bytes;
use pk_nvme::status::SUCCESSFUL_COMPLETION;
use std::alloc::{AllocError, Global};

/// What a command is answered: the status code, the result and the data.
#[derive(Drop)]
pub struct Answer {
    pub status: u8,
    pub result: u32,
    pub bytes: Bytes,
}

impl Answer {
    ghost use Rattle.pk_nvme.specs.declared.limits.TheConstants.{MOST_LIST_BYTES};
    ghost use Rattle.pk_nvme.specs.Reply.{refusal};
    ghost use Rattle.pk_model.specs.Answer.{success};
    ghost use Rattle.pk_model.specs.Machine.{replied};

    /// A status alone.
    pub fn of_status(alloc: Global, status: u8) -> Result<Answer, AllocError>
        ensures { IfOk result (λ a. replied a ≡ refusal status) }
    {
        Ok(Answer {
            status,
            result: 0,
            bytes: Bytes::with_room(alloc, 0)?,
        })
    }

    /// A success with this result and these data, in two parts.
    pub fn of_parts(
        alloc: Global,
        result_field: u32,
        front: &[u8],
        rest: &[u8],
    ) -> Result<Answer, AllocError>
        requires { length front.now ≤ MOST_LIST_BYTES }
        ensures { IfOk result (λ a. replied a ≡ success result_field (front.now ++ rest.now)) }
    {
        let mut bytes = Bytes::with_room(alloc, front.len() + rest.len())?;
        bytes.extend(front);
        bytes.extend(rest);
        Ok(Answer {
            status: SUCCESSFUL_COMPLETION,
            result: result_field,
            bytes,
        })
    }
}
