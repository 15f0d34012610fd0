//! The words of one command each.
ghost use Rattle.std.specs.Prelude.{◌≡◌, [], ◌∷◌, OnOk, OnErr};
ghost use Rattle.pk_nand.specs.Calls.{Rose};
ghost use Rattle.pk_words.specs.Question.{seen, command_of, IsAllowed, QuestionAnswers};
ghost use Rattle.pk_words.specs.Said.{Said, Spoken};

use crate::words::Words;
use pk_base::Key;
use pk_host::{Port, PortFault};
use pk_nvme::Bytes;

/// What a word of one command asks for.
#[derive(Drop)]
pub enum Question {
    /// To store a value.
    Put(Key, Bytes),
    /// The whole value of a key.
    Get(Key),
    /// To take a key away.
    Delete(Key),
    /// Whether a key exists.
    Has(Key),
    /// The numbers of the drive.
    Stat,
}

impl Words {
    /// Says the answer of a question, by its one command, over a drive of the shape of these words.
    pub fn answer<P: Port>(&mut self, port: &mut P, question: &Question) -> Result<(), PortFault>
        requires { IsAllowed (seen question.now) }
        ensures said { OnOk result ((P.state port.old).shape ≡ self.old.shape
            → Said (QuestionAnswers (seen question.now)) (P.state port.old) (P.state port.new)
            self.new.text) }
        ensures fault { OnErr result
            (Rose (P.state port.old).port_faults (P.state port.new).port_faults) }
        ensures took { P.took port.old (command_of self.old.shape (seen question.now) ∷ [])
            port.new }
        ensures shape { self.new.shape ≡ self.old.shape }
    {
        match question {
            Question::Put(key, value) => self.put(port, key, value.bytes()),
            Question::Get(key) => self.get(port, key),
            Question::Delete(key) => self.delete(port, key),
            Question::Has(key) => self.has(port, key),
            Question::Stat => self.stat(port),
        }
    }
}
