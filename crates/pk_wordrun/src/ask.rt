//! One question to a drive.
ghost use Rattle.std.specs.Prelude.{◌≡◌, length, OnOk};
ghost use Rattle.pk_words.specs.Question.{seen, command_of, IsAllowed, QuestionAnswers};
ghost use Rattle.pk_words.specs.Said.{Said, Spoken};
ghost use Rattle.pk_call.specs.Running.{HasRoomForData};
ghost use Rattle.pk_port.specs.Ready.{Fits};
ghost use Rattle.pk_port.specs.Steps.{mount, seen as seen_on};
ghost use Rattle.pk_wordrun.specs.Turns.{Turns};

use pk_base::Shape;
use pk_drive::Engine;
use pk_nand::Nand;
use pk_port::{DrivePort, Halt, Tally};
use pk_words::{Question, Words};

/// Asks a drive on its board, and says the answer.
pub fn ask<D: Engine, B: Nand>(
    words: &mut Words,
    drive: &mut D,
    board: &mut B,
    buffer: &mut [u8],
    shape: Shape,
    question: &Question,
) -> Result<(), Halt>
    // The drive on its board, the question, and the buffer for data.
    requires fits { ∥ Fits (D.agrees drive.old) shape (B.state board.old) (D.sight drive.old) ∥₁ }
    requires shape { words.old.shape ≡ shape }
    requires allowed { IsAllowed (seen question.now) }
    requires room { HasRoomForData shape buffer.old }

    // The drive on its board, and what it made of the command.
    ensures fits { ∥ Fits (D.agrees drive.new) shape (B.state board.new) (D.sight drive.new) ∥₁ }
    ensures turns { Turns shape (mount (B.state board.old) (D.sight drive.old))
        (mount (B.state board.new) (D.sight drive.new)) (command_of shape (seen question.now))
        result }

    // The text.
    ensures said { OnOk result (Said (QuestionAnswers (seen question.now))
        (seen_on shape (mount (B.state board.old) (D.sight drive.old)) 0)
        (seen_on shape (mount (B.state board.new) (D.sight drive.new)) 0)
        words.new.text) }
    ensures shape { words.new.shape ≡ shape }
    ensures room { length buffer.new ≡ length buffer.old }
{
    let mut tally = Tally::new();
    let answered = {
        let mut port = DrivePort {
            drive,
            board,
            tally: &mut tally,
            buffer,
            shape,
        };
        words.answer(&mut port, question)
    };
    match tally.halt {
        Some(halt) => Err(halt),
        None => match answered {
            Ok(()) => Ok(()),
            Err(_) => unreachable!(),
        },
    }
}
