//! A question to a drive, and its answer to the host.
ghost use Rattle.std.specs.Prelude.{◌≡◌, false, Some};
ghost use Rattle.pk_base.specs.Map.{Map};
ghost use Rattle.pk_model.specs.Reading.{Holds};
ghost use Rattle.pk_words.specs.Question.{seen, IsAllowed};
ghost use Rattle.pk_words.specs.Said.{Spoken};
ghost use Rattle.pk_call.specs.Running.{HasRoomForData};
ghost use Rattle.pk_port.specs.Ready.{Fits};
ghost use Rattle.pk_wordrun.specs.Tasks.{answer};
ghost use Rattle.pk_wordrun.specs.Told.{Told};
ghost use Rattle.pk_port.specs.Steps.{mount};

use crate::ask::ask;
use crate::end::{WordEnd, end_of};
use crate::say::say;
use pk_base::Shape;
use pk_drive::Engine;
use pk_nand::Board;
use pk_words::{Question, Words};

/// Asks a drive on its board, and gives the answer to the host.
pub fn tell<D: Engine, B: Board>(
    words: &mut Words,
    drive: &mut D,
    board: &mut B,
    buffer: &mut [u8],
    shape: Shape,
    question: &Question,
) -> WordEnd
    // The drive on its board, the question, and the buffer for data.
    requires fits { ∥ Fits (D.agrees drive.old) shape (B.state board.old) (D.sight drive.old) ∥₁ }
    requires on_board { (B.state board.old).shape ≡ Some shape }
    requires runs { (D.sight drive.old).stopped ≡ false }
    requires shape { words.old.shape ≡ shape }
    requires allowed { IsAllowed (seen question.now) }
    requires room { HasRoomForData shape buffer.old }

    ensures { (start : Map) → Holds shape (B.state board.old).pages start
        → Told (answer (seen question.now)) shape
        (mount (B.state board.old) (D.sight drive.old)).terms start
        (B.state board.old) (B.state board.new) result }
{
    match ask(words, drive, board, buffer, shape, question) {
        Ok(()) => match say(board, words.text()) {
            Ok(()) => WordEnd::Done,
            Err(_) => WordEnd::Output,
        },
        Err(halt) => end_of(halt),
    }
}
