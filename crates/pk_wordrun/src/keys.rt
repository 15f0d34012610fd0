//! A list of keys, piece by piece: one command, then its lines.
ghost use Rattle.std.specs.Prelude.{◌≡◌, length, false, Some, IfOk, IfErr, IfSome};
ghost use Rattle.pk_words.specs.Listing.{IsOwnPlace, Piece, asked_at};
ghost use Rattle.pk_words.specs.Said.{Spoken};
ghost use Rattle.pk_call.specs.Running.{HasRoomForData};
ghost use Rattle.pk_port.specs.Ready.{Fits};
ghost use Rattle.pk_port.specs.Steps.{mount, seen as seen_on};
ghost use Rattle.pk_wordrun.specs.Turns.{Turns};
ghost use Rattle.pk_wordrun.specs.Pieces.{PieceTold, PieceEnds};

use crate::end::{WordEnd, end_of};
use crate::say::say;
use pk_base::Shape;
use pk_drive::Engine;
use pk_nand::{Board, Nand};
use pk_port::{DrivePort, Halt, Tally};
use pk_words::{ListPosition, Words};

/// Asks a drive for the next piece of a list, and says it.
fn ask_keys<D: Engine, B: Nand>(
    words: &mut Words,
    drive: &mut D,
    board: &mut B,
    buffer: &mut [u8],
    shape: Shape,
    place: ListPosition,
) -> Result<Option<ListPosition>, Halt>
    requires own { IsOwnPlace place }

    // The drive on its board, and the buffer for data.
    requires fits { ∥ Fits (D.agrees drive.old) shape (B.state board.old) (D.sight drive.old) ∥₁ }
    requires room { HasRoomForData shape buffer.old }

    // The drive on its board, and what it made of the command.
    ensures fits { ∥ Fits (D.agrees drive.new) shape (B.state board.new) (D.sight drive.new) ∥₁ }
    ensures turns { Turns shape (mount (B.state board.old) (D.sight drive.old))
        (mount (B.state board.new) (D.sight drive.new)) (asked_at place) result }

    // The text.
    ensures piece { IfOk result (λ next. Piece (seen_on shape (mount (B.state board.old) (D.sight drive.old)) 0)
        (seen_on shape (mount (B.state board.new) (D.sight drive.new)) 0) place next words.new.text) }
    ensures own { IfOk result (λ next. IfSome next IsOwnPlace) }
    ensures shape { words.new.shape ≡ words.old.shape }
    ensures room { length buffer.new ≡ length buffer.old }
{
    let mut tally = Tally::new();
    let answered = {
        let mut port = DrivePort {
            drive,
            board,
            tally: &mut tally,
            buffer,
            shape,
        };
        words.list(&mut port, place)
    };
    match tally.halt {
        Some(halt) => Err(halt),
        None => match answered {
            Ok(next) => Ok(next),
            Err(_) => unreachable!(),
        },
    }
}

/// Asks for the next piece of a list, and sends it to the host. The place where the list goes on;
/// nothing after its last piece.
pub fn tell_piece<D: Engine, B: Board>(
    words: &mut Words,
    drive: &mut D,
    board: &mut B,
    buffer: &mut [u8],
    shape: Shape,
    place: ListPosition,
) -> Result<Option<ListPosition>, WordEnd>
    requires own { IsOwnPlace place }

    // The drive on its board, and the buffer for data.
    requires fits { ∥ Fits (D.agrees drive.old) shape (B.state board.old) (D.sight drive.old) ∥₁ }
    requires runs { (D.sight drive.old).stopped ≡ false }
    requires room { HasRoomForData shape buffer.old }

    // The drive on its board after it.
    ensures fits { IfOk result (λ next. ∥ Fits (D.agrees drive.new) shape (B.state board.new)
        (D.sight drive.new) ∥₁) }
    ensures runs { IfOk result (λ next. (D.sight drive.new).stopped ≡ false) }
    ensures terms { IfOk result
        (λ next. (mount (B.state board.new) (D.sight drive.new)).terms
        ≡ (mount (B.state board.old) (D.sight drive.old)).terms) }
    ensures room { length buffer.new ≡ length buffer.old }

    // The piece, or why there is none.
    ensures own { IfOk result (λ next. IfSome next IsOwnPlace) }
    ensures told { IfOk result (λ next. PieceTold shape
        (mount (B.state board.old) (D.sight drive.old)).terms (B.state board.old)
        (B.state board.new) place next) }
    ensures ends { IfErr result (λ end. PieceEnds shape
        (mount (B.state board.old) (D.sight drive.old)).terms (B.state board.old)
        (B.state board.new) place end) }
{
    match ask_keys(words, drive, board, buffer, shape, place) {
        Ok(next) => match say(board, words.text()) {
            Ok(()) => Ok(next),
            Err(_) => Err(WordEnd::Output),
        },
        Err(halt) => Err(end_of(halt)),
    }
}
