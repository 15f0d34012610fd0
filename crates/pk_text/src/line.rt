//! Lines of a text script, and what they give.
ghost use Rattle.std.specs.Prelude.{◌≡◌, ◌≤◌, ◌<◌, ◌+◌, ◌^◌, ◌++◌, length, IfOk, IfErr, OnOk, OnErr};
ghost use Rattle.pk_asm.specs.declared.sizes.TheConstants.{MOST_LINE_VALUE_BYTES};
ghost use Rattle.pk_nand.specs.Operations.{after_post, PostFailed};
ghost use Rattle.pk_text.specs.Steps.{LineTaken, NoLine, LineGives, GivesNot};

use crate::TextEnd;
use crate::feed::Feed;
use pk_asm::{MOST_LINE_BYTES, assemble_line};
use pk_nand::{Board, HostFault};
use pk_nvme::{Bytes, SUBMISSION_BYTES};

/// Takes a line without its line feed. False if it is the last one, which lacks it.
pub fn take_line<B: Board>(
    feed: &mut Feed,
    board: &mut B,
    line: &mut Bytes,
) -> Result<bool, TextEnd>
    requires { line.old.room ≡ MOST_LINE_BYTES + 1 }
    ensures room { line.new.room ≡ line.old.room }
    ensures ok { IfOk result (λ ended. LineTaken feed.old feed.new (B.state board.old)
        (B.state board.new) line.new.items ended) }
    ensures err { IfErr result (λ end. NoLine feed.old feed.new (B.state board.old)
        (B.state board.new) line.new.items end) }
{
    line.clear();
    for _count in 0..MOST_LINE_BYTES + 1 {
        match feed.next(board) {
            Ok(Some(byte)) => {
                if byte == b'\n' {
                    return Ok(true);
                }
                line.push(byte);
            }
            Ok(None) => {
                if line.is_empty() {
                    return Err(TextEnd::Done);
                }
                return Ok(false);
            }
            Err(_) => return Err(TextEnd::Input),
        }
    }
    Err(TextEnd::BadLine)
}

/// Posts an entry and the bytes after it in one piece.
fn post_entry<B: Board>(
    board: &mut B,
    entry: &[u8; SUBMISSION_BYTES],
    value: &Bytes,
    out: &mut Bytes,
) -> Result<(), HostFault>
    requires { value.now.room + SUBMISSION_BYTES ≤ out.old.room }
    ensures room { out.new.room ≡ out.old.room }
    ensures ok { OnOk result
        (B.state board.new ≡ after_post (B.state board.old) (entry.now ++ value.now.items)) }
    ensures err { OnErr result
        (PostFailed (B.state board.old) (B.state board.new) (entry.now ++ value.now.items)) }
{
    let _left = value.left();
    out.clear();
    out.extend(entry);
    out.extend(value.bytes());
    board.post(out.bytes())
}

/// Posts what a line gives. Answers the number of the next entry.
pub fn give_line<B: Board>(
    board: &mut B,
    line: &[u8],
    number: u64,
    value: &mut Bytes,
    out: &mut Bytes,
) -> Result<u64, TextEnd>
    requires number { number < 2 ^ 63 }
    requires value_room { value.old.room ≡ MOST_LINE_VALUE_BYTES }
    requires out_room { out.old.room ≡ SUBMISSION_BYTES + MOST_LINE_VALUE_BYTES }

    // The buffers may be used again.
    ensures value_room { value.new.room ≡ value.old.room }
    ensures out_room { out.new.room ≡ out.old.room }

    // What was posted, and the number of the next line.
    ensures few { IfOk result (λ next. next ≤ number + 1) }
    ensures ok { IfOk result
        (λ next. LineGives number line.now next (B.state board.old) (B.state board.new)) }
    ensures err { IfErr result
        (λ end. GivesNot number line.now (B.state board.old) (B.state board.new) end) }
{
    match assemble_line(line, number, value) {
        Ok(None) => Ok(number),
        Ok(Some(entry)) => match post_entry(board, &entry, value, out) {
            Ok(()) => Ok(number + 1),
            Err(_) => Err(TextEnd::Output),
        },
        Err(_) => Err(TextEnd::BadLine),
    }
}
