//! Answer records, taken and shown piece by piece.
ghost use Rattle.std.specs.Prelude.{◌≡◌, ◌≤◌, ◌<◌, ◌-◌, ◌*◌, ℕ, List, length, IfOk, IfErr, OnOk, OnErr, codes};
ghost use Rattle.pk_nand.specs.Operations.{after_post, PostFailed};
ghost use Rattle.pk_nvme.specs.Reply.{data_bytes_at};
ghost use Rattle.pk_nvme.specs.Text.{hex_text};
ghost use Rattle.pk_show.specs.Shown.{shown_head};
ghost use Rattle.pk_text.specs.Written.{Written};
ghost use Rattle.pk_text.specs.Records.{data_shown, head_shown};
ghost use Rattle.pk_text.specs.Turns.{TurnsFrom};
ghost use Rattle.pk_text.specs.declared.end.TextEnd.{TextEnd};
ghost use Rattle.pk_text.specs.Steps.{HeadTaken, FeedFailed, TextAdvances, ahead};

use crate::TextEnd;
use crate::feed::Feed;
use crate::sizes::PIECE;
use pk_nand::{Board, HostFault};
use pk_nvme::{Bytes, RECORD_HEAD_BYTES, cid_in, data_bytes_in, reads_in, result_in};
use pk_show::{show_head, show_piece};

/// Takes the head of a record. False if the input ends before it is whole.
pub fn take_head<B: Board>(
    feed: &mut Feed,
    board: &mut B,
    head: &mut Bytes,
) -> Result<bool, HostFault>
    requires { head.old.room ≡ RECORD_HEAD_BYTES }
    ensures room { head.new.room ≡ head.old.room }
    ensures ok { IfOk result (λ whole. HeadTaken feed.old feed.new (B.state board.old)
        (B.state board.new) head.new.items whole) }
    ensures err { OnErr result (FeedFailed (B.state board.old) (B.state board.new)) }
{
    head.clear();
    for _count in 0..RECORD_HEAD_BYTES {
        match feed.next(board) {
            Ok(Some(byte)) => head.push(byte),
            Ok(None) => return Ok(false),
            Err(fault) => return Err(fault),
        }
    }
    Ok(true)
}

// Writes the start of a record's line.
fn write_front(head: &[u8; RECORD_HEAD_BYTES], text: &mut Bytes)
    requires { text.old.room ≡ 2 * PIECE }
    ensures { text.new ≡ record text.old { items = shown_head head.now } }
{
    let _numbers = (cid_in(head), result_in(head), reads_in(head));
    text.clear();
    if !show_head(head, text) {
        unreachable!();
    }
}

/// Posts the start of the line of the record with this head. Returns the number of bytes of its
/// data.
pub fn post_front<B: Board>(board: &mut B, head: &Bytes, text: &mut Bytes) -> Result<u32, HostFault>
    requires whole { length head.now.items ≡ RECORD_HEAD_BYTES }
    requires room { text.old.room ≡ 2 * PIECE }
    ensures room { text.new.room ≡ text.old.room }
    ensures size { IfOk result (λ size. size ≡ data_bytes_at head.now.items) }
    ensures ok { OnOk result
        (B.state board.new ≡ after_post (B.state board.old) (shown_head head.now.items)) }
    ensures err { OnErr result
        (PostFailed (B.state board.old) (B.state board.new) (shown_head head.now.items)) }
{
    let mut bytes = [0u8; RECORD_HEAD_BYTES];
    bytes.copy_from_slice(head.bytes());
    write_front(&bytes, text);
    match board.post(text.bytes()) {
        Ok(()) => Ok(data_bytes_in(&bytes)),
        Err(fault) => Err(fault),
    }
}

// Posts the digits of a piece of data.
fn post_piece<B: Board>(board: &mut B, piece: &[u8], text: &mut Bytes) -> Result<(), HostFault>
    requires { 2 * length piece.now ≤ text.old.room }
    ensures room { text.new.room ≡ text.old.room }
    ensures ok { OnOk result
        (B.state board.new ≡ after_post (B.state board.old) (hex_text piece.now)) }
    ensures err { OnErr result
        (PostFailed (B.state board.old) (B.state board.new) (hex_text piece.now)) }
{
    text.clear();
    if !show_piece(piece, text) {
        unreachable!();
    }
    board.post(text.bytes())
}

// Takes some of the data of a record, of which `left` bytes remain, and posts their digits. Returns
// how many it took.
fn show_some<B: Board>(
    feed: &mut Feed,
    board: &mut B,
    text: &mut Bytes,
    left: u32,
) -> Result<u32, TextEnd>
    requires some { 0 < left }
    requires room { text.old.room ≡ 2 * PIECE }

    // The buffer may be used again.
    ensures room { text.new.room ≡ text.old.room }

    // How much was shown, or why the run ends.
    ensures some { IfOk result (λ count. 0 < count) }
    ensures few { IfOk result (λ count. count ≤ left) }
    ensures advances { IfOk result (λ count. (more : List ℕ → Written)
        → TextAdvances (data_shown left more) (data_shown (left - count) more)
        (ahead feed.old (B.state board.old)) (ahead feed.new (B.state board.new))
        (B.state board.old) (B.state board.new)) }
    ensures quits { IfErr result (λ end. (more : List ℕ → Written)
        → TurnsFrom (data_shown left more)
        (ahead feed.old (B.state board.old)) (B.state board.old) (B.state board.new) end) }
{
    match feed.fill(board) {
        Ok(true) => {}
        Ok(false) => return Err(TextEnd::Truncated),
        Err(_) => return Err(TextEnd::Input),
    }
    let count = feed.front().len().min(left as usize).min(PIECE);
    match post_piece(board, &feed.front()[..count], text) {
        Ok(()) => {
            feed.take(count);
            Ok(count as u32)
        }
        Err(_) => Err(TextEnd::Output),
    }
}

/// Takes the data of a record, `size` bytes, and posts their digits.
pub fn show_data<B: Board>(
    feed: &mut Feed,
    board: &mut B,
    text: &mut Bytes,
    size: u32,
) -> Result<(), TextEnd>
    requires { text.old.room ≡ 2 * PIECE }
    ensures room { text.new.room ≡ text.old.room }
    ensures advances { OnOk result ((more : List ℕ → Written)
        → TextAdvances (data_shown size more) (data_shown 0 more)
        (ahead feed.old (B.state board.old)) (ahead feed.new (B.state board.new))
        (B.state board.old) (B.state board.new)) }
    ensures quits { IfErr result (λ end. (more : List ℕ → Written)
        → TurnsFrom (data_shown size more)
        (ahead feed.old (B.state board.old)) (B.state board.old) (B.state board.new) end) }
{
    let mut left = size;
    while 0 < left {
        match show_some(feed, board, text, left) {
            Ok(count) => left -= count,
            Err(end) => return Err(end),
        }
    }
    Ok(())
}

// Posts the line feed after the data of a record.
fn end_line<B: Board>(board: &mut B) -> Result<(), TextEnd>
    ensures ok { OnOk result (B.state board.new ≡ after_post (B.state board.old) (codes "\n")) }
    ensures err { OnErr result (PostFailed (B.state board.old) (B.state board.new) (codes "\n")) }
    ensures kind { IfErr result (λ end. end ≡ TextEnd.Output) }
{
    match board.post(b"\n") {
        Ok(()) => Ok(()),
        Err(_) => Err(TextEnd::Output),
    }
}

/// Posts the line of the record with this head, and takes its data.
pub fn show_record<B: Board>(
    feed: &mut Feed,
    board: &mut B,
    head: &Bytes,
    text: &mut Bytes,
) -> Result<(), TextEnd>
    requires whole { length head.now.items ≡ RECORD_HEAD_BYTES }
    requires room { text.old.room ≡ 2 * PIECE }
    ensures room { text.new.room ≡ text.old.room }
    ensures advances { OnOk result ((more : List ℕ → Written)
        → TextAdvances (head_shown head.now.items more) more
        (ahead feed.old (B.state board.old)) (ahead feed.new (B.state board.new))
        (B.state board.old) (B.state board.new)) }
    ensures quits { IfErr result (λ end. (more : List ℕ → Written)
        → TurnsFrom (head_shown head.now.items more)
        (ahead feed.old (B.state board.old)) (B.state board.old) (B.state board.new) end) }
{
    let size = match post_front(board, head, text) {
        Ok(size) => size,
        Err(_) => return Err(TextEnd::Output),
    };
    match show_data(feed, board, text, size) {
        Ok(()) => end_line(board),
        Err(end) => Err(end),
    }
}
