//! A text goes out.
ghost use Rattle.std.specs.Prelude.{◌≡◌, OnOk, OnErr};
ghost use Rattle.pk_nand.specs.Operations.{after_post, PostFailed};

use pk_nand::{Board, HostFault};

/// Posts a text; nothing is done if it is empty.
pub fn say<B: Board>(board: &mut B, text: &[u8]) -> Result<(), HostFault>
    ensures posts { OnOk result
        (B.state board.new ≡ after_post (B.state board.old) text.now) }
    ensures fails { OnErr result
        (PostFailed (B.state board.old) (B.state board.new) text.now) }
{
    board.post(text)
}
