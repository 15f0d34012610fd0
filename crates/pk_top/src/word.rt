//! What the words of the program ask for.

use pk_space::Limits;
use pk_wordrun::Task;

/// What the words ask for.
#[derive(Drop)]
pub enum Word {
    /// A new image whose drive has namespaces with these limits of a shape.
    Make(Limits),
    /// To serve the input with this many frames.
    Serve(u32),
    /// To ask the drive.
    Ask(Task),
    /// To turn lines into entries.
    Assemble,
    /// To turn records into lines.
    Show,
}
