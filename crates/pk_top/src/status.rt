//! The statuses of a run.
ghost use Rattle.std.specs.Prelude.{◌≡◌};

/// How a run ended: the program's exit status.
#[derive(Clone, Copy, Debug, PartialEq, Eq)]
pub struct Status(pub u8);

impl Status {
    /// The input was read to its end, or the word is done.
    pub const DONE: Status = Status(0);
    /// The words are outside the table.
    pub const WORDS: Status = Status(2);
    /// The input ends inside an entry, a value or a record; all before it was served.
    pub const TRUNCATED: Status = Status(3);
    /// The input failed.
    pub const INPUT: Status = Status(4);
    /// The output failed.
    pub const OUTPUT: Status = Status(5);
    /// The flash failed.
    pub const FLASH: Status = Status(6);
    /// Memory is missing; no byte was taken and none was posted.
    pub const MEMORY: Status = Status(7);
    /// No drive is found.
    pub const NO_DRIVE: Status = Status(8);
    /// `make` found an image.
    pub const IMAGE_EXISTS: Status = Status(9);
    /// Another entry begins, and no more are taken; or a text has another line, and no more are counted.
    pub const WORN: Status = Status(10);
    /// A line of a text script is outside the grammar.
    pub const BAD_LINE: Status = Status(12);
}
