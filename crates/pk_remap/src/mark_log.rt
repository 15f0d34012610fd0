//! The marks that a flash reports, in room that was taken before.
ghost use Rattle.std.specs.Prelude.{◌≡◌, ◌≤◌, ◌*◌, vec_len, vec_capacity};
ghost use Rattle.pk_remap.specs.Noted.{noted_bytes};

/// A mark, whose bytes are elsewhere: their number is here.
#[derive(Clone, Copy, Debug)]
pub enum NotedMark {
    Program { page: u32, len: usize },
    Erase { block: u32 },
    Post { len: usize },
}

/// Marks in order, and the bytes of all of them one after another. The room is a number of marks with a page of bytes each; without room
/// no mark is reported.
#[derive(Drop)]
pub struct MarkLog {
    pub(crate) room: usize,
    /// How many bytes each mark of the room has; 0 before the room is taken.
    pub(crate) page_bytes: usize,
    /// How many marks of the room are used.
    pub(crate) used: usize,
    pub(crate) marks: Vec<NotedMark>,
    pub(crate) bytes: Vec<u8>,
    ghost within: { used ≤ room },
    ghost counted: { vec_len marks ≤ used },
    ghost marks_fit: { page_bytes ≡ 0 → used ≡ 0 },
    ghost has_marks: { 1 ≤ page_bytes → room ≤ vec_capacity marks },
    ghost bytes_are: { noted_bytes marks.items ≡ vec_len bytes },
    ghost bytes_fit: { vec_len bytes ≤ used * page_bytes },
    ghost has_bytes: { room * page_bytes ≤ vec_capacity bytes },
}
