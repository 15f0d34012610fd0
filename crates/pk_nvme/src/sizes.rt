//! Sizes of entries and records, in bytes. Code, contracts and definitions name them.

/// A submission entry (NVMe Base Specification 2.0, Submission Queue Entry).
pub const SUBMISSION_BYTES: usize = 64;
/// A completion entry (NVMe Base Specification 2.0, Completion Queue Entry).
pub const COMPLETION_BYTES: usize = 16;
/// What precedes the data of a record: the completion entry, the pages read and the bytes of the
/// data.
pub const RECORD_HEAD_BYTES: usize = 24;
/// The numbers of a Report.
pub const REPORT_NUMBERS: usize = 16;
/// The data of a Report: its numbers, of four bytes each.
pub const REPORT_BYTES: usize = 64;
