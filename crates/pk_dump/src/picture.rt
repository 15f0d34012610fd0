//! What a page is, as a letter.
use pk_nand::PageState;

/// What a block is for.
#[derive(Clone, Copy)]
pub enum BlockUse {
    /// Roots.
    Root,
    /// The newest epoch.
    Newest,
    /// The older epoch.
    Older,
    /// The run of this level, 1 to 4.
    Run { level: u8 },
    /// Values, or nothing.
    Rest,
}

/// What is known of the value to which a page belongs.
#[derive(Clone, Copy)]
pub enum Life {
    /// It is the value of a key that exists.
    Live,
    /// It is no key's value.
    Dead,
    /// The flash holds no map.
    Unknown,
}

/// The letter of a Whole page.
fn letter_of_whole(used: BlockUse, life: Life) -> char {
    match used {
        BlockUse::Root => 'R',
        BlockUse::Newest => 'J',
        BlockUse::Older => 'j',
        BlockUse::Run { level: 1 } => '1',
        BlockUse::Run { level: 2 } => '2',
        BlockUse::Run { level: 3 } => '3',
        BlockUse::Run { .. } => '4',
        BlockUse::Rest => match life {
            Life::Live => 'V',
            Life::Dead => 'v',
            Life::Unknown => '?',
        },
    }
}

/// The letter of a page: `.` is Erased, `x` Torn; of a Whole page `R` a root, `J` the newest epoch,
/// `j` the older one, `1` to `4` a run, `V` a live value, `v` a dead one, `?` if that is not known.
pub fn letter(used: BlockUse, life: Life, page: &PageState) -> char {
    match page {
        PageState::Erased => '.',
        PageState::Torn => 'x',
        PageState::Whole(_) => letter_of_whole(used, life),
    }
}
