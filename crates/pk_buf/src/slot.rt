use pk_base::{Entry, Key};

/// A place of the table, with its entry.
#[derive(Drop)]
pub struct Slot {
    pub entry: Entry,
}

// What is in a place that is not used. All places are, so no table has it.
impl Default for Slot {
    fn default() -> Slot {
        Slot {
            entry: Entry::Gone {
                key: Key::of(1, &[0]),
            },
        }
    }
}
