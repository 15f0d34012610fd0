//! The place in the order of keys to which a walk has come.
ghost use Rattle.std.specs.Prelude.{◌≡◌, ◌≤◌, ◌+◌, length, slice_index};
ghost use Rattle.pk_base.specs.EntryBytes.{cell_key};
ghost use Rattle.pk_walk.specs.declared.position.Position.TheVariants.{Above};
ghost use Rattle.pk_walk.specs.Visible.{is_wanted};

use pk_base::{KEY_BYTES, Key, compare_cell};

/// All keys are wanted, or those that are not below a key, or those above it.
#[derive(Drop)]
pub enum Position {
    First,
    From(Key),
    Above(Key),
}

impl Position {
    /// Goes to those above this key. A whole key is copied in place.
    #[inline(always)]
    pub fn go_above(&mut self, key: &Key)
        ensures { self.new ≡ Above key.now }
    {
        let bytes = key.bytes();
        if bytes.len() == KEY_BYTES {
            *self = Position::Above(Key::of(key.space(), &bytes[..KEY_BYTES]));
        } else {
            *self = Position::Above(key.copy());
        }
    }

    /// Whether the key in the bytes of an entry is one of those from this position on.
    pub fn wants(&self, cell: &[u8]) -> bool
        requires { 4 + slice_index cell.now 0 ≤ length cell.now }
        ensures { result ≡ is_wanted self.now (cell_key cell.now) }
    {
        match self {
            Position::First => true,
            Position::From(from) => !compare_cell(cell, from).is_lt(),
            Position::Above(from) => compare_cell(cell, from).is_gt(),
        }
    }
}
