//! Places of values.
ghost use Rattle.std.specs.Prelude.{◌≡◌};
ghost use Rattle.pk_parts.specs.Finding.{named_by, named_by_found};

use pk_base::{Entry, Place};
use pk_nand::Fault;

/// The place that an entry names; None for a deleted key, and if there is no entry.
pub fn place_in(entry: &Option<Entry>) -> Option<Place>
    ensures { result ≡ named_by entry.now }
{
    match entry {
        Some(Entry::Put { page, len, .. }) => Some(Place {
            page: *page,
            len: *len,
        }),
        Some(Entry::Gone { .. }) | None => None,
    }
}

/// The place that an entry names which was searched for.
pub fn place_found(found: Result<Option<Entry>, Fault>) -> Result<Option<Place>, Fault>
    ensures { result ≡ named_by_found found }
{
    match found {
        Ok(entry) => Ok(place_in(&entry)),
        Err(fault) => Err(fault),
    }
}
