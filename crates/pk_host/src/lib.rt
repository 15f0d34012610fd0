//! Typed calls of a host over the port of a drive: store, retrieve, delete, look, and list keys.
//!
//! Each call says what the definition answers over the port's map, and which commands took the port.
#![tactic(auto)]

mod ask;
mod handed;
mod host;
mod key_page;
mod listing;
mod lists;
mod port;
mod report;
pub mod sizes;
mod types;
mod whole;

pub use handed::{are_fields, is_handed};
pub use host::Host;
pub use key_page::KeyPage;
pub use port::Port;
pub use types::{Completed, HostError, PortFault, StoreRule};
