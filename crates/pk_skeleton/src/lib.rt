//! A board to start from: the calls of a flash and of a host over a driver of flash parts and a link to a host, each a trait of few
//! calls. The board counts and passes on. Whoever has parts writes `Chips` and `Link` for them, and the board is proved for these.
//!
//! The parts here are simulated, so that tests run the program over the board.
#![tactic(auto)]

mod board;
mod chips;
mod link;
mod simulated;

pub use board::ChipBoard;
pub use chips::{ChipFault, Chips};
pub use link::{Link, LinkFault};
pub use simulated::{MemoryLink, SimulatedChips};
