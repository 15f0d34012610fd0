//! Tests of the parts of a drive in memory: plans, frames, buffers, live maps and queues, over heaps of a fixed size; and of the memory
//! of an engine's parts, each of which is made in heaps that grow by 16 bytes, up to the first that has enough.
#![tactic(auto)]

#[cfg(test)]
mod buf;
#[cfg(test)]
mod live;
#[cfg(test)]
mod parts;
#[cfg(test)]
mod pin;
#[cfg(test)]
mod plan;
#[cfg(test)]
mod queue;
#[cfg(test)]
mod tests;
