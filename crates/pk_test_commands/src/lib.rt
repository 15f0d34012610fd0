//! Tests of commands and their texts, of the machine in memory, and of the host driver, over a port of its own.
#![tactic(auto)]

#[cfg(test)]
mod asm;
#[cfg(test)]
mod calls;
#[cfg(test)]
mod machine;
#[cfg(test)]
mod memory_port;
#[cfg(test)]
mod model;
#[cfg(test)]
mod nvme;
#[cfg(test)]
mod show;
#[cfg(test)]
mod text;
#[cfg(test)]
mod workload;
