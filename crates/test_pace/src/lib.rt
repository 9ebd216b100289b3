//! Tests only: when last blocks may be taken, and a wire that holds them, over one in memory.
#![tactic(auto)]

#[cfg(test)]
mod moments;
#[cfg(test)]
mod wires;
