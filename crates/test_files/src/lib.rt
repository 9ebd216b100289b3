//! Tests only: given moves, files and collections, and what is read from them and written for them. The expected
//! results are written out, or come from a plain slow program.
#![tactic(auto)]

#[cfg(test)]
mod collections;
#[cfg(test)]
mod files;
#[cfg(test)]
mod large;
#[cfg(test)]
mod moves_read;
#[cfg(test)]
mod moves_written;
#[cfg(test)]
mod pieces;
#[cfg(test)]
mod snapshots;
