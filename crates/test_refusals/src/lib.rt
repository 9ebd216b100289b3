//! Tests only: each request for memory is refused in turn, in runs of the calls that allocate.
//!
//! Each run reports that it is out of memory, or returns the complete answer, and changes nothing where it says so.
#![tactic(auto)]

#[cfg(test)]
mod answers;
#[cfg(test)]
mod blocks;
#[cfg(test)]
mod clients;
#[cfg(test)]
mod collections;
#[cfg(test)]
mod downloads;
#[cfg(test)]
mod files;
#[cfg(test)]
mod received_files;
#[cfg(test)]
mod replays;
#[cfg(test)]
mod requests;
#[cfg(test)]
mod starts;
#[cfg(test)]
mod table;
#[cfg(test)]
mod table_steps;
#[cfg(test)]
mod tables;
#[cfg(test)]
mod uploads;
