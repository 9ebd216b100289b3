//! Tests only: the wire over loopback and the keeper over a folder.
#![tactic(auto)]

#[cfg(test)]
mod archives;
#[cfg(test)]
mod pairs;
#[cfg(test)]
mod ports;
#[cfg(test)]
mod wires;
