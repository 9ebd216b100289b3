//! Tests only: servers and clients over wires in memory, by hand and joined. RFC 1350 sections 2, 4 and 5.
#![tactic(auto)]

#[cfg(test)]
mod crossing;
#[cfg(test)]
mod giving;
#[cfg(test)]
mod keeping;
#[cfg(test)]
mod observing;
#[cfg(test)]
mod rounds;
#[cfg(test)]
mod runs;
#[cfg(test)]
mod turns;
#[cfg(test)]
mod waiting;
#[cfg(test)]
mod wires;
