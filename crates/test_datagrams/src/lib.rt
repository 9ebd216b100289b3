//! Tests only: datagrams of real clients, and the two ends of a transfer, worked out by hand and in drawn runs. RFC
//! 1350, RFC 1123 section 4.2.3.1.
#![tactic(auto)]

#[cfg(test)]
mod datagrams;
#[cfg(test)]
mod ends;
#[cfg(test)]
mod faults;
#[cfg(test)]
mod pairs;
