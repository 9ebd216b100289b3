//! Tests only: the steps of the server's table, by hand and drawn. RFC 1350 sections 2, 4 and 5.
//!
//! The expected result of a step by hand is written out as bytes. Drawn steps are compared with those of a plain server
//! that has no contract.
#![tactic(auto)]

#[cfg(test)]
mod archive;
#[cfg(test)]
mod drawing;
#[cfg(test)]
mod keeping;
#[cfg(test)]
mod places;
#[cfg(test)]
mod plain;
#[cfg(test)]
mod plain_file;
#[cfg(test)]
mod plain_packet;
#[cfg(test)]
mod schedules;
