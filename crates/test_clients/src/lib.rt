//! Tests only: the steps of a client, by hand and drawn. RFC 1350 sections 2, 4 and 5.
#![tactic(auto)]

#[cfg(test)]
mod by_hand;
#[cfg(test)]
mod drawn;
