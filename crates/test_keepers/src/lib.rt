//! Tests only: keeps in a folder, each call of which fails in turn, and what a crash leaves; keeps with a limit, and of
//! solutions that stop Tile World.
#![tactic(auto)]

#[cfg(test)]
mod crashes;
#[cfg(test)]
mod full_disk;
#[cfg(test)]
mod limits;
#[cfg(test)]
mod samples;
#[cfg(test)]
mod solutions;
