//! Tests only: the commands over readers, writers and wires in memory, which fail. What they print and do with files and
//! sockets of the system is tested by the built program (`system_tests`).
#![tactic(auto)]

#[cfg(test)]
mod files;
#[cfg(test)]
mod folder_files;
#[cfg(test)]
mod puts;
#[cfg(test)]
mod streams;
