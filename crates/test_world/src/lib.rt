//! Tests only: lists of events for `replay` and `replay_from`, with what their keeper has and is given, and with keepers that
//! fail. Lists without a keeper of their own are tested by the program `replay_schedule` (`system_tests/schedules`).
#![tactic(auto)]

#[cfg(test)]
mod keeping;
#[cfg(test)]
mod scene;
#[cfg(test)]
mod starting;
#[cfg(test)]
mod unknown_keeps;
