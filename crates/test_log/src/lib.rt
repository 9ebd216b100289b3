//! Tests only: the history of a table whose steps are logged, each call of which fails in turn, and which lines of a log are
//! left out. The lines are tested by the built program (`system_tests/logging`).
#![tactic(auto)]

#[cfg(test)]
mod budgets;
#[cfg(test)]
mod histories;
#[cfg(test)]
mod site;
