//! The log of a server, and the history of what it took: an observer of its steps, and a keeper that reports what is not kept.
//!
//! Read `specs/Events.antt` first: which event of the log a step is. `specs/Lines.antt` has the line of each event, and
//! `specs/Budget.antt` which lines are left out, and `specs/ServerLog.antt` what a step leaves in a history.
#![tactic(auto)]

mod cause_words;
mod laws;
mod line_budget;
mod log_event;
mod log_line;
mod logged_transfer;
mod logged_transfers;
mod lost_words;
mod pairs;
mod peer;
mod reporting_keeper;
mod server_log;
mod upload;

pub use laws::{limit_values, line_law};
pub use line_budget::{LINES, LineBudget};
pub use log_event::LogEvent;
pub use log_line::LogLine;
pub use logged_transfer::{LoggedTransfer, TransferKind};
pub use logged_transfers::LoggedTransfers;
pub use reporting_keeper::ReportingKeeper;
pub use server_log::ServerLog;
pub use upload::Upload;
