//! A schedule of the network as text, and the text of what it leaves: what the program `replay_schedule` reads and prints.
//!
//! Read `specs/Schedule.antt` first: the words of a line, the event that they name, and the events of a text.
//! `specs/Spelling.antt` has a text for each event, which is read back as it. `specs/Answer.antt` has the text of an outcome,
//! and what a replay's answer says. README.md has the grammar.
#![tactic(auto)]

mod answering;
mod event_line;
mod fields;
mod keyword;
mod laws;
mod lines;
mod outcome_lines;
mod printing;
mod reading;
mod schedule_fault;
mod words;

pub use answering::answer;
pub use laws::read_back;
pub use printing::print_answer;
pub use reading::read_schedule;
pub use schedule_fault::ScheduleFault;
