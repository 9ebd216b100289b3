//! What the commands of the archive share: addresses, the port and other numbers among their arguments, and lines with a number.
//!
//! Read `specs/Address.antt` first, then `specs/Arguments.antt`. The crate's README shows how it is called.
#![tactic(auto)]

mod address;
mod arguments;
mod laws;
mod limits;
mod line;
mod reporting;

pub use address::Address;
pub use arguments::{flag_given, number_argument, number_given, port_argument, port_given};
pub use laws::limit_values;
pub use limits::{MAX_PORT, PORT};
pub use line::{push_line, write_line};
pub use reporting::bad_address;
