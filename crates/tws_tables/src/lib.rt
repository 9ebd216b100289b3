//! A solution file as text: its listing, and its solutions as comma-separated values. README.md has a caller, and what is
//! proved.
//!
//! Read `specs/Listing.antt` and `specs/Csv.antt` first: they define the texts. The definitions in `specs/Steps.antt` are
//! only for private functions.
//!
//! `listing` and `comma_values` write the texts; `lines` has the lines of a listing, and `csv_row` those of the values.
//! `rows` gathers the rows of a table in any `RowFormat`; `Seconds`, `HexByte` and `move_count` are for these formats.
#![tactic(auto)]

mod comma_values;
mod counting;
mod csv_row;
mod hex_byte;
mod laws;
mod lines;
mod listing;
mod row_format;
mod rows;
mod seconds;
mod sending;

pub use byte_output::OutFault;
pub use comma_values::write_csv;
pub use counting::move_count;
pub use hex_byte::HexByte;
pub use laws::comma_separated;
pub use listing::show;
pub use row_format::RowFormat;
pub use rows::send_rows;
pub use seconds::Seconds;
