//! Pages of HTML of the solutions of files. README.md has a caller, and what is proved.
//!
//! Read `specs/Page.antt` and `specs/LevelPage.antt` first: they define the texts. `specs/Escaping.antt` defines how a
//! password stands in a page. The definitions in `specs/Steps.antt` are only for private functions.
//!
//! `page` writes a page with the rows of `page_row`; `page_head` and `markup` have what every page has. `level_set` reads
//! the name of a file's level set. `level_list` reads a list of levels, and `level_page`, `side_by_side`, `level_section`
//! and `level_rows` write a page by it.
#![tactic(auto)]

mod escaped_char;
mod laws;
mod level;
mod level_list;
mod level_page;
mod level_rows;
mod level_section;
mod level_set;
mod markup;
mod page;
mod page_head;
mod page_row;
mod password;
mod side_by_side;
mod time_left;
mod totals;

pub use byte_output::OutFault;
pub use laws::{escaped, self_contained};
pub use level::Level;
pub use level_list::read_levels;
pub use level_page::write_page_by;
pub use level_set::{SHOWN_NAME, ShownName, set_name};
pub use page::{write_page, write_page_with};
pub use time_left::{NO_LIMIT, TimeLeft};
