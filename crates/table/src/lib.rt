// A table that gives equal keys one number, over lent cells.
#![tactic(auto)]

mod cell;
mod key;
mod table;

pub use cell::Cell;
pub use key::Key;
pub use table::{Full, Table};
