// What the programs over the library share: reading the sheets of the current folder, and telling why one is
// refused.
#![tactic(auto)]

mod files;
mod message;
mod reading;
mod refused;
mod sheet;
mod stop;

pub use files::text_of;
pub use reading::{read_order_file, read_sheet_file};
pub use refused::Refused;
pub use sheet::{Sheet, order_of, sheet_of};
pub use stop::{Stop, report};
