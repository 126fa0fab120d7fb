// Reads the sheets of the checker from lent text.
#![tactic(auto)]

mod assignment;
mod counts;
mod cursor;
mod draft;
mod formula;
mod heading;
mod lines;
mod notation;
mod number;
mod order_sheet;
mod rule_sheet;
mod side;
mod symbol;
mod symbols;
mod token;

pub use assignment::read_assignment;
pub use counts::Counts;
pub use notation::Notation;
pub use order_sheet::read_order;
pub use rule_sheet::read_rules;
pub use symbol::Symbol;
