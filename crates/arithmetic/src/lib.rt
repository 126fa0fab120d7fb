// The arithmetics that rule sheets are worked out in.
#![tactic(auto)]

mod amounts;
mod net;
mod ring;
mod signals;
mod yes_no;

pub use amounts::Amounts;
pub use net::Net;
pub use ring::Arithmetic;
pub use signals::Signals;
pub use yes_no::YesNo;
