// The vocabulary of the checker: what a refused call tells, the order of facts, gates and outputs,
// roots and nodes.
#![tactic(auto)]

mod decomposition;
mod fact;
mod fault;
mod gate;
mod name;
mod node;
mod order;
mod output;
mod root;

pub use decomposition::{Decomposition, UnknownLetter};
pub use fact::Fact;
pub use fault::{Fault, Layer, Refusal};
pub use gate::{Gate, GateKind, UnknownKind};
pub use name::{Name, NotAName, is_word_byte};
pub use node::Node;
pub use order::Order;
pub use output::Output;
pub use root::Root;
