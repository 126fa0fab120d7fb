// Where nodes lie, and where answered questions are remembered.
#![tactic(auto)]

mod blank;
mod calls;
mod hashed;
mod limit;
mod memo;
mod node_key;
mod plain;
mod question;
mod slots;
mod spread;
mod store;

pub use blank::BlankMemo;
pub use calls::{StoreAnswer, StoreCall, perform};
pub use hashed::HashedStore;
pub use memo::Memo;
pub use node_key::NodeKey;
pub use plain::PlainStore;
pub use question::{Answered, Operation, Question};
pub use slots::SlotMemo;
pub use store::Store;
