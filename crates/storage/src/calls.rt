ghost use Rattle.std.specs.Prelude.{◌≡◌};
ghost use Rattle.storage.specs.Runs.{Alike, Does};
ghost use Rattle.storage.specs.Stores.{KeepsMemory};

use crate::store::Store;
use model::{Fault, Node};

/// A call of a store.
#[derive(Clone, Copy, Debug, PartialEq, Eq)]
pub enum StoreCall {
    Clear,
    FindOrAdd(Node),
    Cut(usize),
    Capacity,
    Len,
    NodeAt(usize),
}

/// What a store answers.
#[derive(Debug, Drop, PartialEq, Eq)]
pub enum StoreAnswer {
    Done,
    Placed(Result<usize, Fault>),
    Number(usize),
    Held(Option<Node>),
}

// Calls are data here and no closures, since the law speaks of every list of calls.
/// Makes a call of a store, whatever kind of store it is.
pub fn perform<S: Store>(store: &mut S, call: StoreCall) -> StoreAnswer
    ensures does { Does (S.Store.capacity store.old) (S.Store.nodes store.old) call result (S.Store.nodes store.new) }
    ensures memory { KeepsMemory S.Store.capacity S.Store.lent store.old store.new }
    ensures alike { Alike (S.Store.capacity store.old) }
{
    match call {
        StoreCall::Clear => {
            store.clear();
            StoreAnswer::Done
        }
        StoreCall::FindOrAdd(node) => StoreAnswer::Placed(store.find_or_add(node)),
        StoreCall::Cut(count) => {
            store.cut(count);
            StoreAnswer::Done
        }
        StoreCall::Capacity => StoreAnswer::Number(store.capacity()),
        StoreCall::Len => StoreAnswer::Number(store.len()),
        StoreCall::NodeAt(place) => StoreAnswer::Held(store.node(place)),
    }
}
