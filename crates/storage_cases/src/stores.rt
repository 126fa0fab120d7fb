use super::generic::lend;
use model::{Node, Refusal, Root};
use std::process::Abort;
use std::test::Fail;
use storage::{HashedStore, NodeKey, PlainStore, Store, StoreAnswer, StoreCall, perform};
use table::Cell;

fn node(fact: u8, low: u32, high: u32) -> Node {
    Node {
        fact,
        low: Root::Inner(low),
        high: Root::Inner(high),
    }
}

fn no_memory<S: Store>(rt: &impl Abort, store: &mut S) {
    assert_eq!(rt; store.capacity(), 0);
    assert_eq!(rt;
        store.find_or_add(node(0, 1, 2)),
        Err(Refusal::StoreFull.at(0))
    );
    store.cut(5);
    assert_eq!(rt; store.len(), 0);
    store.clear();
    assert_eq!(rt; store.node(0), None);
}

fn one_cell<S: Store>(rt: &impl Abort, store: &mut S) {
    assert_eq!(rt; store.find_or_add(node(3, 1, 2)), Ok(0));
    assert_eq!(rt;
        store.find_or_add(node(4, 1, 2)),
        Err(Refusal::StoreFull.at(0)),
        "full"
    );
    assert_eq!(rt;
        store.find_or_add(node(3, 1, 2)),
        Ok(0),
        "an equal node is found in a full store"
    );
    store.cut(0);
    assert_eq!(rt; store.find_or_add(node(4, 1, 2)), Ok(0));
    assert_eq!(rt; store.len(), 1);
}

fn several<S: Store>(rt: &impl Abort, store: &mut S) {
    let leaf = Node {
        fact: 3,
        low: Root::Leaf(1),
        high: Root::Inner(2),
    };
    assert_eq!(rt; store.find_or_add(node(3, 1, 2)), Ok(0));
    assert_eq!(rt; store.find_or_add(leaf), Ok(1), "a leaf is no node");
    assert_eq!(rt;
        store.find_or_add(node(3, 2, 1)),
        Ok(2),
        "low and high differ"
    );
    assert_eq!(rt; store.find_or_add(leaf), Ok(1), "found again");
    store.cut(2);
    assert_eq!(rt; store.node(2), None, "cut off");
    assert_eq!(rt;
        store.find_or_add(node(9, 2, 1)),
        Ok(2),
        "places go on where the cut was"
    );
    store.clear();
    assert_eq!(rt; store.len(), 0);
    assert_eq!(rt; store.find_or_add(leaf), Ok(0));
}

#[test]
fn plain(rt: HostRuntime) {
    no_memory(&rt, &mut PlainStore::new(&mut []));
    one_cell(&rt, &mut PlainStore::new(&mut [node(3, 1, 2)]));
    several(&rt, &mut PlainStore::new(&mut [node(3, 1, 2); 5]));
}

#[test]
fn hashed(rt: HostRuntime) {
    no_memory(&rt, &mut HashedStore::new(&mut []));
    one_cell(&rt, &mut HashedStore::new(&mut [Cell::<NodeKey>::empty()]));
    several(
        &rt,
        &mut HashedStore::new(&mut [Cell::<NodeKey>::empty(); 5]),
    );
}

#[test]
fn much_memory(rt: HostRuntime) -> Result<(), Fail> {
    let mut nodes = vec![in rt.alloc(); node(0, 0, 0); 1_048_577]?;
    assert_eq!(rt; PlainStore::new(nodes.as_mut_slice()).capacity(), 1_048_576);
    let mut cells = vec![in rt.alloc(); Cell::<NodeKey>::empty(); 1_048_577]?;
    assert_eq!(rt;
        HashedStore::new(cells.as_mut_slice()).capacity(),
        1_048_576
    );
    Ok(())
}

#[test]
fn alike(rt: HostRuntime) {
    let calls = [
        StoreCall::FindOrAdd(node(1, 0, 0)),
        StoreCall::FindOrAdd(node(2, 0, 0)),
        StoreCall::FindOrAdd(node(1, 0, 0)),
        StoreCall::FindOrAdd(node(3, 0, 0)),
        StoreCall::NodeAt(1),
        StoreCall::NodeAt(2),
        StoreCall::Cut(1),
        StoreCall::Len,
        StoreCall::FindOrAdd(node(3, 0, 0)),
        StoreCall::Capacity,
        StoreCall::Clear,
        StoreCall::NodeAt(0),
    ];
    let mut nodes = [node(1, 0, 0); 2];
    let mut cells = [Cell::<NodeKey>::empty(); 2];
    let mut plain = PlainStore::new(&mut nodes);
    let mut hashed = HashedStore::new(&mut cells);
    for call in calls {
        assert_eq!(rt; perform(&mut plain, call), perform(&mut hashed, call));
    }
}

#[test]
fn lent(rt: HostRuntime) {
    let mut nodes = [node(1, 0, 0); 2];
    lend(&mut nodes, node(7, 8, 9));
    assert_eq!(rt; nodes[0], node(7, 8, 9));
}
