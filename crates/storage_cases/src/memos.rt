use super::generic::recall_or_add;
use model::{Node, Root};
use std::test::Fail;
use storage::{Answered, BlankMemo, Memo, PlainStore, Question, SlotMemo, Store};

fn leaf(value: u32) -> Root {
    Root::Leaf(value)
}

#[test]
fn no_slots(rt: HostRuntime) {
    let mut slots: [Option<Answered>; 0] = [];
    let mut memo = SlotMemo::new(&mut slots);
    let minus = Question::Minus(Root::Inner(3));
    memo.keep(minus, leaf(7));
    assert_eq!(rt; memo.ask(minus), None);
    memo.forget();
    assert_eq!(rt; memo.ask(minus), None);
}

#[test]
fn one_slot(rt: HostRuntime) {
    let sum = Question::Sum(leaf(1), Root::Inner(2));
    let times = Question::Times(leaf(1), Root::Inner(2));
    let mut slots = [Some(Answered {
        question: sum,
        answer: leaf(5),
    })];
    let mut memo = SlotMemo::new(&mut slots);
    assert_eq!(rt;
        memo.ask(sum),
        None,
        "what the slots held before does not matter"
    );
    memo.keep(sum, leaf(6));
    assert_eq!(rt; memo.ask(sum), Some(leaf(6)));
    assert_eq!(rt; memo.ask(times), None, "another operation");
    memo.keep(times, leaf(7));
    assert_eq!(rt; memo.ask(times), Some(leaf(7)));
    assert_eq!(rt; memo.ask(sum), None, "a new one over an old one");
    memo.forget();
    assert_eq!(rt; memo.ask(times), None);
}

#[test]
fn blank(rt: HostRuntime) {
    let mut memo = BlankMemo;
    let sum = Question::Sum(leaf(1), Root::Inner(2));
    memo.keep(sum, leaf(6));
    assert_eq!(rt; memo.ask(sum), None);
    memo.forget();
    assert_eq!(rt; memo.ask(sum), None);
}

#[test]
fn through_the_traits(rt: HostRuntime) {
    let node = Node {
        fact: 0,
        low: leaf(0),
        high: leaf(1),
    };
    let minus = Question::Minus(leaf(4));
    let mut cells = [node; 1];
    let mut slots = [None; 8];
    let mut store = PlainStore::new(&mut cells);
    let mut memo = SlotMemo::new(&mut slots);
    assert!(rt; recall_or_add(&mut store, &mut memo, minus, node).is_ok());
    store.clear();
    assert!(rt; recall_or_add(&mut store, &mut memo, minus, node).is_ok());
    assert_eq!(rt; store.len(), 0, "recalled, so nothing was added");
}

#[test]
fn many_slots(rt: HostRuntime) -> Result<(), Fail> {
    let mut slots = vec![in rt.alloc(); None; 1000]?;
    let mut memo = SlotMemo::new(slots.as_mut_slice());
    let sum = Question::Sum(leaf(1), Root::Inner(2));
    let turned = Question::Sum(Root::Inner(2), leaf(1));
    memo.keep(sum, leaf(6));
    memo.keep(turned, leaf(7));
    assert_eq!(rt; memo.ask(sum), Some(leaf(6)));
    assert_eq!(rt; memo.ask(turned), Some(leaf(7)));
    assert_eq!(rt; memo.ask(Question::Minus(leaf(1))), None);
    Ok(())
}
