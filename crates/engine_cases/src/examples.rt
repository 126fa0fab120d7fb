use super::games::{Put, ask};
use super::orders::{BLANK, order};
use arithmetic::{Amounts, YesNo};
use engine::Engine;
use model::{Decomposition, Node, Refusal, Root};
use std::test::Fail;
use storage::{BlankMemo, PlainStore, Question, Store};

#[test]
fn product_of_two_facts(rt: HostRuntime) -> Result<(), Fail> {
    let mut nodes = [BLANK; 3];
    let order = order(&rt, &[Decomposition::Shannon, Decomposition::PositiveDavio])?;
    let mut engine = Engine::open(order, YesNo, PlainStore::new(&mut nodes), BlankMemo);
    assert_eq!(rt; ask(&mut engine, Put::Fact(0)), Ok(Root::Inner(0)));
    assert_eq!(rt; ask(&mut engine, Put::Fact(1)), Ok(Root::Inner(1)));
    let times = Put::Question(Question::Times(Root::Inner(0), Root::Inner(1)));
    assert_eq!(rt; ask(&mut engine, times), Ok(Root::Inner(2)));
    assert_eq!(rt; engine.store().len(), 3);
    let product = Node {
        fact: 0,
        low: Root::Leaf(0),
        high: Root::Inner(1),
    };
    assert_eq!(rt; engine.store().node(2), Some(product));
    assert_eq!(rt;
        ask(&mut engine, times),
        Ok(Root::Inner(2)),
        "asked again in a full store"
    );
    Ok(())
}

#[test]
fn no_room(rt: HostRuntime) -> Result<(), Fail> {
    let mut nodes = [BLANK; 2];
    let order = order(&rt, &[Decomposition::Shannon, Decomposition::PositiveDavio])?;
    let mut engine = Engine::open(order, YesNo, PlainStore::new(&mut nodes), BlankMemo);
    assert_eq!(rt; ask(&mut engine, Put::Fact(0)), Ok(Root::Inner(0)));
    assert_eq!(rt; ask(&mut engine, Put::Fact(1)), Ok(Root::Inner(1)));
    let times = Put::Question(Question::Times(Root::Inner(0), Root::Inner(1)));
    assert_eq!(rt; ask(&mut engine, times), Err(Refusal::StoreFull.at(0)));
    assert_eq!(rt; engine.store().len(), 2);
    engine.cut(0);
    assert_eq!(rt; engine.store().len(), 0);
    assert_eq!(rt;
        ask(&mut engine, Put::Fact(1)),
        Ok(Root::Inner(0)),
        "after a cut"
    );
    Ok(())
}

#[test]
fn twice_a_negative_fact(rt: HostRuntime) -> Result<(), Fail> {
    let mut nodes = [BLANK; 2];
    let order = order(&rt, &[Decomposition::NegativeDavio])?;
    let mut engine = Engine::open(order, Amounts, PlainStore::new(&mut nodes), BlankMemo);
    assert_eq!(rt; ask(&mut engine, Put::Fact(0)), Ok(Root::Inner(0)));
    let once = Node {
        fact: 0,
        low: Root::Leaf(1),
        high: Root::Leaf(4_294_967_295),
    };
    assert_eq!(rt; engine.store().node(0), Some(once));
    let sum = Put::Question(Question::Sum(Root::Inner(0), Root::Inner(0)));
    assert_eq!(rt; ask(&mut engine, sum), Ok(Root::Inner(1)));
    let twice = Node {
        fact: 0,
        low: Root::Leaf(2),
        high: Root::Leaf(4_294_967_294),
    };
    assert_eq!(rt; engine.store().node(1), Some(twice));
    Ok(())
}

#[test]
fn square_of_a_fact(rt: HostRuntime) -> Result<(), Fail> {
    let mut nodes = [BLANK; 1];
    let order = order(&rt, &[Decomposition::PositiveDavio])?;
    let mut engine = Engine::open(order, Amounts, PlainStore::new(&mut nodes), BlankMemo);
    assert_eq!(rt; ask(&mut engine, Put::Fact(0)), Ok(Root::Inner(0)));
    let square = Put::Question(Question::Times(Root::Inner(0), Root::Inner(0)));
    assert_eq!(rt; ask(&mut engine, square), Ok(Root::Inner(0)));
    let opposite = Put::Question(Question::Minus(Root::Inner(0)));
    assert_eq!(rt; ask(&mut engine, opposite), Err(Refusal::StoreFull.at(0)));
    Ok(())
}
