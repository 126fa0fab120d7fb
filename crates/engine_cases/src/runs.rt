use super::games::play;
use super::orders::{BLANK, mixed_types, order};
use arithmetic::{Amounts, Arithmetic, YesNo};
use model::Order;
use std::process::Abort;
use std::test::Fail;
use storage::{Answered, BlankMemo, HashedStore, Memo, NodeKey, PlainStore, SlotMemo, Store};
use table::Cell;

const CAPACITY: usize = 150;

// The same questions, whatever store and memo they are put over.
#[derive(Clone, Copy)]
struct Game<A> {
    order: Order,
    arithmetic: A,
    seed: u64,
}

impl<A: Arithmetic> Game<A> {
    fn over<S: Store + Drop, M: Memo + Drop>(&self, store: S, memo: M) -> u64 {
        play(self.order, self.arithmetic, store, memo, self.seed)
    }
}

// A game with the blank memo, with slot memos of one, of a prime number and of thousands of slots,
// and with the other store. All but the first of each store begin with memory that another run left.
fn same_runs<A: Arithmetic>(rt: &impl Abort, game: Game<A>) {
    let mut nodes = [BLANK; CAPACITY];
    let mut cells = [Cell::<NodeKey>::empty(); CAPACITY];
    let mut one: [Option<Answered>; 1] = [None];
    let mut prime: [Option<Answered>; 101] = [None; 101];
    let mut many: [Option<Answered>; 4096] = [None; 4096];
    let plain = game.over(PlainStore::new(&mut nodes), BlankMemo);
    assert_eq!(rt;
        game.over(PlainStore::new(&mut nodes), SlotMemo::new(&mut one)),
        plain
    );
    assert_eq!(rt;
        game.over(PlainStore::new(&mut nodes), SlotMemo::new(&mut prime)),
        plain
    );
    assert_eq!(rt;
        game.over(PlainStore::new(&mut nodes), SlotMemo::new(&mut many)),
        plain
    );
    assert_eq!(rt; game.over(HashedStore::new(&mut cells), BlankMemo), plain);
    assert_eq!(rt;
        game.over(HashedStore::new(&mut cells), SlotMemo::new(&mut many)),
        plain
    );
}

fn all_runs<A: Arithmetic>(rt: &impl Abort, arithmetic: A) -> Result<(), Fail> {
    for seed in 0..300 {
        let game = Game {
            order: order(rt, &mixed_types(seed))?,
            arithmetic,
            seed: seed as u64,
        };
        same_runs(rt, game);
    }
    Ok(())
}

#[test]
fn yes_no_runs(rt: HostRuntime) -> Result<(), Fail> {
    all_runs(&rt, YesNo)
}

#[test]
fn amounts_runs(rt: HostRuntime) -> Result<(), Fail> {
    all_runs(&rt, Amounts)
}
