ghost use Rattle.kfdd.specs.Reduced.{Reduced};
ghost use Rattle.engine.specs.OneProof.{reduced_once, remembers_once};
ghost use Rattle.engine.specs.Questions.{types_of};
ghost use Rattle.engine.specs.Soundness.{Remembers};

use crate::frame::Frame;
use arithmetic::Arithmetic;
use arrayvec::ArrayVec;
use model::Order;
use storage::{Memo, Store};

mod joins;
mod opening;
mod questions;
mod turns;

/// How many questions can stand half answered.
const MAX_FRAMES: usize = 40;

/// Works out sums, minuses and products of roots, and the roots of facts, over a store and a memo.
#[derive(Drop)]
pub struct Engine<A: Arithmetic, S: Store, M: Memo> {
    arithmetic: A,
    order: Order,
    store: S,
    memo: M,
    // the questions that stand half answered, the first one first
    frames: ArrayVec<Frame, MAX_FRAMES>,
    pub ghost reduced: { Reduced A.Arithmetic.ring (types_of order) (S.Store.nodes store) } by { reduced_once A.Arithmetic.ring (types_of order) (S.Store.nodes store) },
    // whatever the memo holds is true of the nodes that are held
    pub ghost remembers: { Remembers A.Arithmetic.ring (types_of order) (S.Store.nodes store) (M.Memo.answers memo) } by { remembers_once A.Arithmetic.ring (types_of order) (S.Store.nodes store) (M.Memo.answers memo) },
}
