ghost use Rattle.std.proofs.Props.{props};
ghost use Rattle.std.specs.Prelude.{◌≡◌, true};
ghost use Rattle.storage.specs.Slots.{AtHome};

use crate::question::Answered;

mod ops;

/// Answered questions that lie in lent slots, each in the slot that its question's hash falls on,
/// a new one over an old one.
#[derive(Drop)]
pub struct SlotMemo<'a> {
    slots: &'a mut [Option<Answered>],
    // whether an answer was kept since the memo was last forgotten; until then the slots say nothing.
    // No Option, since the slots stay lent whatever they say
    used: bool,
    pub ghost home: { used ≡ true → AtHome slots.now } by { Prim.hlevel props },
}
