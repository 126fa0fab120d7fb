ghost use Rattle.std.specs.Prelude.{◌≡◌, ◌≤◌, length, take};
ghost use Rattle.model.specs.Facts.{AllNamed, Different};

use crate::fact::Fact;

mod edits;
mod reads;

/// The most facts that an order can have.
pub const MAX_FACTS: usize = 40;

/// The facts of a sheet, topmost first: at most 40, each with a name of its own.
#[derive(Clone, Copy)]
pub struct Order {
    // an array and a length: `Copy` is promised, which an `ArrayVec` is not; to take it away would ask more of callers
    facts: [Fact; MAX_FACTS],
    len: usize,
    ghost whole: { length facts ≡ 40 },
    ghost short: { len ≤ 40 },
    ghost named: { AllNamed (take len facts) },
    ghost different: { Different (take len facts) },
}
