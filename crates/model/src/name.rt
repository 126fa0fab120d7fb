ghost use Rattle.std.specs.Prelude.{◌≡◌, ◌≤◌, true, length};
ghost use Rattle.model.specs.Names.{holds_name};

mod ops;

pub use ops::{NotAName, is_word_byte};

/// The most bytes that a name can have.
const MAX_LENGTH: usize = 16;

/// A name as a sheet has it, or the empty name. The bytes past its length are 0.
#[derive(Clone, Copy, Debug, PartialEq, Eq)]
pub struct Name {
    // an array and a length: `Copy` is promised, which an `ArrayVec` is not; to take it away would ask more of callers
    bytes: [u8; MAX_LENGTH],
    len: usize,
    ghost whole: { length bytes ≡ 16 },
    ghost short: { len ≤ 16 },
    ghost formed: { holds_name bytes len ≡ true },
}
