ghost use Rattle.std.specs.Prelude.{◌≡◌};
ghost use Rattle.model.specs.Roots.{case_number};

// A node's number, and no reference to it, is what is promised: nodes lie in memory that is lent, and the number is an
// index into it.
/// Where an edge of a diagram leads: to a node, by its number, or to a leaf, which holds a value.
#[derive(Clone, Copy, Debug, PartialEq, Eq)]
pub enum Root {
    Inner(u32),
    Leaf(u32),
}

impl Root {
    // A match, since a case with a field cannot be cast to its discriminant.
    /// The number of the case: 0 for a node, 1 for a leaf.
    pub fn case(self) -> u8
        ensures { result ≡ case_number self }
    {
        match self {
            Root::Inner(_) => 0,
            Root::Leaf(_) => 1,
        }
    }
}
