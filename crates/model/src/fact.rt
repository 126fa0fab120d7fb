use crate::decomposition::Decomposition;
use crate::name::Name;

/// A fact about a consignment: its name, and how a diagram branches at it.
#[derive(Clone, Copy, Debug, PartialEq, Eq)]
pub struct Fact {
    pub decomposition: Decomposition,
    pub name: Name,
}
