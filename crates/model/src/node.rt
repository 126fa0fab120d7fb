use crate::root::Root;

/// A node of a diagram: the fact that it branches at, and its two children.
#[derive(Clone, Copy, Debug, PartialEq, Eq)]
pub struct Node {
    pub fact: u8,
    pub low: Root,
    pub high: Root,
}
