/// How many gates and outputs a rule sheet has.
#[derive(Clone, Copy, Debug, PartialEq, Eq)]
pub struct Counts {
    pub gates: usize,
    pub outputs: usize,
}
