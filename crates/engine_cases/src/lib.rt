// Tests of the engine: examples, and runs that are the same with every store and every memo.
#![tactic(auto)]

#[cfg(test)]
mod examples;
mod games;
mod holder;
#[cfg(test)]
mod orders;
#[cfg(test)]
mod runs;

pub use games::{Put, ask, play};
pub use holder::Holder;
