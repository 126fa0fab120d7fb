// The recipe run by a loop, over any store and any memo.
#![tactic(auto)]

mod diagrams;
mod dividing;
mod engine;
mod frame;
mod joining;
mod shortcuts;
mod turn;

pub use diagrams::Diagrams;
pub use engine::Engine;
