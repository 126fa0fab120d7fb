// The mathematics of the diagrams: definitions, and the theorems that the layers above rest on.
#![tactic(auto)]

mod comparing;
mod counts;
mod recipe;

pub use comparing::walk_finds_first;
pub use counts::reduced_is_smallest;
pub use recipe::{canonical_form, examples_stand, recipe_means, recipe_repeats};
