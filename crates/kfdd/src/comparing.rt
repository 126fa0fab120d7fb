ghost use Rattle.std.specs.Prelude.{ℕ, Bool, List};
ghost use Rattle.model.specs.declared.decomposition.Decomposition.{Decomposition};
ghost use Rattle.kfdd.specs.Assignments.{OneNumber};
ghost use Rattle.kfdd.specs.FirstDifference.{StrictOrder, WalkFindsFirst};

use arithmetic::Arithmetic;

/// Each choice of facts has one number, the numbers are in order, and two held roots that are not equal
/// differ first under the one that the walk down both gives.
pub fn walk_finds_first<A: Arithmetic>()
    ensures numbers { (n : ℕ) (x : ℕ → Bool) → OneNumber n x }
    ensures order { (types : List Decomposition) → StrictOrder types }
    ensures first { WalkFindsFirst A.Arithmetic.ring }
{}
