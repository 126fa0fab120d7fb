ghost use Rattle.kfdd.specs.Reaching.{MarksReached};
ghost use Rattle.kfdd.specs.Rivals.{Smallest};

use arithmetic::Arithmetic;

/// Marking from the highest node down marks what a root reaches, and no diagram with the same meaning has fewer nodes.
pub fn reduced_is_smallest<A: Arithmetic>()
    ensures marks { MarksReached A.Arithmetic.ring }
    ensures smallest { Smallest A.Arithmetic.ring }
{}
