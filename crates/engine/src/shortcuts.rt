ghost use Rattle.std.specs.Prelude.{◌≡◌};
ghost use Rattle.kfdd.specs.Recipe.{minus_at_once, product_at_once, sum_at_once};
ghost use Rattle.engine.specs.Questions.{shortcut};

use arithmetic::Arithmetic;
use model::Root;
use storage::Question;

// The answer to a question that needs no split.
pub(crate) fn at_once<A: Arithmetic>(question: Question) -> Option<Root>
    ensures { result ≡ shortcut A.Arithmetic.ring question }
{
    match question {
        Question::Sum(a, b) => sum_at_once::<A>(a, b),
        Question::Minus(a) => minus_at_once::<A>(a),
        Question::Times(a, b) => product_at_once::<A>(a, b),
    }
}

fn sum_at_once<A: Arithmetic>(a: Root, b: Root) -> Option<Root>
    ensures { result ≡ sum_at_once A.Arithmetic.ring a b }
{
    let zero = Root::Leaf(A::ZERO);
    if a == zero {
        return Some(b);
    }
    if b == zero {
        return Some(a);
    }
    match (a, b) {
        (Root::Leaf(v), Root::Leaf(w)) => Some(Root::Leaf(A::sum(v, w))),
        _ => None,
    }
}

fn minus_at_once<A: Arithmetic>(a: Root) -> Option<Root>
    ensures { result ≡ minus_at_once A.Arithmetic.ring a }
{
    match a {
        Root::Leaf(v) => Some(Root::Leaf(A::minus(v))),
        Root::Inner(_) => None,
    }
}

fn product_at_once<A: Arithmetic>(a: Root, b: Root) -> Option<Root>
    ensures { result ≡ product_at_once A.Arithmetic.ring a b }
{
    let zero = Root::Leaf(A::ZERO);
    let one = Root::Leaf(A::ONE);
    if a == zero || b == zero {
        return Some(zero);
    }
    if a == one {
        return Some(b);
    }
    if b == one {
        return Some(a);
    }
    match (a, b) {
        (Root::Leaf(v), Root::Leaf(w)) => Some(Root::Leaf(A::product(v, w))),
        _ => None,
    }
}
