ghost use Rattle.kfdd.specs.Canonical.{Canonical};
ghost use Rattle.kfdd.specs.Examples.{Examples};
ghost use Rattle.kfdd.specs.RecipeLaws.{RecipeMeans, RecipeRepeats};

use arithmetic::Arithmetic;

/// Roots that a reduced list holds are equal exactly if their values are, under every assignment.
pub fn canonical_form<A: Arithmetic>()
    ensures { Canonical A.Arithmetic.ring }
{}

/// The recipe only appends, keeps lists reduced, answers held roots, and means the operations on values; so do whole nets.
pub fn recipe_means<A: Arithmetic>()
    ensures { RecipeMeans A.Arithmetic.ring }
{}

/// The recipe, asked again on what it left or on more, adds nothing and answers the same; the capacity only decides whether there is room.
pub fn recipe_repeats<A: Arithmetic>()
    ensures { RecipeRepeats A.Arithmetic.ring }
{}

/// The examples are as the definitions have them.
pub fn examples_stand()
    ensures { Examples }
{}
