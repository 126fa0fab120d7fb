ghost use Rattle.std.specs.Prelude.{◌≡◌, length, position};
ghost use Rattle.std.specs.List.{slice_get};
ghost use Rattle.model.specs.Facts.{Finds};
ghost use Rattle.model.specs.Orders.{facts_of};
ghost use Rattle.model.specs.Spelling.{spelling};

use super::Order;
use crate::fact::Fact;
use crate::name::Name;

impl Order {
    /// The facts, topmost first.
    pub fn facts(&self) -> &[Fact]
        ensures { result.now ≡ facts_of self.now }
    {
        &self.facts[..self.len]
    }

    /// How many facts there are.
    pub fn len(&self) -> usize
        ensures { result ≡ length (facts_of self.now) }
    {
        self.facts().len()
    }

    /// The fact at a place, counted from 0 at the top.
    pub fn fact(&self, place: usize) -> Option<Fact>
        ensures { result ≡ slice_get (facts_of self.now) place }
    {
        self.facts().get(place).copied()
    }

    /// The place of the fact with a name.
    pub fn find(&self, name: &Name) -> Option<usize>
        ensures { Finds (facts_of self.now) (spelling name.now) result }
    {
        place_of(self.facts(), name)
    }
}

// The first place of a fact with this name.
fn place_of(facts: &[Fact], name: &Name) -> Option<usize>
    ensures { result ≡ position (λ f. ⟦<Name as PartialEq>⟧.eq f.name name.now) facts.now }
{
    facts.iter().position(|fact| fact.name == *name)
}
