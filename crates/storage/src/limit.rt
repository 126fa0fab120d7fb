ghost use Rattle.std.specs.Prelude.{◌≡◌};
ghost use Rattle.storage.specs.Stores.{capacity_for};

/// How many nodes a store holds at most, however much memory it is lent.
pub(crate) const LIMIT: usize = 1_048_576;

// The capacity of a store that is lent so much memory.
pub(crate) fn capacity_for(lent: usize) -> usize
    ensures { result ≡ capacity_for lent }
{
    lent.min(LIMIT)
}
