ghost use Rattle.std.specs.Prelude.{◌≡◌, ℕ, ◌<◌, ◌⊎◌, length, Some, MatchResult};
ghost use Rattle.model.specs.Refusals.{fault};
ghost use Rattle.model.specs.declared.fault.Refusal.TheVariants.{StoreFull};
ghost use Rattle.model.specs.declared.root.Root.TheVariants.{Inner};
ghost use Rattle.std.specs.List.{slice_get};
ghost use Rattle.storage.specs.Memos.{answered, Member};

use model::{Fault, Node, Root};
use storage::{Memo, PlainStore, Question, Store, StoreCall, perform};

// What a memo recalls, or else the root of a node, which the memo is then told. Nothing is known
// of the store and the memo but their traits.
pub fn recall_or_add<S: Store, M: Memo>(
    store: &mut S,
    memo: &mut M,
    question: Question,
    node: Node,
) -> Result<Root, Fault>
    ensures { MatchResult result (λ a. Member (answered question a) (M.Memo.answers memo.old) ⊎ ((place : ℕ) × (a ≡ Inner place) × (slice_get (S.Store.nodes store.new) place ≡ Some node))) (λ f. f ≡ fault StoreFull 0) }
{
    if let Some(root) = memo.ask(question) {
        return Ok(root);
    }
    let root = Root::Inner(store.find_or_add(node)? as u32);
    memo.keep(question, root);
    Ok(root)
}

// Who lends memory to a plain store finds the node in it that code made to hold which knows only
// the trait.
pub fn lend(cells: &mut [Node], node: Node)
    ensures { 0 < length cells.old → slice_get cells.new 0 ≡ Some node }
{
    let mut store = PlainStore::new(cells);
    let _ = perform(&mut store, StoreCall::FindOrAdd(node));
}
