use model::Root;
use storage::Question;

/// What the loop has before it: a question that is asked, or the answer to the one asked last.
// ControlFlow is no plainer: neither of the two ends the loop, since an answer goes on to the frame that waits for it.
#[derive(Clone, Copy)]
pub(crate) enum Turn {
    Ask(Question),
    Answer(Root),
}
