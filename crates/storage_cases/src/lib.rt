// The stores and memos at the edges of what they are lent, and in code that knows only their traits.
#![tactic(auto)]

mod generic;
#[cfg(test)]
mod memos;
#[cfg(test)]
mod stores;
