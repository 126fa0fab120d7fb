// The numbered table at several kinds of keys. The crate holds only tests.
#![tactic(auto)]

#[cfg(test)]
mod keys;
#[cfg(test)]
mod tables;
