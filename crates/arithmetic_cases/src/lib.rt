// Arithmetics, the checks of nets and their values at the edges. The crate holds only tests.
#![tactic(auto)]

#[cfg(test)]
mod assignments;
#[cfg(test)]
mod checks;
#[cfg(test)]
mod nets;
#[cfg(test)]
mod operations;
#[cfg(test)]
mod twisted;
#[cfg(test)]
mod values;
