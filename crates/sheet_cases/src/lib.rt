// What the readers of sheets answer at the edges of the notation. The crate holds only tests.
#![tactic(auto)]

#[cfg(test)]
mod cases;
#[cfg(test)]
mod formula_sheets;
#[cfg(test)]
mod formula_values;
#[cfg(test)]
mod gate_sheets;
#[cfg(test)]
mod order_sheets;
