// Lists the facts of the order sheet `order.txt` in the current folder, or says why it is refused.
#![tactic(auto)]

use programs::{Stop, read_order_file, report};
use std::io;

fn list_facts(rt: &HostRuntime) -> Result<(), Stop> {
    let order = read_order_file(rt)?;
    for (place, fact) in order.facts().iter().enumerate() {
        println!(rt; "{place} {} {}", fact.decomposition, fact.name)?;
    }
    Ok(())
}

fn main(rt: HostRuntime) -> io::Result<()> {
    report(&mut io::writer(&rt), list_facts(&rt))
}
