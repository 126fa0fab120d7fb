// Adds distinct keys to a table and finds them again: `table_bench [COUNT [timed]]`. With `timed`
// it prints only the nanoseconds that this took; the cells are allocated and emptied beforehand.
// `store_bench` is a program of its own: what the two share is a dozen lines around a clock, and the
// cells are lent in between.
#![tactic(auto)]

use keys::Scattered;
use std::env;
use std::time::Instant;
use table::{Cell, Table};

mod keys;

// How many of the first `count` keys the table took.
fn add_all(table: &mut Table<Scattered>, count: u64) -> usize {
    (0..count)
        .map(|i| table.find_or_add(Scattered::nth(i)))
        .filter(|number| number.is_ok())
        .count()
}

// How many of them the table finds.
fn find_all(table: &Table<Scattered>, count: u64) -> usize {
    (0..count)
        .filter(|i| table.find(&Scattered::nth(*i)).is_some())
        .count()
}

fn main(rt: HostRuntime) -> anyhow::Result<()> {
    let mut args = env::args(&rt)?.skip(1);
    let count = match args.next() {
        Some(word) => word.as_str().parse::<u64>()?,
        None => 1000,
    };
    let timed = args.next().is_some();
    let size = usize::try_from(count)?;
    let mut cells = vec![in rt.alloc(); Cell::empty(); size]?;
    let mut table = Table::open(cells.as_mut_slice());
    let start = Instant::now(&rt)?;
    let added = add_all(&mut table, count);
    let found = find_all(&table, count);
    let nanoseconds = start.elapsed(&rt)?.as_nanos();
    if timed && found == size {
        println!(rt; "{nanoseconds}")?;
    } else {
        println!(rt; "{count} keys, {added} added, {found} found")?;
    }
    Ok(())
}
