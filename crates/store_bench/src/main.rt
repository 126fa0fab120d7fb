// Adds different nodes to a hashed store and finds them again: `store_bench [COUNT [timed]]`. With
// `timed` it prints only the nanoseconds that this took; the cells are allocated and emptied
// beforehand. `table_bench` is a program of its own: what the two share is a dozen lines around a
// clock, and the cells are lent in between.
#![tactic(auto)]

use nodes::nth;
use std::env;
use std::time::Instant;
use storage::{HashedStore, Store};
use table::Cell;

mod nodes;

// How many of the first `count` nodes the store answers a place for that is the node's number.
fn place_all(store: &mut HashedStore, count: u32) -> usize {
    (0..count)
        .map(|i| (i as usize, store.find_or_add(nth(i))))
        .filter(|(i, place)| *place == Ok(*i))
        .count()
}

fn main(rt: HostRuntime) -> anyhow::Result<()> {
    let mut args = env::args(&rt)?.skip(1);
    let count = match args.next() {
        Some(word) => word.as_str().parse::<u32>()?,
        None => 1000,
    };
    let timed = args.next().is_some();
    let size = count as usize;
    let mut cells = vec![in rt.alloc(); Cell::empty(); size]?;
    let mut store = HashedStore::new(cells.as_mut_slice());
    let start = Instant::now(&rt)?;
    let added = place_all(&mut store, count);
    let found = place_all(&mut store, count);
    let nanoseconds = start.elapsed(&rt)?.as_nanos();
    if timed && found == size {
        println!(rt; "{nanoseconds}")?;
    } else {
        println!(rt; "{count} nodes, {added} added, {found} found")?;
    }
    Ok(())
}
