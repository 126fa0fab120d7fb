ghost use Rattle.std.specs.Prelude.{◌≡◌, length, replicate};
ghost use Rattle.table.specs.Cells.{empty_cell};

use super::keys::{Clashing, Labelled, Number};
use table::{Cell, Full, Key, Table};

// Who lends cells finds them empty again, since clearing says so of the cells that were lent.
fn use_and_clear<K: Key>(cells: &mut [Cell<K>], key: K) -> Result<usize, Full>
    ensures { cells.new ≡ replicate (length cells.old) empty_cell }
{
    let mut table = Table::open(cells);
    let answer = table.find_or_add(key);
    table.clear();
    answer
}

#[test]
fn lent_cells(rt: HostRuntime) {
    let mut cells = [Cell::<Number>::empty(); 2];
    assert_eq!(rt; use_and_clear(&mut cells, Number(6)), Ok(0));
    assert_eq!(rt; use_and_clear(&mut cells, Number(7)), Ok(0));
}

#[test]
fn no_cells(rt: HostRuntime) {
    let mut cells: [Cell<Number>; 0] = [];
    let mut table = Table::open(&mut cells);
    assert_eq!(rt; table.find_or_add(Number(3)), Err(Full));
    assert_eq!(rt; table.find(&Number(3)), None);
    assert_eq!(rt; table.len(), 0);
    assert_eq!(rt; table.capacity(), 0);
    table.cut(5);
    table.clear();
    assert_eq!(rt; table.key_at(0), None);
}

#[test]
fn one_cell(rt: HostRuntime) {
    let mut cells = [Cell::<Number>::empty(); 1];
    let mut table = Table::open(&mut cells);
    assert_eq!(rt; table.find_or_add(Number(8)), Ok(0));
    assert_eq!(rt; table.find_or_add(Number(9)), Err(Full), "full");
    assert_eq!(rt;
        table.find_or_add(Number(8)),
        Ok(0),
        "an equal key is found in a full table"
    );
    table.cut(0);
    assert_eq!(rt; table.find(&Number(8)), None);
    assert_eq!(rt; table.find_or_add(Number(9)), Ok(0));
}

#[test]
fn one_hash(rt: HostRuntime) {
    let mut cells = [Cell::<Clashing>::empty(); 4];
    let mut table = Table::open(&mut cells);
    for i in 0..4 {
        let _ = table.find_or_add(Clashing(10 + i));
    }
    assert_eq!(rt; table.len(), 4);
    assert_eq!(rt; table.find_or_add(Clashing(12)), Ok(2));
    assert_eq!(rt; table.find_or_add(Clashing(14)), Err(Full));
    table.cut(2);
    assert_eq!(rt; table.find(&Clashing(12)), None, "cut off");
    assert_eq!(rt; table.find(&Clashing(11)), Some(1), "kept");
    assert_eq!(rt; table.find_or_add(Clashing(14)), Ok(2));
}

#[test]
fn ignored_part(rt: HostRuntime) {
    let mut cells = [Cell::<Labelled>::empty(); 3];
    let mut table = Table::open(&mut cells);
    assert_eq!(rt;
        table.find_or_add(Labelled {
            number: 5,
            label: 'a',
        }),
        Ok(0)
    );
    assert_eq!(rt;
        table.find_or_add(Labelled {
            number: 13,
            label: 'b',
        }),
        Ok(1),
        "the same hash"
    );
    assert_eq!(rt;
        table.find_or_add(Labelled {
            number: 5,
            label: 'c',
        }),
        Ok(0),
        "an equal key"
    );
    assert_eq!(rt;
        table.key_at(0).map(|key| key.label),
        Some('a'),
        "the first of equal keys is held"
    );
    assert_eq!(rt; table.key_at(2), None);
}

#[test]
fn cuts(rt: HostRuntime) {
    let mut cells = [Cell::<Number>::empty(); 8];
    let mut table = Table::open(&mut cells);
    for i in 0..6 {
        let _ = table.find_or_add(Number(i * 8));
    }
    table.cut(7);
    assert_eq!(rt; table.len(), 6, "cut to more than is held");
    table.cut(3);
    assert_eq!(rt; table.len(), 3);
    assert_eq!(rt; table.find(&Number(24)), None);
    assert_eq!(rt;
        table.find_or_add(Number(40)),
        Ok(3),
        "numbers go on where the cut was"
    );
    table.clear();
    assert_eq!(rt; table.len(), 0);
    assert_eq!(rt; table.find_or_add(Number(24)), Ok(0));
}
