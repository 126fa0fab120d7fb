use model::{Node, Root};

// How many nodes a fact has, in rows that share their low and columns that share their high.
const LAYER: u32 = 25_000;

const COLUMNS: u32 = 125;

// One of a sequence of nodes such as a diagram of 40 facts has: those of the last fact have leaves
// as children, the others nodes of the next fact. No two are equal.
pub fn nth(i: u32) -> Node {
    let layer = i / LAYER;
    let row = i % LAYER / COLUMNS;
    let column = i % COLUMNS;
    let fact = (39 - layer % 40) as u8;
    if layer == 0 {
        return Node {
            fact,
            low: Root::Leaf(row),
            high: Root::Leaf(column),
        };
    }
    let below = (layer - 1) * LAYER;
    Node {
        fact,
        low: Root::Inner(below + row * COLUMNS),
        high: Root::Inner(below + column * 199),
    }
}
