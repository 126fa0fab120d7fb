ghost use Rattle.std.specs.Prelude.{◌≡◌, ◌<◌, T, length};
ghost use Rattle.kfdd.specs.Reduced.{Held};
ghost use Rattle.engine.specs.Questions.{RootsHeld};

use arithmetic::Arithmetic;
use engine::Engine;
use model::{Fault, Node, Order, Root};
use storage::{Memo, Question, Store};

const QUESTIONS: usize = 60;

const ROOTS: usize = 12;

// Numbers without a pattern, from a seed.
#[derive(Clone, Copy)]
struct Dice {
    state: u64,
}

impl Dice {
    fn roll(&mut self, sides: usize) -> usize
        requires { 0 < sides }
        ensures { result < sides }
    {
        self.state = self
            .state
            .wrapping_mul(6_364_136_223_846_793_005)
            .wrapping_add(1_442_695_040_888_963_407);
        (self.state >> 33) as usize % sides
    }
}

/// Puts questions about earlier answers to an engine over this store and this memo, and cuts it back
/// each time that it is full. Answers a number that tells runs apart: it depends on each answer, on
/// how many nodes are held after it, and on all nodes that are held in the end.
pub fn play<A: Arithmetic, S: Store + Drop, M: Memo + Drop>(
    order: Order,
    arithmetic: A,
    store: S,
    memo: M,
    seed: u64,
) -> u64 {
    let mut engine = Engine::open(order, arithmetic, store, memo);
    let mut dice = Dice { state: seed };
    let mut roots = [Root::Leaf(A::ONE); ROOTS];
    let mut digest = seed;
    for _ in 0..QUESTIONS {
        digest = mixed(digest, step(&mut engine, &mut dice, &mut roots));
        digest = mixed(digest, engine.store().len() as u64);
    }
    (0..engine.store().len())
        .filter_map(|place| engine.store().node(place))
        .fold(digest, with_node)
}

// One question about two of the roots. Its answer takes the place of another.
fn step<A: Arithmetic, S: Store, M: Memo>(
    engine: &mut Engine<A, S, M>,
    dice: &mut Dice,
    roots: &mut [Root; ROOTS],
) -> u64 {
    let a = roots[dice.roll(ROOTS)];
    let b = roots[dice.roll(ROOTS)];
    let put = match dice.roll(7) {
        0 | 1 => Put::Question(Question::Sum(a, b)),
        2 => Put::Question(Question::Minus(a)),
        3 | 4 => Put::Question(Question::Times(a, b)),
        _ => Put::Fact(dice.roll(6)),
    };
    match ask(engine, put) {
        Ok(root) => {
            roots[dice.roll(ROOTS)] = root;
            code(root)
        }
        Err(fault) => {
            engine.cut(dice.roll(30));
            u8::from(fault.refusal) as u64
        }
    }
}

/// What an engine is asked.
#[derive(Clone, Copy, Debug, PartialEq, Eq)]
pub enum Put {
    Question(Question),
    Fact(usize),
}

/// Puts a question to an engine. One about what it does not hold is answered with the one leaf.
pub fn ask<A: Arithmetic, S: Store, M: Memo>(
    engine: &mut Engine<A, S, M>,
    put: Put,
) -> Result<Root, Fault> {
    match put {
        Put::Question(question) if are_held(engine, question) => engine.answer(question),
        Put::Fact(fact) if fact < engine.order().len() => engine.fact(fact),
        _ => Ok(Root::Leaf(A::ONE)),
    }
}

// Whether the roots of a question are held.
fn are_held<A: Arithmetic, S: Store, M: Memo>(engine: &Engine<A, S, M>, question: Question) -> bool
    ensures { T result → RootsHeld A.Arithmetic.ring (S.Store.nodes engine.now.store) question }
{
    match question {
        Question::Sum(a, b) | Question::Times(a, b) => is_held(engine, a) && is_held(engine, b),
        Question::Minus(a) => is_held(engine, a),
    }
}

// Whether a root is a value's leaf or a node that is held.
fn is_held<A: Arithmetic, S: Store, M: Memo>(engine: &Engine<A, S, M>, root: Root) -> bool
    ensures { T result → Held A.Arithmetic.ring (length (S.Store.nodes engine.now.store)) root }
{
    match root {
        Root::Leaf(value) => A::is_value(value),
        Root::Inner(number) => (number as usize) < engine.store().len(),
    }
}

fn with_node(digest: u64, node: Node) -> u64 {
    let fact = mixed(digest, node.fact as u64);
    mixed(mixed(fact, code(node.low)), code(node.high))
}

// A root as one number. The stores keep theirs private, since it may change with their hash; the
// tests have one of their own, so that what tells the runs apart is no part of what they try.
fn code(root: Root) -> u64 {
    match root {
        Root::Inner(number) => number as u64 * 2,
        Root::Leaf(value) => value as u64 * 2 + 1,
    }
}

fn mixed(digest: u64, number: u64) -> u64 {
    (digest ^ number)
        .wrapping_mul(0x9e37_79b9_7f4a_7c15)
        .rotate_left(23)
}
