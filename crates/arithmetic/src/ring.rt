ghost use Rattle.std.specs.Prelude.{◌≡◌, ℕ};
ghost use Rattle.model.specs.Rings.{Ring, Closed, Laws};

/// What rule sheets are worked out in: which 32-bit numbers are values, and the operations on values.
/// The operations answer for every number, so that no caller owes a proof that it has values;
/// the laws speak of values only.
pub trait Arithmetic: Copy {
    const ZERO: u32;

    const ONE: u32;

    ghost ZERO: { ℕ };

    ghost ONE: { ℕ };

    // the values and what the operations answer
    ghost ring: { Ring };

    fn is_value(number: u32) -> bool
        ensures { result ≡ ring.value number };

    fn sum(a: u32, b: u32) -> u32
        ensures { result ≡ ring.sum a b };

    fn product(a: u32, b: u32) -> u32
        ensures { result ≡ ring.product a b };

    fn minus(a: u32) -> u32
        ensures { result ≡ ring.minus a };

    // the constants are the zero and the one
    ghost zero_is: { ZERO ≡ ring.zero };

    ghost one_is: { ONE ≡ ring.one };

    // the operations stay among the values
    ghost closed: { Closed ring };

    // the seven laws
    ghost laws: { Laws ring };
}
