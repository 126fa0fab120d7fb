ghost use Rattle.table_bench.specs.Scattering.{scattered_laws, upper_half};

use table::Key;

// A number that is one of a sequence of scattered ones.
#[derive(Clone, Copy, PartialEq, Eq)]
pub struct Scattered(pub u64);

impl Scattered {
    // The multiplier is odd, so no two are equal.
    pub fn nth(i: u64) -> Scattered {
        Scattered(i.wrapping_mul(0x9e37_79b9_7f4a_7c15))
    }
}

impl Key for Scattered {
    ghost code = { upper_half };

    ghost same_code = { scattered_laws.same_code };

    fn hash(&self) -> u32 {
        (self.0 >> 32) as u32
    }
}
