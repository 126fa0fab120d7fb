ghost use Rattle.std.specs.Prelude.{◌≡◌, ◌^◌, ◌<◌};
ghost use Rattle.storage.specs.Hashes.{root_code, spread};

use model::Root;

// A root as one number: twice its own, and one more for a leaf. It takes a reference, since to copy
// a root that was just written costs more than the hash. No `From`: this number is the hash's alone.
fn code(root: &Root) -> u64
    ensures value { result ≡ root_code root.now }
    ensures small { result < 2 ^ 33 }
{
    match root {
        Root::Inner(number) => u64::from(*number) * 2,
        Root::Leaf(value) => u64::from(*value) * 2 + 1,
    }
}

// Spreads a small number and two roots over 32 bits: two products that are added, and one more so
// that each bit of these reaches the bits that are kept. The factors are odd and have no pattern.
pub(crate) fn spread(kind: u8, first: &Root, second: &Root) -> u32
    ensures { result ≡ spread kind first.now second.now }
{
    let front = (u64::from(kind) << 33) + code(first);
    let sum = front
        .wrapping_mul(0x9e37_79b9_7f4a_7c15)
        .wrapping_add(code(second).wrapping_mul(0xc2b2_ae3d_27d4_eb4f));
    let folded = sum ^ (sum >> 32);
    (folded.wrapping_mul(0xd6e8_feb8_6659_fd93) >> 32) as u32
}
