ghost use Rattle.std.specs.Prelude.{◌≡◌};
ghost use Rattle.model.specs.Spelling.{spelling};
ghost use Rattle.sheets.specs.Symbols.{hash_of, same_hash};

use model::Name;
use table::Key;

/// A name that a rule sheet knows, with the signal that it stands for: an entry of the symbol table. Symbols are told
/// apart by their names alone.
#[derive(Clone, Copy)]
#[derive_where(Debug, PartialEq, Eq)]
pub struct Symbol {
    pub(crate) name: Name,
    #[derive_where(skip(EqHashOrd))]
    pub(crate) signal: u32,
}

impl Key for Symbol {
    ghost code = { λ s. hash_of (spelling s.name) };

    ghost same_code = { same_hash };

    fn hash(&self) -> u32 {
        hash(self.name.as_bytes())
    }
}

// FNV-1a: short texts spread well, also in the low bits.
fn hash(word: &[u8]) -> u32
    ensures { result ≡ hash_of word.now }
{
    word.iter().fold(2166136261, |hash, b| {
        (hash ^ u32::from(*b)).wrapping_mul(16777619)
    })
}
