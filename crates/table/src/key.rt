ghost use Rattle.std.specs.Prelude.{◌≡◌, ℕ, true};

/// What can lie in a table. Equal keys share a number; they need not be identical.
pub trait Key: Copy + Eq {
    ghost code: { Self → ℕ };

    fn hash(&self) -> u32
        ensures { result ≡ code self.now };

    // equal keys have equal hashes
    ghost same_code: { (x y : Self) → Self.eq x y ≡ true → code x ≡ code y };
}
