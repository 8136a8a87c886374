ghost use Rattle.std.specs.Prelude.{◌≡◌, Bool, true, false};

// Elements with a rank, which is total and transitive: some may rank equal. (So it
// is no Ord, by which only those that are equal rank equal.)
pub trait Ranked: Sized {
    // The first ranks after the second.
    ghost after: { Self → Self → Bool };

    fn ranks_after(&self, other: &Self) -> bool
        ensures { result ≡ after self.now other.now };

    ghost total: { (a b : Self) → after a b ≡ true → after b a ≡ false };

    ghost transitive: { (a b c : Self) → after a b ≡ false → after b c ≡ false → after a c ≡ false };
}
