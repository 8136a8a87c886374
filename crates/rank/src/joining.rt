ghost use Rattle.std.specs.Prelude.{◌≡◌, Bool, true};
ghost use Rattle.rank.specs.Joins.{joint};

use crate::ranking::Ranked;

// Elements of which one may join the next, so that both are one.
pub trait Joining: Ranked {
    // The first joins the second, which stands behind it.
    ghost joins: { Self → Self → Bool };

    // What they join to.
    ghost joined: { Self → Self → Self };

    fn joins_with(&self, other: &Self) -> bool
        ensures { result ≡ joins self.now other.now };

    // What the two join to, if the first joins the second.
    fn joined_with(&self, other: &Self) -> Option<Self>
        ensures { result ≡ joint joins joined self.now other.now };

    // What two join to has the rank of the first,
    ghost rank: { (a b c : Self) → joins a b ≡ true → (Self.Ranked.after (joined a b) c ≡ Self.Ranked.after a c) × (Self.Ranked.after c (joined a b) ≡ Self.Ranked.after c a) };

    // joins what the second joins,
    ghost onward: { (a b c : Self) → joins a b ≡ true → joins (joined a b) c ≡ joins b c };

    // and is joined by what joins the first.
    ghost inward: { (a b c : Self) → joins a b ≡ true → joins c (joined a b) ≡ joins c a };

    // Three that join give one result, whichever two are joined first.
    ghost one_result: { (a b c : Self) → joins a b ≡ true → joins b c ≡ true → joined (joined a b) c ≡ joined a (joined b c) };
}
