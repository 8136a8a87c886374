ghost use Rattle.std.specs.Prelude.{◌≡◌, ℕ, List};

use std::fmt;

// What every refusal has: the number and the name under which it is known. (In code a
// refusal is its type; the number is for people and logs, and part of what is promised.
// Each type writes its own two matches: no derive of one's own is allowed to.)
pub trait Refusal {
    ghost number: { Self → ℕ };

    ghost called: { Self → List ℕ };

    fn number(&self) -> u8
        ensures { result ≡ number self.now };

    fn name(&self) -> &'static str
        ensures { result.now ≡ called self.now };
}

// A refusal as people are told of it: by its number and its name.
#[derive(Clone, Copy)]
pub struct Told<R>(pub R);

impl<R: Refusal> fmt::Display for Told<R> {
    fn fmt<W: fmt::Write>(&self, f: &mut fmt::Formatter<W>) -> fmt::Result {
        let number = self.0.number();
        let name = self.0.name();
        write!(f, "{number} {name}")
    }
}
