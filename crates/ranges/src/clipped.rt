ghost use Rattle.std.specs.Prelude.{◌≡◌};
ghost use Rattle.ranges.specs.Rows.{in_use};

use change::span::Span;

// The ranges of a file that are asked: the first `count`, and zeros behind them. (An array and a
// count, since it is `Copy` and lies in a caller's value without a heap: the library's vector
// of fixed room is not `Copy`.)
#[derive(Clone, Copy)]
pub struct Clipped {
    pub ranges: [Span; 64],
    pub count: usize,
}

impl Clipped {
    // Those in use.
    pub fn as_slice(&self) -> &[Span]
        ensures { result.now ≡ in_use self.now }
    {
        &self.ranges[..self.count.min(64)]
    }
}
