ghost use Rattle.std.specs.Prelude.{◌≡◌, ◌-◌, ◌<◌, ◌≤◌, MatchOption};

// A range of one line or more: from `start` up to `end`, which is excluded.
#[derive(Clone, Copy)]
pub struct LineRange {
    start: u32,
    end: u32,
    ghost lines: { start < end },
}

impl LineRange {
    // The range, if it has a line.
    pub fn new(start: u32, end: u32) -> Option<LineRange>
        ensures { MatchOption result (end ≤ start) (λ x. (x.start ≡ start) × (x.end ≡ end)) }
    {
        if start < end {
            Some(LineRange { start, end })
        } else {
            None
        }
    }

    pub fn start(&self) -> u32
        ensures { result ≡ self.now.start }
    {
        self.start
    }

    pub fn end(&self) -> u32
        ensures { result ≡ self.now.end }
    {
        self.end
    }

    // How many lines the range has.
    pub fn len(&self) -> u32
        ensures is { result ≡ self.now.end - self.now.start }
        ensures some { 0 < result }
    {
        self.end - self.start
    }
}
