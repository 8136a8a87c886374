ghost use Rattle.std.specs.Prelude.{◌≡◌, ◌≤◌, length, take};

use change::line_range::LineRange;

// Some rows of a table by value: the first `count`. (An array and a count: the library's vector of
// fixed room makes its unused places by a default, and there is no empty range of lines.)
#[derive(Clone, Copy)]
pub(crate) struct Held {
    pub(crate) rows: [LineRange; 64],
    pub(crate) count: usize,
}

// The rows, copied.
pub(crate) fn copy(rows: &[LineRange]) -> Held
    requires { length rows.now ≤ 64 }
    ensures few { result.count ≤ 64 }
    ensures is { take result.count result.rows ≡ rows.now }
{
    let mut held = Held {
        rows: [LineRange::new(0, 1).unwrap(); 64],
        count: 0,
    };
    for row in rows {
        held.rows[held.count] = *row;
        held.count += 1;
    }
    held
}
