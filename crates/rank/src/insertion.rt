ghost use Rattle.std.specs.Prelude.{◌≡◌, MatchResult};
ghost use Rattle.rank.specs.Ranks.{InOrder, put, place_of, Among};
ghost use Rattle.rank.specs.Tables.{items_of, answer_to, then_holds};

use crate::ranking::Ranked;
use crate::table::{Full, Table};

// The place of the first element that ranks after x, else how many there are.
fn place<T: Ranked>(rows: &[T], x: &T) -> usize
    ensures { result ≡ place_of T.Ranked.after x.now rows.now }
{
    rows.iter()
        .position(|row| row.ranks_after(x))
        .unwrap_or(rows.len())
}

// Puts x before the first element that ranks after it, so behind those of equal
// rank, or hands it back where the table is full.
pub fn insert<T: Ranked>(table: &mut Table<T>, x: T) -> Result<(), Full<T>>
    ensures answer { result ≡ answer_to table.old.limit (items_of table.old) x }
    ensures items { items_of table.new ≡ then_holds table.old.limit (items_of table.old) (put T.Ranked.after x (items_of table.old)) }
    ensures limit { table.new.limit ≡ table.old.limit }
    ensures order { InOrder T.Ranked.after (items_of table.old) → InOrder T.Ranked.after (items_of table.new) }
    ensures others { MatchResult result (λ _. Among x (items_of table.old) (items_of table.new)) (λ _. items_of table.new ≡ items_of table.old) }
{
    if table.items.len() == table.limit {
        return Err(Full { value: x });
    }
    let at = place(table.items.as_slice(), &x);
    // (Never refused here, where there is room: the error only takes this one's type.)
    table.items.insert(at, x).map_err(|refused| Full {
        value: refused.value,
    })
}
