ghost use Rattle.std.specs.Prelude.{◌≡◌, Bool, not, filter};
ghost use Rattle.rank.specs.Tables.{items_of};

use crate::table::Table;

// Elements of which one may touch another.
pub trait Touching: Sized {
    // The first touches the second.
    ghost touches: { Self → Self → Bool };

    fn touches(&self, other: &Self) -> bool
        ensures { result ≡ touches self.now other.now };
}

// Drops the elements that x touches.
pub fn drop_touched<T: Touching + Drop>(table: &mut Table<T>, x: &T)
    ensures items { items_of table.new ≡ filter (λ y. not (T.Touching.touches x.now y)) (items_of table.old) }
    ensures limit { table.new.limit ≡ table.old.limit }
{
    table.items.retain(|row| !x.touches(row));
}
