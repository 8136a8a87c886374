ghost use Rattle.std.specs.Prelude.{◌≡◌, if◌then◌else◌};
ghost use Rattle.rank.specs.Ranks.{InOrder};
ghost use Rattle.rank.specs.Joins.{coalesced, AnyFirst, Parted};
ghost use Rattle.rank.specs.Tables.{items_of};

use crate::joining::Joining;
use crate::table::Table;

// Makes one of the element held last and the next, if they join, and says whether.
fn join_next<T: Joining + Copy>(next: &mut T, held: &mut T) -> bool
    ensures is { result ≡ T.Joining.joins held.old next.old }
    ensures held { held.new ≡ (if T.Joining.joins held.old next.old then T.Joining.joined held.old next.old else held.old) }
    ensures next { next.new ≡ next.old }
{
    match held.joined_with(next) {
        Some(both) => {
            *held = both;
            true
        }
        None => false,
    }
}

// Makes one of neighbours that join, until no two do.
pub fn coalesce<T: Joining + Copy>(table: &mut Table<T>)
    ensures items { items_of table.new ≡ coalesced T.Joining.joins T.Joining.joined (items_of table.old) }
    ensures limit { table.new.limit ≡ table.old.limit }
    ensures parted { Parted T.Joining.joins (items_of table.new) }
    ensures settled { coalesced T.Joining.joins T.Joining.joined (items_of table.new) ≡ items_of table.new }
    ensures any_first { AnyFirst T.Joining.joins T.Joining.joined (items_of table.old) (items_of table.new) }
    ensures order { InOrder T.Ranked.after (items_of table.old) → InOrder T.Ranked.after (items_of table.new) }
{
    table.items.dedup_by(join_next);
}
