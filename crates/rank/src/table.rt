ghost use Rattle.std.specs.Prelude.{◌≡◌, ◌≤◌, length, vec_items, vec_capacity};

use std::marker::Model;

// A table of at most `limit` elements. Its room is reserved when it is made, so no
// element that it takes can fail for want of memory.
#[derive(Drop)]
pub struct Table<T> {
    pub(crate) items: Vec<T>,
    pub(crate) limit: usize,
    ghost room: { limit ≤ vec_capacity items },
    ghost few: { length (vec_items items) ≤ limit },
    ghost exact: { vec_capacity items ≡ limit },
}

// Clauses see the limit and the elements, that there are no more of these, and that there is room for just as
// many: so tables of one limit and of equal elements are equal. (That the limit stays is a clause of its own of
// each function: a whole table in a clause needs a proof of its bound there.)
impl<T> Model for Table<T> {
    ghost use Rattle.std.specs.Prelude.{vec_items, vec_capacity};
    ghost use Rattle.rank.specs.Holding.{Holding};

    ghost Value = { Holding T };

    ghost view = { λ t. record { limit = t.limit; items = vec_items t.items; few = t.few; capacity = vec_capacity t.items; room = t.room; exact = t.exact } };
}

// The table is full: the element that it did not take. (The library's AllocFailed
// says that memory ran out, which a table's room rules out.)
#[derive(Drop, Debug, PartialEq, Eq)]
pub struct Full<T> {
    pub value: T,
}
