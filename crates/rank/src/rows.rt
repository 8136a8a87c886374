ghost use Rattle.std.specs.Prelude.{◌≡◌, ◌≤◌, [], ◌∷◌, ◌++◌, length, take, IfOk};
ghost use Rattle.std.specs.List.{slice_get};
ghost use Rattle.rank.specs.Tables.{items_of, answer_to, then_holds};

use crate::table::{Full, Table};
use std::alloc::{AllocError, Global};

impl<T> Table<T> {
    // An empty table, with room for as many elements as its limit says.
    pub fn new(heap: Global, limit: usize) -> Result<Table<T>, AllocError>
        ensures { IfOk result (λ t. (items_of t ≡ []) × (t.limit ≡ limit)) }
    {
        let items = Vec::with_capacity(heap, limit)?;
        Ok(Table { items, limit })
    }

    pub fn len(&self) -> usize
        ensures { result ≡ length (items_of self.now) }
    {
        self.items.len()
    }

    pub fn limit(&self) -> usize
        ensures { result ≡ self.now.limit }
    {
        self.limit
    }

    pub fn as_slice(&self) -> &[T]
        ensures is { result.now ≡ items_of self.now }
        ensures few { length (items_of self.now) ≤ self.now.limit }
    {
        self.items.as_slice()
    }

    // The element at the place, if there is one.
    pub fn get(&self, place: usize) -> Option<T>
    where
        T: Copy,
        ensures { result ≡ slice_get (items_of self.now) place }
    {
        self.items.get(place).copied()
    }

    // Puts the element behind the others, or hands it back where the table is full.
    pub fn push(&mut self, x: T) -> Result<(), Full<T>>
        ensures answer { result ≡ answer_to self.old.limit (items_of self.old) x }
        ensures items { items_of self.new ≡ then_holds self.old.limit (items_of self.old) (items_of self.old ++ x ∷ []) }
        ensures limit { self.new.limit ≡ self.old.limit }
    {
        if self.items.len() < self.limit {
            self.items.push_reserved(x);
            Ok(())
        } else {
            Err(Full { value: x })
        }
    }

    // Keeps the first n elements.
    pub fn truncate(&mut self, n: usize)
    where
        T: Drop,
        ensures items { items_of self.new ≡ take n (items_of self.old) }
        ensures limit { self.new.limit ≡ self.old.limit }
    {
        self.items.truncate(n);
    }

    pub fn clear(&mut self)
    where
        T: Drop,
        ensures items { items_of self.new ≡ [] }
        ensures limit { self.new.limit ≡ self.old.limit }
    {
        self.items.clear();
    }
}
