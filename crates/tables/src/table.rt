//! A list of bounded length in a fixed place.
ghost use Rattle.std.specs.Prelude.{◌≡◌, ◌<◌, ◌≤◌, [], ◌∷◌, ◌++◌, length, MatchResult, ⊤};

use std::alloc::AllocError;

/// At most N things in order: the first `count` of the places. A place of fixed size, since nothing here may allocate.
pub struct Table<T, const N: usize> {
    items: [T; N],
    count: usize,
    ghost within: { count ≤ N },
}

/// All places of a table are used.
#[derive(Clone, Copy, PartialEq, Eq, Debug)]
pub struct Full;

// Both by hand: a derive is refused on a generic struct with a ghost field.
impl<T: Copy, const N: usize> Copy for Table<T, N> {}

impl<T: Copy, const N: usize> Clone for Table<T, N> {
    ghost is_clone = { λ x y. y ≡ x };

    ghost is_infallible = { λ _. ⊤ };

    fn clone(&self) -> Result<Table<T, N>, AllocError> {
        Ok(*self)
    }
}

impl<T: Copy, const N: usize> Table<T, N> {
    ghost use Rattle.tables.specs.Elements.{elements, last_of, with_last};

    /// A table of nothing; `filler` stands in the places until they are used.
    pub fn new(filler: T) -> Table<T, N>
        ensures { elements result ≡ [] }
    {
        Table {
            items: [filler; N],
            count: 0,
        }
    }

    /// The things, in order.
    pub fn as_slice(&self) -> &[T]
        ensures value { result.now ≡ elements self.now }
        ensures within { length result.now ≤ N }
    {
        &self.items[..self.count]
    }

    /// How many there are.
    pub fn len(&self) -> usize
        ensures value { result ≡ length (elements self.now) }
        ensures within { result ≤ N }
    {
        self.as_slice().len()
    }

    /// The last thing, or none.
    pub fn last(&self) -> Option<T>
        ensures { result ≡ last_of (elements self.now) }
    {
        self.as_slice().last().copied()
    }

    /// One thing more at the end; where all places are used, an error, and nothing changes.
    pub fn push(&mut self, item: T) -> Result<(), Full>
        ensures { MatchResult result (λ _. elements self.new ≡ elements self.old ++ item ∷ []) (λ _. (self.new ≡ self.old) × (N ≤ length (elements self.old))) }
    {
        if self.count == N {
            return Err(Full);
        }
        self.items[self.count] = item;
        // The list's own count: no list of the library stands in a fixed place.
        self.count += 1;
        Ok(())
    }

    /// Another thing in the place of the last; nothing changes where there is none.
    pub fn replace_last(&mut self, item: T)
        ensures { elements self.new ≡ with_last (elements self.old) item }
    {
        if self.count > 0 {
            self.items[self.count - 1] = item;
        }
    }
}
