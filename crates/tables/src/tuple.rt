//! None to four things in order: the arguments of a message, the components of a channel.
ghost use Rattle.std.specs.Prelude.{◌≡◌, length, take};
ghost use Rattle.std.specs.List.{All, AllZip};
ghost use Rattle.std.specs.Iterator.{YieldsFirst, item_count};
ghost use Rattle.fault.specs.Items.{things, nth, AllAnswer, AnyAnswer};
ghost use Rattle.tables.specs.Encoding.{parts};

use fault::Items;

/// None to four things, in order.
#[derive(Clone, Copy, PartialEq, Eq, Debug)]
pub struct Tuple<T>(pub Option<Items<T>>);

impl<T: Copy> Tuple<T> {
    /// How many there are.
    pub fn count(&self) -> usize
        ensures { result ≡ length (parts self.now) }
    {
        self.0.map_or(0, |items| items.count())
    }

    /// The one at a place, counted from 0, or none.
    pub fn get(&self, place: usize) -> Option<T>
        ensures { result ≡ nth (parts self.now) place }
    {
        self.0.and_then(|items| items.get(place))
    }

    /// The first of them, so many; all of them where there are no more.
    pub fn first(&self, count: usize) -> Tuple<T>
        ensures { parts result ≡ take count (parts self.now) }
    {
        Tuple(self.0.and_then(|items| items.first(count)))
    }

    /// Whether each passes the test; the first that fails ends it.
    pub fn all<F: Fn(T) -> bool>(&self, test: F) -> bool
        requires { All (F.pre test) (parts self.now) }
        ensures { AllAnswer (F.post test) (parts self.now) result }
    {
        self.0.is_none_or(|items| items.all(test))
    }

    /// Whether one passes the test; the first that does ends it.
    pub fn any<F: Fn(T) -> bool>(&self, test: F) -> bool
        requires { All (F.pre test) (parts self.now) }
        ensures { AnyAnswer (F.post test) (parts self.now) result }
    {
        self.0.is_some_and(|items| items.any(test))
    }

    /// What a function gives of each, in the same order.
    pub fn map<U, F: Fn(T) -> U>(&self, f: F) -> Tuple<U>
        requires { All (F.pre f) (parts self.now) }
        ensures { AllZip (F.post f) (parts self.now) (parts result) }
    {
        Tuple(self.0.map(|items| items.map(f)))
    }
}

/// What is left of a tuple's things while they are gone over.
#[derive(Drop)]
pub struct Left<T>(Option<Items<T>>);

impl<T: Copy> Iterator for Left<T> {
    type Item = T;

    ghost next_gives = { YieldsFirst (λ left. things left.0) };

    ghost remaining = { item_count (λ left. things left.0) };

    fn next(&mut self) -> Option<T> {
        let (first, rest) = self.0?.split_first();
        self.0 = rest;
        Some(first)
    }
}

impl<T: Copy> IntoIterator for Tuple<T> {
    type Item = T;

    type IntoIter = Left<T>;

    ghost into_iter_gives = { λ tuple left. things left.0 ≡ parts tuple };

    fn into_iter(self) -> Left<T> {
        Left(self.0)
    }
}
