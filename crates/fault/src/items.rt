//! One to four things in order: what a label names, what a message carries.
ghost use Rattle.std.specs.Prelude.{◌≡◌, [], ◌∷◌, length, take, Some, MatchOption};
ghost use Rattle.std.specs.List.{All, AllZip};
ghost use Rattle.fault.specs.Items.{list, things, nth, AllAnswer, AnyAnswer, SomeNone};

/// One to four things, in order. An enum of its four forms, since nothing here may allocate and a label has one item at
/// least; the methods here take the forms apart, and so do only those who read or print the four in ways of their own.
#[derive(Clone, Copy, PartialEq, Eq, Debug)]
pub enum Items<T> {
    One(T),
    Two(T, T),
    Three(T, T, T),
    Four(T, T, T, T),
}

impl<T: Copy> Items<T> {
    /// How many there are.
    pub fn count(&self) -> usize
        ensures { result ≡ length (list self.now) }
    {
        match self {
            Items::One(_) => 1,
            Items::Two(_, _) => 2,
            Items::Three(_, _, _) => 3,
            Items::Four(_, _, _, _) => 4,
        }
    }

    /// The one at a place, counted from 0, or none.
    pub fn get(&self, place: usize) -> Option<T>
        ensures { result ≡ nth (list self.now) place }
    {
        match (self, place) {
            (Items::One(a), 0) => Some(*a),
            (Items::Two(a, _), 0) => Some(*a),
            (Items::Two(_, b), 1) => Some(*b),
            (Items::Three(a, _, _), 0) => Some(*a),
            (Items::Three(_, b, _), 1) => Some(*b),
            (Items::Three(_, _, c), 2) => Some(*c),
            (Items::Four(a, _, _, _), 0) => Some(*a),
            (Items::Four(_, b, _, _), 1) => Some(*b),
            (Items::Four(_, _, c, _), 2) => Some(*c),
            (Items::Four(_, _, _, d), 3) => Some(*d),
            _ => None,
        }
    }

    /// The first, and those that follow it, if there are any.
    pub fn split_first(&self) -> (T, Option<Items<T>>)
        ensures { list self.now ≡ result.0 ∷ things result.1 }
    {
        match *self {
            Items::One(a) => (a, None),
            Items::Two(a, b) => (a, Some(Items::One(b))),
            Items::Three(a, b, c) => (a, Some(Items::Two(b, c))),
            Items::Four(a, b, c, d) => (a, Some(Items::Three(b, c, d))),
        }
    }

    /// The first of them, so many; all of them where there are no more, and none where that is nothing.
    pub fn first(&self, count: usize) -> Option<Items<T>>
        ensures { MatchOption result (take count (list self.now) ≡ []) (λ xs. list xs ≡ take count (list self.now)) }
    {
        match (*self, count) {
            (_, 0) => None,
            (Items::Two(a, _) | Items::Three(a, _, _) | Items::Four(a, _, _, _), 1) => Some(
                Items::One(a),
            ),
            (Items::Three(a, b, _) | Items::Four(a, b, _, _), 2) => Some(Items::Two(a, b)),
            (Items::Four(a, b, c, _), 3) => Some(Items::Three(a, b, c)),
            _ => Some(*self),
        }
    }

    /// Whether each passes the test; the first that fails ends it.
    pub fn all<F: Fn(T) -> bool>(&self, test: F) -> bool
        requires { All (F.pre test) (list self.now) }
        ensures { AllAnswer (F.post test) (list self.now) result }
    {
        match *self {
            Items::One(a) => test(a),
            Items::Two(a, b) => test(a) && test(b),
            Items::Three(a, b, c) => test(a) && test(b) && test(c),
            Items::Four(a, b, c, d) => test(a) && test(b) && test(c) && test(d),
        }
    }

    /// Whether one passes the test; the first that does ends it.
    pub fn any<F: Fn(T) -> bool>(&self, test: F) -> bool
        requires { All (F.pre test) (list self.now) }
        ensures { AnyAnswer (F.post test) (list self.now) result }
    {
        match *self {
            Items::One(a) => test(a),
            Items::Two(a, b) => test(a) || test(b),
            Items::Three(a, b, c) => test(a) || test(b) || test(c),
            Items::Four(a, b, c, d) => test(a) || test(b) || test(c) || test(d),
        }
    }

    /// What a function gives of each, in the same order.
    pub fn map<U, F: Fn(T) -> U>(&self, f: F) -> Items<U>
        requires { All (F.pre f) (list self.now) }
        ensures { AllZip (F.post f) (list self.now) (list result) }
    {
        match *self {
            Items::One(a) => Items::One(f(a)),
            Items::Two(a, b) => Items::Two(f(a), f(b)),
            Items::Three(a, b, c) => Items::Three(f(a), f(b), f(c)),
            Items::Four(a, b, c, d) => Items::Four(f(a), f(b), f(c), f(d)),
        }
    }

    /// What a function gives of each, in the same order; none where it gives none of one.
    pub fn try_map<U: Copy, F: Fn(T) -> Option<U>>(&self, f: F) -> Option<Items<U>>
        requires { All (F.pre f) (list self.now) }
        ensures { MatchOption result (SomeNone (F.post f) (list self.now)) (λ ys. AllZip (λ x y. F.post f x (Some y)) (list self.now) (list ys)) }
    {
        match *self {
            Items::One(a) => Some(Items::One(f(a)?)),
            Items::Two(a, b) => Some(Items::Two(f(a)?, f(b)?)),
            Items::Three(a, b, c) => Some(Items::Three(f(a)?, f(b)?, f(c)?)),
            Items::Four(a, b, c, d) => Some(Items::Four(f(a)?, f(b)?, f(c)?, f(d)?)),
        }
    }
}
