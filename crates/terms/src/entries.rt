// The entries of one kind, groups or names, that words have: at most 15, as there are at most 15 controllers.
ghost use Rattle.std.specs.Prelude.{◌≡◌, ℕ, ◌<◌, ◌≤◌, [], ◌++◌, ◌∷◌, length, ⊤};

use std::alloc::AllocError;
use std::marker::Model;

// The first `count` places hold the entries; every place behind them is blank.
// kept: an array with a count in place of a Vec, since the park takes its memory from its host and has no heap; and not the library's ArrayVec, since the public type of what was heard is Copy, as it was, which an ArrayVec is not.
#[derive(Debug)]
pub struct Entries<T> {
    pub(crate) list: [Option<T>; 15],
    pub(crate) count: usize,
}

// kept: copied and cloned by hand, since a derived clone copies the two fields apart, and its proof that blanks stand behind them stayed open.
impl<T: Copy> Copy for Entries<T> {}

impl<T: Copy> Clone for Entries<T> {
    ghost is_clone = { λ x y. y ≡ x };

    ghost is_infallible = { λ _. ⊤ };

    fn clone(&self) -> Result<Self, AllocError> {
        Ok(*self)
    }
}

impl<T> Model for Entries<T> {
    ghost use Rattle.std.specs.Prelude.{◌≡◌, ◌-◌, ◌≤◌, ◌++◌, List, Option, None, length, take, drop, replicate};
    ghost use Rattle.std.proofs.Common.{arith};
    ghost use Rattle.terms.specs.Filled.{filled_again};

    ghost Value = { List (Option T) };

    ghost view = { λ a. take a.count a.list };

    ghost invariant = { λ a. (length a.list ≡ 15) × (a.count ≤ 15) × (drop a.count a.list ≡ replicate (15 - a.count) None) };

    ghost inverse = { λ xs. record { list = xs ++ replicate (15 - length xs) None; count = length xs } };

    ghost inverse_ok = { λ a h. filled_again (λ list count. record { list = list; count = count }) a.list a.count h.0 h.1 h.2 };
}

impl<T: Copy> Entries<T> {
    pub(crate) fn new() -> Self
        ensures { result ≡ [] }
    {
        Entries {
            list: [None; 15],
            count: 0,
        }
    }

    pub(crate) fn push(&mut self, entry: Option<T>)
        requires { length self.old < 15 }
        ensures { self.new ≡ self.old ++ entry ∷ [] }
    {
        self.list[self.count] = entry;
        self.count += 1;
    }

    pub fn as_slice(&self) -> &[Option<T>]
        ensures entries { result.now ≡ self.now }
        ensures few { length result.now ≤ 15 }
    {
        &self.list[..self.count]
    }
}
