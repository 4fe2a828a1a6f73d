//! A list that only contracts see.
//!
//! A source that runs for days can't keep everything that it was sent, yet its contracts are about
//! the list of all of it. So it keeps this list, which takes no memory: each call appends the value
//! that it is shown, for contracts alone.
ghost use Rattle.std.specs.Prelude.{◌≡◌, ◌++◌, ◌∷◌, [], List};
ghost use Rattle.std.specs.Coded.{coded_list};
ghost use base.Fml.{ftrue};

use std::marker::{Model, PhantomData, Send};

/// A list of values that takes no memory. No code can read it.
pub struct GhostList<T> {
    marker: PhantomData<T>,
    /// The values, in the order in which they were appended.
    pub ghost items: { List T } by { coded_list T.code },
}

impl<T> Model for GhostList<T> {
    ghost also_owns = { λ _. ftrue };
}

impl<T> GhostList<T> {
    /// Returns an empty list.
    pub fn new() -> GhostList<T>
        ensures { result.items ≡ [] }
    {
        GhostList {
            marker: PhantomData,
        }
    }

    /// Returns the list with the value appended.
    pub fn with(&self, value: &T) -> GhostList<T>
        ensures { result.items ≡ self.now.items ++ value.now ∷ [] }
    {
        let _ = value;
        GhostList {
            marker: PhantomData,
        }
    }
}

impl<T> Drop for GhostList<T> {
    fn drop(self) {
        let GhostList { marker: _ } = self;
    }
}

// It owns nothing, so it may go to another thread.
unsafe impl<T> Send for GhostList<T> {}
