//! Notes that only proofs read.
#![tactic(auto)]

ghost use Rattle.std.specs.Prelude.{◌≡◌, List, [], ◌∷◌, ◌++◌};
ghost use Rattle.std.specs.Borrow.{ftrue};

use std::marker::{Model, PhantomData};

/// Values that were noted, the newest last. They are in the proofs alone: notes take no memory, and
/// to note a value does nothing when the program runs.
///
/// A contract reads them as `items`. They hold what the caller noted, whatever it was, so they say
/// something of a call only if the function that makes the call is the one that notes it. Notes may
/// be a part of what is noted: octets that were read are `Notes::of` them.
#[derive(Drop)]
pub struct Notes<T> {
    marker: PhantomData<T>,
    pub ghost items: { List T },
}

impl<T> Model for Notes<T> {
    ghost also_owns = { λ _. ftrue };
}

impl<T> Notes<T> {
    /// Nothing was noted.
    pub fn new() -> Notes<T>
        ensures { result.items ≡ [] }
    {
        Notes {
            marker: PhantomData,
        }
    }

    /// Notes a value.
    #[inline(always)]
    pub fn note(&mut self, _value: &T)
        ensures { self.new.items ≡ self.old.items ++ _value.now ∷ [] }
    {}

    /// Notes values, in their order.
    #[inline(always)]
    pub fn note_all(&mut self, _values: &[T])
        ensures { self.new.items ≡ self.old.items ++ _values.now }
    {}

    /// Notes of these values.
    #[inline(always)]
    pub fn of(values: &[T]) -> Notes<T>
        ensures { result.items ≡ values.now }
    {
        let mut notes = Notes::new();
        notes.note_all(values);
        notes
    }
}
