//! Lists that own their room.
ghost use Rattle.std.specs.Prelude.{◌≡◌, ◌<◌, ◌^◌, length};
ghost use Rattle.std.specs.Iterator.Runs.{EveryRun, ItemsMapTo};
ghost use Rattle.std.specs.Slice.Iter.{iter_rest, iter_steps};

use std::marker::Model;
use std::ops::DerefSlice;
use std::slice;

/// Values in their order, in room of their own. Contracts see the list, and it is used as a slice.
#[derive(Drop)]
pub struct Rows<T> {
    rows: Vec<T>,
}

/// Bytes: a text, which needn't be UTF-8, or plain bytes.
pub type Bytes = Rows<u8>;

impl<T> Model for Rows<T> {
    ghost use Rattle.std.specs.Prelude.{List};

    ghost Value = { List T };

    ghost view = { λ a. a.rows.items };
}

impl<T> Rows<T> {
    /// The list of these values.
    pub fn new(rows: Vec<T>) -> Self
        ensures { result ≡ rows.items }
    {
        Rows { rows }
    }

    /// The values as a slice.
    pub fn as_slice(&self) -> &[T]
        ensures { result.now ≡ self.now }
    {
        self.rows.as_slice()
    }

    /// How many there are.
    pub fn len(&self) -> usize
        ensures { result ≡ length self.now }
    {
        self.rows.len()
    }

    /// The values, given back.
    pub fn into_vec(self) -> Vec<T>
        ensures { result.items ≡ self }
    {
        let Rows { rows } = self;
        rows
    }
}

impl<T> DerefSlice for Rows<T> {
    type Elem = T;

    ghost deref_gives = { λ v xs. xs ≡ v };

    fn deref(&self) -> &[T] {
        self.as_slice()
    }
}

impl<'a, T> IntoIterator for &'a Rows<T> {
    type Item = &'a T;

    type IntoIter = slice::Iter<'a, T>;

    ghost into_iter_gives = { λ v it. (iter_rest it ≡ v.now) × (length (iter_rest it) < 2 ^ 64)
        × EveryRun (iter_steps {A = T}) (λ p. ItemsMapTo p (λ x. x.now) (iter_rest p.from)) };

    fn into_iter(self) -> slice::Iter<'a, T> {
        self.as_slice().iter()
    }
}
