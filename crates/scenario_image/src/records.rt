//! A list of records, over a vector.
ghost use Rattle.std.specs.Prelude.{◌≡◌, length};

use std::marker::Model;

/// A list of records. A `Vec` becomes one and comes back without taking memory.
#[derive(Drop)]
pub struct Records<T> {
    items: Vec<T>,
}

impl<T> Model for Records<T> {
    ghost use Rattle.std.specs.Prelude.{List};

    ghost Value = { List T };

    ghost view = { λ r. r.items.items };
}

impl<T> Records<T> {
    /// The list of the vector's items.
    pub fn new(items: Vec<T>) -> Records<T>
        ensures { result ≡ items.items }
    {
        Records { items }
    }

    /// The items.
    pub fn as_slice(&self) -> &[T]
        ensures value { result.now ≡ self.now }
    {
        self.items.as_slice()
    }

    /// The vector again.
    pub fn into_vec(self) -> Vec<T>
        ensures { result.items ≡ self }
    {
        self.items
    }

    /// How many there are.
    pub fn len(&self) -> usize
        ensures { result ≡ length self.now }
    {
        self.items.len()
    }
}
