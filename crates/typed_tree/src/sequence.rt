//! Lists of items, and names.
ghost use Rattle.std.specs.Prelude.{◌≡◌, slice_set};

use std::marker::Model;

/// A `Vec` that contracts see as the list of its items. It is made from a `Vec` and gives it back,
/// and neither takes memory.
#[derive(Drop)]
pub struct Sequence<T> {
    items: Vec<T>,
}

/// A name of a program, as its bytes.
pub type Name = Sequence<u8>;

impl<T> Model for Sequence<T> {
    ghost use Rattle.std.specs.Prelude.{List};

    ghost Value = { List T };

    ghost view = { λ s. s.items.items };
}

impl<T> Sequence<T> {
    /// The items of the `Vec`, in its order.
    pub fn new(items: Vec<T>) -> Sequence<T>
        ensures { result ≡ items.items }
    {
        Sequence { items }
    }

    /// The items, in order.
    pub fn as_slice(&self) -> &[T]
        ensures { result.now ≡ self.now }
    {
        self.items.as_slice()
    }
}

impl<T: Copy> Sequence<T> {
    /// Puts the item at this index. Where there is no such index nothing is changed.
    pub fn set(&mut self, index: usize, item: T)
        ensures { self.new ≡ slice_set self.old index item }
    {
        if index < self.items.len() {
            self.items[index] = item;
        }
    }
}
