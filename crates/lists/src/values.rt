//! Lists that are handed out.
use std::marker::Model;

/// A list, which contracts see as its elements in order.
#[derive(Debug, Drop)]
pub struct Values<V> {
    items: Vec<V>,
}

impl<V> Model for Values<V> {
    ghost use Rattle.std.specs.Prelude.{List};

    ghost Value = { List V };

    ghost view = { λ a. a.items.items };
}

impl<V> Values<V> {
    ghost use Rattle.std.specs.Prelude.{◌≡◌};

    /// The list of a vector's elements.
    pub fn of(items: Vec<V>) -> Self
        ensures { result ≡ items.items }
    {
        Values { items }
    }

    /// The elements.
    pub fn as_slice(&self) -> &[V]
        ensures { result.now ≡ self.now }
    {
        &self.items
    }

    /// The elements, as a vector of one's own.
    pub fn into_vec(self) -> Vec<V>
        ensures { result.items ≡ self }
    {
        self.items
    }
}
