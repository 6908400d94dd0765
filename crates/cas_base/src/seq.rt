//! Lists that contracts see as lists.

ghost use Rattle.std.specs.Prelude.{◌≡◌};

use crate::memory::NoMemory;
use std::alloc::Global;
use std::marker::Model;

/// A list of items, in a vector that it owns. Contracts see it as the list.
#[derive(Debug, Drop)]
pub struct Seq<T> {
    items: Vec<T>,
}

impl<T> Model for Seq<T> {
    ghost use Rattle.std.specs.Prelude.{List};

    ghost Value = { List T };

    ghost view = { λ s. s.items.items };
}

impl<T> Seq<T> {
    /// The list of this vector's items.
    pub fn of(items: Vec<T>) -> Self
        ensures { result ≡ items.items }
    {
        Seq { items }
    }

    /// The items, in their order.
    pub fn as_slice(&self) -> &[T]
        ensures { result.now ≡ self.now }
    {
        &self.items
    }

    /// The vector of the items, in their order.
    pub fn into_vec(self) -> Vec<T>
        ensures { result.items ≡ self }
    {
        let Seq { items } = self;
        items
    }
}

impl<T: Copy> Seq<T> {
    ghost use Rattle.std.specs.Prelude.{IfOk};

    /// Another list of the same items.
    pub fn copy(&self, alloc: Global) -> Result<Seq<T>, NoMemory>
        ensures { IfOk result (λ copied. copied ≡ self.now) }
    {
        let items = Vec::from_slice(alloc, self.as_slice())?;
        Ok(Seq { items })
    }
}
