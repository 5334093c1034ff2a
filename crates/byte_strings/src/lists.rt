//! Lists that contracts see as such.

ghost use Rattle.std.specs.Prelude.{◌≡◌, ◌++◌, ◌∷◌, [], List, length, take, IfOk, OnOk, OnErr};

use std::alloc::{AllocError, Global};
use std::marker::Model;

/// Bytes. A contract sees them as a byte string.
pub type ByteList = PlainList<u8>;

/// A vector that contracts see as the list of its items, without its room.
#[derive(Drop)]
pub struct PlainList<T> {
    items: Vec<T>,
}

impl<T> Model for PlainList<T> {
    ghost Value = { List T };

    ghost view = { λ list. list.items.items };
}

impl<T> PlainList<T> {
    ghost use Rattle.std.specs.Borrow.{Lends, Array, sem};
    ghost use Rattle.byte_strings.specs.contracts.lists.PlainList.{the_row};
    ghost use Rattle.std.specs.List.{refill};

    /// No items. It takes no memory.
    pub fn new(alloc: Global) -> PlainList<T>
        ensures items { result ≡ [] }
    {
        PlainList {
            items: Vec::new(alloc),
        }
    }

    /// The list of a vector's items.
    pub fn from_vec(items: Vec<T>) -> PlainList<T>
        ensures items { result ≡ items.items }
    {
        PlainList { items }
    }

    /// The items, in order.
    pub fn as_slice(&self) -> &[T]
        ensures items { result.now ≡ self.now }
    {
        self.items.as_slice()
    }

    /// The items for writing: the list is then what was last written there, as long as it was.
    pub fn as_mut_slice(&mut self) -> &mut [T]
        ensures* writes_back { sem 𝓛 (Lends (the_row T.row) (Array T.row 0) self.entry result
            (refill (length self.old) self.old)) }
        ensures items { result.now ≡ self.old }
    {
        self.items.as_mut_slice()
    }

    /// Keeps so many items, the first ones. It takes no memory.
    pub fn truncate(&mut self, count: usize)
    where
        T: Drop,
        ensures items { self.new ≡ take count self.old }
    {
        self.items.truncate(count);
    }

    /// The vector of the items.
    pub fn into_vec(self) -> Vec<T>
        ensures items { result.items ≡ self }
    {
        self.items
    }
}

impl<T: Drop> PlainList<T> {
    /// Puts an item behind the others. Where there is no memory for it, it is dropped, and the list
    /// keeps what it had.
    pub fn push(&mut self, item: T) -> Result<(), AllocError>
        ensures items { OnOk result (self.new ≡ self.old ++ item ∷ []) }
        ensures kept { OnErr result (self.new ≡ self.old) }
    {
        self.items.push(item)?;
        Ok(())
    }
}

/// The same bytes in memory of their own.
pub fn copied(alloc: Global, bytes: &[u8]) -> Result<ByteList, AllocError>
    ensures { IfOk result (λ b. b ≡ bytes.now) }
{
    Ok(PlainList::from_vec(Vec::from_slice(alloc, bytes)?))
}

/// One string behind another, in memory of its own.
pub fn joined(alloc: Global, first: &[u8], second: &[u8]) -> Result<ByteList, AllocError>
    ensures { IfOk result (λ b. b ≡ first.now ++ second.now) }
{
    let mut bytes = Vec::new(alloc);
    bytes.extend_from_slice(first)?;
    bytes.extend_from_slice(second)?;
    Ok(PlainList::from_vec(bytes))
}
