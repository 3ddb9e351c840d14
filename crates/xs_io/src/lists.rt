// Lists of bytes and of numbers that say what is left after want of memory.
ghost use Rattle.std.specs.Prelude.{◌≡◌, ◌∷◌, ℕ, List, [], ◌++◌, length, take, IfOk, is_ok, if◌then◌else◌};
ghost use Rattle.xs_io.specs.Bytes.{AreByteItems, AreWords};

use std::alloc::Global;
use std::marker::Model;

/// Memory was wanting.
#[derive(Clone, Copy, Debug, PartialEq, Eq)]
pub struct Memory;

// The slice as it is, with what its type says of each item.
fn bytes_of(items: &[u8]) -> &[u8]
    ensures items { result.now ≡ items.now }
    ensures bytes { AreByteItems items.now }
{
    items
}

fn words_of(items: &[u32]) -> &[u32]
    ensures items { result.now ≡ items.now }
    ensures words { AreWords items.now }
{
    items
}

/// A list of bytes. Contracts see the list itself.
#[derive(Debug, Drop)]
pub struct Octets {
    items: Vec<u8>,
}

impl Model for Octets {
    ghost Value = { List ℕ };

    ghost view = { λ s. s.items.items };
}

impl Octets {
    /// The empty list. It takes no memory.
    pub fn new(alloc: Global) -> Octets
        ensures empty { result ≡ [] }
    {
        Octets {
            items: Vec::new(alloc),
        }
    }

    pub fn from_slice(alloc: Global, items: &[u8]) -> Result<Octets, Memory>
        ensures copied { IfOk result (λ list. list ≡ items.now) }
    {
        let items = Vec::from_slice(alloc, items).map_err(|_| Memory)?;
        Ok(Octets { items })
    }

    /// Makes room for `more` further bytes, so that the list moves but once while they come.
    pub fn reserve(&mut self, more: usize) -> Result<(), Memory>
        ensures same { self.new ≡ self.old }
    {
        self.items.reserve(more).map_err(|_| Memory)
    }

    /// Appends one byte. Where it is refused, the list is as before.
    pub fn push(&mut self, byte: u8) -> Result<(), Memory>
        ensures appended { self.new ≡ (if is_ok result then self.old ++ byte ∷ [] else self.old) }
    {
        self.items.push(byte).map_err(|_| Memory)
    }

    /// Appends the items. Where it is refused, the list is as before.
    pub fn extend(&mut self, items: &[u8]) -> Result<(), Memory>
        ensures appended { self.new ≡ (if is_ok result then self.old ++ items.now else self.old) }
    {
        self.items.extend_from_slice(items).map_err(|_| Memory)
    }

    /// Keeps the first `count` items, or all where there are no more.
    pub fn truncate(&mut self, count: usize)
        ensures kept { self.new ≡ take count self.old }
    {
        self.items.truncate(count);
    }

    pub fn as_slice(&self) -> &[u8]
        ensures items { result.now ≡ self.now }
        ensures bytes { AreByteItems self.now }
    {
        bytes_of(self.items.as_slice())
    }

    pub fn len(&self) -> usize
        ensures count { result ≡ length self.now }
    {
        self.items.len()
    }
}

/// A list of numbers. Contracts see the list itself.
#[derive(Debug, Drop)]
pub struct Numbers {
    items: Vec<u32>,
}

impl Model for Numbers {
    ghost Value = { List ℕ };

    ghost view = { λ s. s.items.items };
}

impl Numbers {
    /// The empty list. It takes no memory.
    pub fn new(alloc: Global) -> Numbers
        ensures empty { result ≡ [] }
    {
        Numbers {
            items: Vec::new(alloc),
        }
    }

    pub fn from_slice(alloc: Global, items: &[u32]) -> Result<Numbers, Memory>
        ensures copied { IfOk result (λ list. list ≡ items.now) }
    {
        let items = Vec::from_slice(alloc, items).map_err(|_| Memory)?;
        Ok(Numbers { items })
    }

    /// Appends the items. Where it is refused, the list is as before.
    pub fn extend(&mut self, items: &[u32]) -> Result<(), Memory>
        ensures appended { self.new ≡ (if is_ok result then self.old ++ items.now else self.old) }
    {
        self.items.extend_from_slice(items).map_err(|_| Memory)
    }

    pub fn as_slice(&self) -> &[u32]
        ensures items { result.now ≡ self.now }
        ensures words { AreWords self.now }
    {
        words_of(self.items.as_slice())
    }

    pub fn len(&self) -> usize
        ensures count { result ≡ length self.now }
    {
        self.items.len()
    }
}

impl From<Vec<u8>> for Octets {
    /// The list of a vector's bytes. It takes no memory.
    fn from(items: Vec<u8>) -> Octets
        ensures moved { result ≡ items.items }
    {
        Octets { items }
    }
}
