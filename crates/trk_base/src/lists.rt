// Lists inside plain data, and copies that may want memory.
ghost use Rattle.std.specs.Prelude.{◌≡◌, ◌++◌, ◌↔◌, [], ◌∷◌, length, IfOk, OnOk, OnErr, IsTrue};
ghost use Rattle.std.specs.Cmp.Lexicographic.{pointwise, lists_per, lists_equiv};

use crate::NoMemory;
use std::alloc::Global;
use std::marker::Model;

/// What can be copied, unless memory is wanting.
pub trait TryCopy: Drop + Sized {
    /// A copy.
    fn copy(&self, alloc: Global) -> Result<Self, NoMemory>
        ensures { IfOk result (λ x. x ≡ self.now) };

    /// A copy of each, in order.
    fn copy_all(alloc: Global, items: &[Self]) -> Result<Vec<Self>, NoMemory>
        ensures { IfOk result (λ v. v.items ≡ items.now) }
    {
        let mut copies = Vec::with_capacity(alloc, items.len())?;
        for item in items {
            copies.push(item.copy(alloc)?)?;
        }
        Ok(copies)
    }
}

/// A `Vec` in plain data, which contracts see as the list of its elements.
#[derive(Debug, Drop)]
pub struct Sequence<T> {
    items: Vec<T>,
}

impl<T> Model for Sequence<T> {
    ghost use Rattle.std.specs.Prelude.{List};
    ghost use Rattle.std.specs.Coded.{coded_list};

    ghost Value = { List T };

    ghost coded = { coded_list T.code };

    ghost view = { λ it. it.items.items };
}

impl<T> Sequence<T> {
    /// No elements. It takes no memory.
    pub fn new(alloc: Global) -> Sequence<T>
        ensures { result ≡ [] }
    {
        Sequence {
            items: Vec::new(alloc),
        }
    }

    /// The elements of a `Vec`. It takes no memory.
    pub fn of(items: Vec<T>) -> Sequence<T>
        ensures { result ≡ items.items }
    {
        Sequence { items }
    }

    /// The elements as a `Vec`. It takes no memory.
    pub fn into_vec(self) -> Vec<T>
        ensures { result.items ≡ self }
    {
        let Sequence { items } = self;
        items
    }

    /// The elements, to read.
    pub fn as_slice(&self) -> &[T]
        ensures { result.now ≡ self.now }
    {
        &self.items
    }

    /// How many elements there are.
    pub fn len(&self) -> usize
        ensures { result ≡ length self.now }
    {
        self.items.len()
    }

    /// Whether there are none.
    pub fn is_empty(&self) -> bool
        ensures { IsTrue result ↔ (self.now ≡ []) }
    {
        self.items.is_empty()
    }
}

impl<T: Drop> Sequence<T> {
    /// Puts an element at the end. After an error all is as it was.
    pub fn push(&mut self, item: T) -> Result<(), NoMemory>
        ensures ok { OnOk result (self.new ≡ self.old ++ item ∷ []) }
        ensures err { OnErr result (self.new ≡ self.old) }
    {
        self.items.push(item)?;
        Ok(())
    }
}

impl<T: PartialEq> PartialEq for Sequence<T> {
    ghost eq = { pointwise T.eq };

    ghost laws = { lists_per T.laws };

    fn eq(&self, other: &Sequence<T>) -> bool {
        self.items == other.items
    }
}

impl<T: Eq> Eq for Sequence<T> {
    ghost laws = { lists_equiv T.Eq.laws };
}

impl<T: TryCopy> TryCopy for Sequence<T> {
    fn copy(&self, alloc: Global) -> Result<Sequence<T>, NoMemory> {
        Ok(Sequence {
            items: T::copy_all(alloc, &self.items)?,
        })
    }
}

impl<T: Copy> TryCopy for T {
    fn copy(&self, _: Global) -> Result<T, NoMemory> {
        Ok(*self)
    }

    fn copy_all(alloc: Global, items: &[T]) -> Result<Vec<T>, NoMemory> {
        Ok(Vec::from_slice(alloc, items)?)
    }
}
