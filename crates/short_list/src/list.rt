// Short lists.
ghost use Rattle.std.specs.Prelude.{◌≡◌, ◌<◌, ◌++◌, ◌↔◌, [], ◌∷◌, length, get_or, OnOk, OnErr, IsTrue};
ghost use Rattle.std.specs.Mem.{FitsInMemory};
ghost use Rattle.std.specs.Cmp.Lexicographic.{pointwise, lists_per, lists_equiv};

use crate::forms::Form;
use std::alloc::Global;
use std::marker::Model;
use trk_base::{NoMemory, TryCopy};

/// A list in plain data that keeps a single element in place and more than one in a `Vec`. Contracts
/// see it as the list of its elements.
#[derive(Debug, Drop)]
pub struct ShortList<T> {
    form: Form<T>,
}

impl<T> Model for ShortList<T> {
    ghost use Rattle.std.specs.Prelude.{List};
    ghost use Rattle.std.specs.Coded.{coded_list};
    ghost use Rattle.short_list.specs.Forms.{elements, IsShort};

    ghost Value = { List T };

    ghost coded = { coded_list T.code };

    ghost view = { λ it. elements it.form };

    ghost invariant = { λ it. IsShort it.form };
}

impl<T> ShortList<T> {
    /// No elements. It takes no memory.
    pub fn new(alloc: Global) -> ShortList<T>
        ensures { result ≡ [] }
    {
        ShortList {
            form: Form::none(alloc),
        }
    }

    /// One element. It takes no memory.
    pub fn one(item: T) -> ShortList<T>
        ensures { result ≡ item ∷ [] }
    {
        ShortList {
            form: Form::One(item),
        }
    }

    /// The elements, to read.
    pub fn as_slice(&self) -> &[T]
        requires { FitsInMemory T.row }
        ensures { result.now ≡ self.now }
    {
        self.form.as_slice()
    }

    /// The element at an index.
    pub fn at(&self, index: usize) -> &T
        requires { index < length self.now }
        ensures { (d : T) → result.now ≡ get_or self.now index d }
    {
        match &self.form {
            Form::One(item) => item,
            Form::Many(items) => &items[index],
        }
    }

    /// How many elements there are.
    pub fn len(&self) -> usize
        ensures { result ≡ length self.now }
    {
        self.form.len()
    }

    /// Whether there are none.
    pub fn is_empty(&self) -> bool
        ensures { IsTrue result ↔ (self.now ≡ []) }
    {
        self.len() == 0
    }
}

impl<T: Drop> ShortList<T> {
    /// The elements of a `Vec`. It takes no memory, and gives the `Vec`'s back where it has a single
    /// element.
    pub fn of(items: Vec<T>) -> ShortList<T>
        ensures { result ≡ items.items }
    {
        ShortList {
            form: Form::of(items),
        }
    }

    /// Puts an element at the end. The first one takes no memory. After an error all is as it was.
    pub fn push(&mut self, alloc: Global, item: T) -> Result<(), NoMemory>
        ensures ok { OnOk result (self.new ≡ self.old ++ item ∷ []) }
        ensures err { OnErr result (self.new ≡ self.old) }
    {
        self.form.push(alloc, item)?;
        Ok(())
    }
}

impl<T: PartialEq> PartialEq for ShortList<T> {
    ghost eq = { pointwise T.eq };

    ghost laws = { lists_per T.laws };

    fn eq(&self, other: &ShortList<T>) -> bool {
        match &self.form {
            Form::One(item) => match &other.form {
                Form::One(other) => item == other,
                Form::Many(_) => false,
            },
            Form::Many(items) => match &other.form {
                Form::One(_) => false,
                Form::Many(others) => items == others,
            },
        }
    }
}

impl<T: Eq> Eq for ShortList<T> {
    ghost laws = { lists_equiv T.Eq.laws };
}

impl<T: TryCopy> TryCopy for ShortList<T> {
    fn copy(&self, alloc: Global) -> Result<ShortList<T>, NoMemory> {
        let form = match &self.form {
            Form::One(item) => Form::One(item.copy(alloc)?),
            Form::Many(items) => Form::Many(T::copy_all(alloc, items)?),
        };
        Ok(ShortList { form })
    }
}
