// Lists that are filled side by side.
ghost use Rattle.std.specs.Prelude.{◌≡◌, ◌<◌, ◌++◌, [], ◌∷◌, length, get_or, set, replicate, IfOk, OnOk};

use std::alloc::Global;
use std::marker::Model;
use trk_base::NoMemory;

/// So many lists, each told by its index, which contracts see as the list of them.
#[derive(Drop)]
pub(crate) struct Buckets<T> {
    lists: Vec<Vec<T>>,
}

impl<T> Model for Buckets<T> {
    ghost use Rattle.std.specs.Prelude.{List, map};
    ghost use Rattle.std.specs.Coded.{coded_list};

    ghost Value = { List (List T) };

    ghost coded = { coded_list (coded_list T.code) };

    ghost view = { λ b. map (λ list. list.items) b.lists.items };
}

impl<T: Drop> Buckets<T> {
    /// So many lists without elements.
    pub fn new(alloc: Global, count: usize) -> Result<Buckets<T>, NoMemory>
        ensures { IfOk result (λ b. b ≡ replicate count []) }
    {
        let mut lists = Vec::with_capacity(alloc, count)?;
        for _ in 0..count {
            lists.push(Vec::new(alloc))?;
        }
        Ok(Buckets { lists })
    }

    /// The list at an index.
    pub fn at(&self, index: usize) -> &[T]
        requires { index < length self.now }
        ensures { result.now ≡ get_or self.now index [] }
    {
        &self.lists[index]
    }

    /// Puts an element at the end of the list at an index.
    pub fn push(&mut self, index: usize, item: T) -> Result<(), NoMemory>
        requires { index < length self.old }
        ensures { OnOk result (self.new ≡ set self.old index (get_or self.old index [] ++ item ∷ [])) }
    {
        self.lists[index].push(item)?;
        Ok(())
    }

    /// Takes all elements out of the list at an index. Their room stays.
    pub fn clear(&mut self, index: usize)
        requires { index < length self.old }
        ensures { self.new ≡ set self.old index [] }
    {
        self.lists[index].clear();
    }
}
