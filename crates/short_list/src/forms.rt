// Where a short list keeps its elements.
ghost use Rattle.std.specs.Prelude.{◌≡◌, ◌<◌, ◌++◌, [], ◌∷◌, length, IfOk, IfErr, OnOk, OnErr, MatchResult};
ghost use Rattle.std.specs.Mem.{FitsInMemory};
ghost use Rattle.short_list.specs.Forms.{elements, IsShort};

use std::alloc::Global;
use std::{mem, slice};
use trk_base::NoMemory;

/// One element in place, or any other number of them in a `Vec`.
#[derive(Debug, Drop)]
pub(crate) enum Form<T> {
    One(T),
    Many(Vec<T>),
}

impl<T> Form<T> {
    /// No elements. It takes no memory.
    pub(crate) fn none(alloc: Global) -> Form<T>
        ensures elements { elements result ≡ [] }
        ensures short { IsShort result }
    {
        Form::Many(Vec::new(alloc))
    }

    pub(crate) fn as_slice(&self) -> &[T]
        requires { FitsInMemory T.row }
        ensures { result.now ≡ elements self.now }
    {
        match self {
            Form::One(item) => slice::from_ref(item),
            Form::Many(items) => items,
        }
    }

    pub(crate) fn len(&self) -> usize
        ensures { result ≡ length (elements self.now) }
    {
        match self {
            Form::One(_) => 1,
            Form::Many(items) => items.len(),
        }
    }
}

impl<T: Drop> Form<T> {
    /// The elements of a `Vec`. A single one is taken out of it.
    pub(crate) fn of(items: Vec<T>) -> Form<T>
        ensures elements { elements result ≡ items.items }
        ensures short { IsShort result }
    {
        if items.len() != 1 {
            return Form::Many(items);
        }
        let mut items = items;
        match items.pop() {
            Some(item) => Form::One(item),
            None => Form::Many(items),
        }
    }

    /// The same with an element more at the end, or the same where memory is wanting.
    fn with(self, alloc: Global, item: T) -> Result<Form<T>, Form<T>>
        requires { IsShort self }
        ensures ok { IfOk result (λ form. elements form ≡ elements self ++ item ∷ []) }
        ensures err { IfErr result (λ form. elements form ≡ elements self) }
        ensures short { MatchResult result IsShort IsShort }
    {
        match self {
            Form::One(first) => match Vec::with_capacity(alloc, 2) {
                Ok(mut items) => {
                    items.push_reserved(first);
                    items.push_reserved(item);
                    Ok(Form::Many(items))
                }
                Err(_) => Err(Form::One(first)),
            },
            Form::Many(mut items) => {
                if items.is_empty() {
                    return Ok(Form::One(item));
                }
                match items.push(item) {
                    Ok(()) => Ok(Form::Many(items)),
                    Err(_) => Err(Form::Many(items)),
                }
            }
        }
    }

    /// Puts an element at the end. After an error all is as it was.
    pub(crate) fn push(&mut self, alloc: Global, item: T) -> Result<(), NoMemory>
        requires { IsShort self.old }
        ensures ok { OnOk result (elements self.new ≡ elements self.old ++ item ∷ []) }
        ensures err { OnErr result (elements self.new ≡ elements self.old) }
        ensures short { IsShort self.new }
    {
        match mem::replace(self, Form::none(alloc)).with(alloc, item) {
            Ok(form) => {
                *self = form;
                Ok(())
            }
            Err(form) => {
                *self = form;
                Err(NoMemory)
            }
        }
    }
}
