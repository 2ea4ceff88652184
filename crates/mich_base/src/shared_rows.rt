// Lists of values that several holders share, which contracts see as lists.
ghost use Rattle.std.specs.Prelude.{◌≡◌, ℕ, ◌+◌, ◌<◌, ◌≤◌, [], ◌∷◌, ◌++◌, length, IfOk, OnErr, MatchOption, MatchBool, Some, take, drop, slice_get, option_map};
ghost use Rattle.std.specs.Mem.{FitsInMemory};
ghost use Rattle.mich_base.specs.Counted.{IsNotEmpty, IsNotOne, IsNotTwo, IsNotThree};

use crate::link::Share;
use crate::memory::Memory;
use crate::rows::Rows;
use std::alloc::Global;
use std::marker::Model;
use std::rc::Rc;
use std::slice;

/// A growing list that several holders may share, through which a type may hold itself. Contracts see the list of its elements.
#[derive(Debug, Drop)]
pub struct SharedRows<T> {
    items: Option<Rc<Vec<T>>>,
    alloc: Global,
}

impl<T> Model for SharedRows<T> {
    ghost use Rattle.std.specs.Prelude.{List};

    ghost Value = { List T };

    ghost use Rattle.mich_base.specs.Sharing.{items_of};

    ghost view = { λ a. items_of a.items };
}

impl<T> SharedRows<T> {
    /// The empty list; takes no memory.
    pub fn new(alloc: Global) -> SharedRows<T>
        ensures { result ≡ [] }
    {
        SharedRows { items: None, alloc }
    }

    /// The empty list with room for so many elements. Memory where there is none.
    pub fn with_capacity(alloc: Global, capacity: usize) -> Result<SharedRows<T>, Memory>
    where
        T: Drop,
        requires { FitsInMemory T.row }
        ensures { IfOk result (λ rows. rows ≡ []) }
    {
        let items = Rc::new(alloc, Vec::with_capacity(alloc, capacity)?)?;
        Ok(SharedRows {
            items: Some(items),
            alloc,
        })
    }

    /// The list of these elements. Memory where there is no room for it.
    pub fn from_rows(rows: Rows<T>) -> Result<SharedRows<T>, Memory>
    where
        T: Drop,
        ensures { IfOk result (λ shared. shared ≡ rows) }
    {
        let items = rows.into_vec();
        let alloc = *items.allocator();
        if items.is_empty() {
            return Ok(SharedRows::new(alloc));
        }
        let items = Some(Rc::new(alloc, items)?);
        Ok(SharedRows { items, alloc })
    }

    /// Its elements, or copies of their first levels where they are held elsewhere too. Memory where there is no room for those.
    pub fn into_vec(self) -> Result<Vec<T>, Memory>
    where
        T: Share + Drop,
        ensures { IfOk result (λ items. items.items ≡ self) }
    {
        let alloc = self.alloc;
        match self.items {
            None => Ok(Vec::new(alloc)),
            Some(items) => match Rc::try_unwrap(items) {
                Ok(items) => Ok(items),
                Err(items) => copies(alloc, items.as_slice()),
            },
        }
    }

    /// The same as a list of one holder.
    pub fn into_rows(self) -> Result<Rows<T>, Memory>
    where
        T: Share + Drop,
        ensures { IfOk result (λ rows. rows ≡ self) }
    {
        Ok(Rows::from_vec(self.into_vec()?))
    }

    /// One more holder of the same list, in constant time. Memory where it has too many holders.
    pub fn share(&self) -> Result<SharedRows<T>, Memory>
    where
        T: Drop,
        ensures { IfOk result (λ rows. rows ≡ self.now) }
    {
        match &self.items {
            None => Ok(SharedRows::new(self.alloc)),
            Some(items) => {
                let items = Some(items.clone()?);
                Ok(SharedRows {
                    items,
                    alloc: self.alloc,
                })
            }
        }
    }

    /// Its elements.
    pub fn as_slice(&self) -> &[T]
        ensures { result.now ≡ self.now }
    {
        match &self.items {
            None => &[],
            Some(items) => items.as_slice(),
        }
    }

    /// How many elements it has.
    pub fn len(&self) -> usize
        ensures { result ≡ length self.now }
    {
        self.as_slice().len()
    }

    /// The element at a place. None past the end.
    pub fn get(&self, index: usize) -> Option<&T>
        ensures { option_map (λ x. x.now) result ≡ slice_get self.now index }
    {
        self.as_slice().get(index)
    }

    /// Puts an element at the end, in constant time where this is the only holder. Memory where there is no room for it; the list is then unchanged.
    pub fn push(&mut self, item: T) -> Result<(), Memory>
    where
        T: Share + Drop,
        ensures pushed { IfOk result (λ _. self.new ≡ self.old ++ item ∷ []) }
        ensures unchanged { OnErr result (self.new ≡ self.old) }
    {
        let alloc = self.alloc;
        match &mut self.items {
            Some(items) => push_to(alloc, items, item),
            None => {
                let mut items = Vec::new(alloc);
                items.push(item)?;
                self.items = Some(Rc::new(alloc, items)?);
                Ok(())
            }
        }
    }

    /// The element, where there is just one.
    pub fn only(&self) -> Option<&T>
        ensures { MatchOption result (IsNotOne self.now) (λ x. self.now ≡ x.now ∷ []) }
    {
        match self.as_slice() {
            [x] => Some(x),
            _ => None,
        }
    }

    /// The two elements, where there are just two.
    pub fn both(&self) -> Option<(&T, &T)>
        ensures { MatchOption result (IsNotTwo self.now) (λ p. self.now ≡ p.0.now ∷ p.1.now ∷ []) }
    {
        match self.as_slice() {
            [x, y] => Some((x, y)),
            _ => None,
        }
    }

    /// The three elements, where there are just three.
    pub fn three(&self) -> Option<(&T, &T, &T)>
        ensures { MatchOption result (IsNotThree self.now) (λ p. self.now ≡ p.0.now ∷ p.1.now ∷ p.2.now ∷ []) }
    {
        match self.as_slice() {
            [x, y, z] => Some((x, y, z)),
            _ => None,
        }
    }

    /// The first element and those behind it. None where there is none.
    pub fn split_first(&self) -> Option<(&T, &[T])>
        ensures { MatchOption result (self.now ≡ []) (λ p. self.now ≡ p.0.now ∷ p.1.now) }
    {
        match self.as_slice() {
            [x, rest @ ..] => Some((x, rest)),
            [] => None,
        }
    }

    /// The first element. None where there is none.
    pub fn first(&self) -> Option<&T>
        ensures { MatchOption result (self.now ≡ []) (λ x. self.now ≡ x.now ∷ drop 1 self.now) }
    {
        match self.as_slice() {
            [x, ..] => Some(x),
            [] => None,
        }
    }

    /// Whether it has no element.
    pub fn is_empty(&self) -> bool
        ensures { MatchBool result (self.now ≡ []) (IsNotEmpty self.now) }
    {
        self.as_slice().is_empty()
    }

    /// The element at a place that is within.
    pub fn at(&self, index: usize) -> &T
        requires { index < length self.now }
        ensures { slice_get self.now index ≡ Some result.now }
    {
        &self.as_slice()[index]
    }

    /// Its elements in order.
    pub fn iter(&self) -> slice::Iter<'_, T>
        ensures { result.rest.now ≡ self.now }
    {
        self.as_slice().iter()
    }
}

fn push_to<T: Share + Drop>(alloc: Global, items: &mut Rc<Vec<T>>, item: T) -> Result<(), Memory>
    ensures pushed { IfOk result (λ _. items.new.value.items ≡ items.old.value.items ++ item ∷ []) }
    ensures unchanged { OnErr result (items.new.value.items ≡ items.old.value.items) }
{
    if let Some(own) = Rc::get_mut(items) {
        own.push(item)?;
        return Ok(());
    }
    let mut own = copies(alloc, items.as_slice())?;
    own.push(item)?;
    *items = Rc::new(alloc, own)?;
    Ok(())
}

// A copy of the first level of each.
fn copies<T: Share + Drop>(alloc: Global, items: &[T]) -> Result<Vec<T>, Memory>
    ensures { IfOk result (λ copies. copies.items ≡ items.now) }
{
    let mut copies = Vec::new(alloc);
    for item in items {
        copies.push(item.share(alloc)?)?;
    }
    Ok(copies)
}
