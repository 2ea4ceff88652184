// Lists with the head at hand, which contracts see as lists.
ghost use Rattle.std.specs.Prelude.{◌≡◌, [], ◌∷◌, ◌++◌, length, reverse, IfOk, OnErr, MatchOption, MatchBool};
ghost use Rattle.mich_base.specs.Counted.{IsNotEmpty};

use mich_base::{Memory, Rows};
use std::alloc::Global;
use std::marker::Model;

/// A list whose head is put before it and taken from it without moving the others: it keeps its elements from its end to its
/// head. A type may hold itself through it. Contracts see the list of its elements, the head first.
#[derive(Debug, Drop)]
pub struct Chain<T> {
    reversed: Vec<T>,
}

impl<T> Model for Chain<T> {
    ghost use Rattle.std.specs.Prelude.{List, reverse};

    ghost Value = { List T };

    ghost view = { λ a. reverse a.reversed.items };
}

impl<T> Chain<T> {
    /// The empty list; takes no memory.
    pub fn new(alloc: Global) -> Chain<T>
        ensures { result ≡ [] }
    {
        Chain {
            reversed: Vec::new(alloc),
        }
    }

    /// The list of these elements, the first of them its head, each moved once; takes no memory.
    pub fn from_rows(rows: Rows<T>) -> Chain<T>
        ensures { result ≡ rows }
    {
        let mut reversed = rows.into_vec();
        reversed.reverse();
        Chain { reversed }
    }

    /// Puts an element before the head. Memory where there is no room for it; the list is then unchanged.
    pub fn push(&mut self, item: T) -> Result<(), Memory>
    where
        T: Drop,
        ensures pushed { IfOk result (λ _. self.new ≡ item ∷ self.old) }
        ensures unchanged { OnErr result (self.new ≡ self.old) }
    {
        self.reversed.push(item)?;
        Ok(())
    }

    /// Takes the head. None where there is none.
    pub fn pop(&mut self) -> Option<T>
        ensures { MatchOption result ((self.old ≡ []) × (self.new ≡ [])) (λ x. self.old ≡ x ∷ self.new) }
    {
        self.reversed.pop()
    }

    /// How many elements it has.
    pub fn len(&self) -> usize
        ensures { result ≡ length self.now }
    {
        self.reversed.len()
    }

    /// Whether it has no element.
    pub fn is_empty(&self) -> bool
        ensures { MatchBool result (self.now ≡ []) (IsNotEmpty self.now) }
    {
        self.reversed.is_empty()
    }

    /// Its elements, the head last.
    pub fn as_reversed_slice(&self) -> &[T]
        ensures { result.now ≡ reverse self.now }
    {
        self.reversed.as_slice()
    }

    /// Its elements in order, each moved once; takes no memory.
    pub fn into_vec(self) -> Vec<T>
        ensures { result.items ≡ self }
    {
        let mut items = self.reversed;
        items.reverse();
        items
    }

    /// Its elements, the head last; takes no memory.
    pub fn into_reversed(self) -> Vec<T>
        ensures { result.items ≡ reverse self }
    {
        self.reversed
    }
}

/// The last element and those before it, with which a list that is given with its head last is gone through from its head on.
/// None where there is none.
pub fn split_head<T>(reversed: &[T]) -> Option<(&T, &[T])>
    ensures split { MatchOption result (reversed.now ≡ []) (λ p. reversed.now ≡ p.1.now ++ p.0.now ∷ []) }
    ensures head { MatchOption result (reverse reversed.now ≡ []) (λ p. reverse reversed.now ≡ p.0.now ∷ reverse p.1.now) }
{
    match reversed {
        [rest @ .., head] => Some((head, rest)),
        [] => None,
    }
}
