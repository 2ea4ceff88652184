// Sums of amounts, which stop where they no longer fit.
ghost use Rattle.std.specs.Prelude.{◌≡◌, ◌+◌, ◌==◌, ◌&&◌, ℕ, Bool, false};
ghost use Rattle.mich_audit.specs.Answers.{AreSumsWith};
ghost use Rattle.mich_audit.specs.Sums.{AreSums, fitting};
ghost use Rattle.mich_audit.specs.View.{sort_seen};

use crate::part::Sort;

/// A sum, or none where it has passed 2^128-1, which no printed number is.
pub(crate) type Sum = Option<u128>;

/// A sum with one more amount.
pub(crate) fn plus(sum: Sum, amount: u128) -> Sum
    ensures { (n : ℕ) → sum ≡ fitting n → result ≡ fitting (n + amount) }
{
    match sum {
        Some(n) => n.checked_add(amount),
        None => None,
    }
}

/// Whether a sum is so much.
pub(crate) fn equals(sum: Sum, amount: u128) -> bool
    ensures { (n : ℕ) → sum ≡ fitting n → result ≡ (amount == n) }
{
    match sum {
        Some(n) => amount == n,
        None => false,
    }
}

/// What is told of a ticket: how much was minted, was burnt and is held, and whether it has a line.
#[derive(Clone, Copy, Debug)]
pub(crate) struct Sums {
    pub(crate) minted: Sum,
    pub(crate) burnt: Sum,
    pub(crate) held: Sum,
    pub(crate) has_line: bool,
}

impl Sums {
    /// Nothing, and no line.
    pub(crate) fn none() -> Sums
        ensures { AreSums 0 0 0 false result }
    {
        Sums {
            minted: Some(0),
            burnt: Some(0),
            held: Some(0),
            has_line: false,
        }
    }

    /// The sums with one more amount.
    pub(crate) fn with(self, sort: Sort, amount: u128) -> Sums
        ensures { (m b h : ℕ) (lined : Bool) → AreSums m b h lined self → AreSumsWith (sort_seen sort) amount m b h lined result }
    {
        match sort {
            Sort::Minted => Sums {
                minted: plus(self.minted, amount),
                ..self
            },
            Sort::Burnt => Sums {
                burnt: plus(self.burnt, amount),
                ..self
            },
            Sort::Held => Sums {
                held: plus(self.held, amount),
                ..self
            },
        }
    }

    /// Whether these numbers are the sums, and what was minted is held or was burnt.
    pub(crate) fn agrees(&self, minted: u128, burnt: u128, held: u128) -> bool
        ensures { (m b h : ℕ) (lined : Bool) → AreSums m b h lined self.now → result ≡ ((minted == m) && ((burnt == b) && ((held == h) && (minted == held + burnt)))) }
    {
        equals(self.minted, minted)
            && equals(self.burnt, burnt)
            && equals(self.held, held)
            && equals(plus(Some(held), burnt), minted)
    }
}
