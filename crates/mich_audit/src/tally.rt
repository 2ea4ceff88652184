// What the lines so far tell.
ghost use Rattle.std.specs.Prelude.{◌≡◌, ◌+◌, ◌<◌, ◌≤◌, ◌^◌, ◌==◌, ◌&&◌, ◌||◌, nat_le, pos, true, false, ◌∷◌, [], List};
ghost use Rattle.rules_audit.specs.Same.{same_number};
ghost use Rattle.rules_audit.specs.Form.{ended};
ghost use Rattle.rules_audit.specs.Lines as lines;
ghost use Rattle.rules_audit.specs.Lines.{account, contract, fees, group, storage_burn, supply, tickets};
ghost use Rattle.rules_audit.specs.Audits.{verdict_on};
ghost use Rattle.mich_audit.specs.Answers.{TakesLine};
ghost use Rattle.mich_audit.specs.Tallies.{IsCounted, IsPassed, IsTaken, IsTally, fits, unless_before};
ghost use Rattle.mich_audit.specs.View.{identity_seen, line_seen, parts_seen, verdict_seen};

use crate::book::{Book, add_parts, all_lined, take_line};
use crate::line::Line;
use crate::part::{Identity, Parts};
use crate::sums::{Sum, equals, plus};
use crate::verdict::Verdict;
use mich_base::Memory;
use std::alloc::Global;
use std::collections::BTreeMap;

/// What the lines so far tell: no line is kept.
#[derive(Debug, Drop)]
pub(crate) struct Tally {
    // How many lines there are.
    pub(crate) count: u64,
    // The place of the last line's kind in the order of kinds, or 0 before all lines.
    rank: u8,
    // Whether contracts have a fourth argument, where there is one.
    fourth: Option<bool>,
    mutez: Sum,
    supply: u128,
    // How many lines of tickets there are, and the number of the first that doesn't agree.
    tickets: u64,
    wrong: Option<u64>,
    book: Book,
}

impl Tally {
    /// Of no lines; takes no memory.
    pub(crate) fn new(alloc: Global) -> Tally
        ensures { IsTally [] result }
    {
        Tally {
            count: 0,
            rank: 0,
            fourth: None,
            mutez: Some(0),
            supply: 0,
            tickets: 0,
            wrong: None,
            book: BTreeMap::new(alloc),
        }
    }

    // Goes on to a line of a kind, of which so much counts towards the supply.
    fn pass(&mut self, rank: u8, mutez: u128)
        requires { self.old.count + 1 < 2 ^ 64 }
        ensures passed { IsPassed self.old rank mutez self.new }
        ensures fourth { self.new.fourth ≡ self.old.fourth }
        ensures supply { self.new.supply ≡ self.old.supply }
        ensures tickets { (self.new.tickets ≡ self.old.tickets) × (self.new.wrong ≡ self.old.wrong) × (self.new.book ≡ self.old.book) }
    {
        self.count += 1;
        self.rank = rank;
        self.mutez = plus(self.mutez, mutez);
    }

    // Whether the last line is of this kind in the order of kinds, or of an earlier one.
    fn is_within(&self, rank: u8) -> bool
        ensures { result ≡ nat_le self.now.rank rank }
    {
        self.rank <= rank
    }

    // Whether contracts that have a fourth argument, or that have none, can stand among these lines.
    fn fits(&self, fourth: bool) -> bool
        ensures { result ≡ fits fourth self.now.fourth }
    {
        match self.fourth {
            Some(known) => known == fourth,
            None => true,
        }
    }

    // Whether a group of this number can follow.
    fn comes_next(&self, number: i128) -> bool
        requires { self.now.count + 1 < 2 ^ 64 }
        ensures { result ≡ same_number number (pos (self.now.count + 1)) }
    {
        number == i128::from(self.count + 1)
    }

    fn follows_group(&self, number: i128) -> bool
        requires { self.now.count + 1 < 2 ^ 64 }
        ensures { result ≡ (nat_le self.now.rank 1 && same_number number (pos (self.now.count + 1))) }
    {
        self.is_within(1) && self.comes_next(number)
    }

    fn follows_contract(&self, fourth: bool) -> bool
        ensures { result ≡ (nat_le self.now.rank 3 && fits fourth self.now.fourth) }
    {
        self.is_within(3) && self.fits(fourth)
    }

    fn follows_storage_burn(&self) -> bool
        ensures { result ≡ ((self.now.rank == 5) && fits true self.now.fourth) }
    {
        self.rank == 5 && self.fits(true)
    }

    fn follows_supply(&self) -> bool
        ensures { result ≡ (((self.now.rank == 5) && fits false self.now.fourth) || (self.now.rank == 6)) }
    {
        (self.rank == 5 && self.fits(false)) || self.rank == 6
    }

    // Takes the line of a group, where its number comes next.
    fn take_group(&mut self, alloc: Global, number: i128, parts: &Parts<'_>) -> Result<bool, Memory>
        requires { self.old.count + 1 < 2 ^ 64 }
        ensures { TakesLine (group number (parts_seen parts.now)) self.old self.new result }
    {
        if !self.follows_group(number) {
            return Ok(false);
        }
        self.pass(1, 0);
        add_parts(alloc, &mut self.book, parts.as_slice())?;
        Ok(true)
    }

    fn take_account(
        &mut self,
        alloc: Global,
        balance: u128,
        parts: &Parts<'_>,
    ) -> Result<bool, Memory>
        requires { self.old.count + 1 < 2 ^ 64 }
        ensures { TakesLine (account balance (parts_seen parts.now)) self.old self.new result }
    {
        if !self.is_within(2) {
            return Ok(false);
        }
        self.pass(2, balance);
        add_parts(alloc, &mut self.book, parts.as_slice())?;
        Ok(true)
    }

    fn take_contract(
        &mut self,
        alloc: Global,
        balance: u128,
        parts: &Parts<'_>,
        fourth: bool,
    ) -> Result<bool, Memory>
        requires { self.old.count + 1 < 2 ^ 64 }
        ensures { TakesLine (contract balance (parts_seen parts.now) fourth) self.old self.new result }
    {
        if !self.follows_contract(fourth) {
            return Ok(false);
        }
        self.pass(3, balance);
        self.fourth = Some(fourth);
        add_parts(alloc, &mut self.book, parts.as_slice())?;
        Ok(true)
    }

    // Counts a line of a ticket, and keeps the number of the first that doesn't agree.
    fn count_ticket(&mut self, agrees: bool)
        requires { self.old.tickets + 1 < 2 ^ 64 }
        ensures counted { self.new.tickets ≡ self.old.tickets + 1 }
        ensures wrong { self.new.wrong ≡ unless_before self.old.wrong agrees (self.old.tickets + 1) }
        ensures others { IsCounted self.old self.new }
    {
        self.tickets += 1;
        if self.wrong.is_none() && !agrees {
            self.wrong = Some(self.tickets);
        }
    }

    // Takes the line of a ticket, where it has none yet. All parts stand before it.
    fn take_tickets(
        &mut self,
        alloc: Global,
        id: &Identity<'_>,
        minted: u128,
        burnt: u128,
        held: u128,
    ) -> Result<bool, Memory>
        requires count { self.old.count + 1 < 2 ^ 64 }
        requires tickets { self.old.tickets ≤ self.old.count }
        ensures { TakesLine (tickets (identity_seen id.now) minted burnt held) self.old self.new result }
    {
        if !self.is_within(4) {
            return Ok(false);
        }
        let Some(sums) = take_line(alloc, &mut self.book, id)? else {
            return Ok(false);
        };
        self.pass(4, 0);
        self.count_ticket(sums.agrees(minted, burnt, held));
        Ok(true)
    }

    fn take_fees(&mut self, amount: u128) -> bool
        requires { self.old.count + 1 < 2 ^ 64 }
        ensures { (before : List lines.Line) → IsTally before self.old → IsTaken before (fees amount) self.new result }
    {
        if !self.is_within(4) {
            return false;
        }
        self.pass(5, amount);
        true
    }

    fn take_storage_burn(&mut self, amount: u128) -> bool
        requires { self.old.count + 1 < 2 ^ 64 }
        ensures { (before : List lines.Line) → IsTally before self.old → IsTaken before (storage_burn amount) self.new result }
    {
        if !self.follows_storage_burn() {
            return false;
        }
        self.pass(6, amount);
        true
    }

    fn take_supply(&mut self, amount: u128) -> bool
        requires { self.old.count + 1 < 2 ^ 64 }
        ensures { (before : List lines.Line) → IsTally before self.old → IsTaken before (supply amount) self.new result }
    {
        if !self.follows_supply() {
            return false;
        }
        self.pass(7, 0);
        self.supply = amount;
        true
    }

    /// Takes a line, where it can follow those before it. Memory where there is no room for what it tells.
    pub(crate) fn take(&mut self, alloc: Global, line: &Line<'_>) -> Result<bool, Memory>
        requires count { self.old.count + 1 < 2 ^ 64 }
        requires tickets { self.old.tickets ≤ self.old.count }
        ensures { TakesLine (line_seen line.now) self.old self.new result }
    {
        match line {
            Line::Group(number, parts) => self.take_group(alloc, *number, parts),
            Line::Account(balance, parts) => self.take_account(alloc, *balance, parts),
            Line::Contract {
                balance,
                parts,
                fourth,
            } => self.take_contract(alloc, *balance, parts, *fourth),
            Line::Tickets {
                identity,
                minted,
                burnt,
                held,
            } => self.take_tickets(alloc, identity, *minted, *burnt, *held),
            Line::Fees(amount) => Ok(self.take_fees(*amount)),
            Line::StorageBurn(amount) => Ok(self.take_storage_burn(*amount)),
            Line::Supply(amount) => Ok(self.take_supply(*amount)),
        }
    }

    /// The verdict on the lines, where they are all.
    pub(crate) fn verdict(&self) -> Verdict
        requires { self.now.count + 1 < 2 ^ 64 }
        ensures { (before : List lines.Line) → IsTally before self.now → verdict_seen result ≡ verdict_on (ended before) }
    {
        if self.rank != 7 {
            return Verdict::BadForm(self.count + 1);
        }
        if !equals(self.mutez, self.supply) {
            return Verdict::Supply;
        }
        if let Some(number) = self.wrong {
            return Verdict::Tickets(number);
        }
        if all_lined(&self.book) {
            Verdict::Agrees
        } else {
            Verdict::Missing
        }
    }
}
