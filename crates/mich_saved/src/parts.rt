// The parts of a state, each with its place.
ghost use Rattle.std.specs.Prelude.{◌<◌, ◌^◌, map, IfOk, IfSome};
ghost use Rattle.std.specs.List.{AllByRecursion};
ghost use Rattle.rules_text.specs.binary.Reading.{Spot};
ghost use Rattle.rules_text.specs.nodes.Tree.{size};
ghost use Rattle.rules_files.specs.snapshots.Reading.{account_at, counted_at, holding_at, identity_at, key_hash_of, parts_at, price_at, storage_kind, total_at};
ghost use Rattle.mich_base.specs.View.{tree};
ghost use Rattle.mich_gas.specs.View.{seen_price};
ghost use Rattle.mich_term.specs.TicketView.{identity};
ghost use Rattle.mich_saved.specs.Formed.{IsAlone};
ghost use Rattle.mich_saved.specs.Parts.{kept_contract_at, kept_storage_by, placed};
ghost use Rattle.mich_saved.specs.Pushes.{kept_seen};
ghost use Rattle.mich_saved.specs.Results.{Gives, spot};
ghost use Rattle.mich_saved.specs.Shown.{IsAloneContract, account, contract, holding, total};

use crate::cursor::Cursor;
use crate::datums::datum_at;
use crate::errors::LoadError;
use crate::fields::{array_at, eight_at, four_at, node_at, signed_sixteen_at, taken};
use crate::storage::storage_type;
use crate::types::kind_at;
use crate::values::value_at;
use mich_base::{Node, Rows};
use mich_forms::{KeyHash, Place};
use mich_gas::Price;
use mich_term::{TicketId, Value};
use std::alloc::Global;

/// An account as it was read.
#[derive(Debug, Drop)]
pub struct ReadAccount {
    /// The place of its first byte.
    pub place: u64,
    pub who: KeyHash,
    /// In mutez.
    pub balance: u64,
    /// How much it holds of each ticket.
    pub holdings: Rows<(TicketId, i128)>,
}

/// A contract as it was read.
#[derive(Debug, Drop)]
pub struct ReadContract {
    /// The place of its first byte.
    pub place: u64,
    /// The bytes of its address behind the tag.
    pub hash: [u8; 20],
    /// In mutez.
    pub balance: u64,
    /// For how many bytes of storage it has paid.
    pub paid: u64,
    pub script: Node,
    /// None where a set or a map in it is out of order, so that it isn't one of its type.
    pub storage: Option<Value>,
}

/// The totals of a ticket as they were read.
#[derive(Debug, Drop)]
pub struct ReadTotal {
    /// The place of its first byte.
    pub place: u64,
    pub id: TicketId,
    /// How much of it was ever minted.
    pub minted: i128,
    /// How much of it was ever burnt.
    pub burnt: i128,
}

#[tactic(auto, unfolding(rules_files::specs::snapshots::Reading::price_at))]
fn price_at(cursor: Cursor<'_>) -> Result<(Price, Cursor<'_>), LoadError>
    ensures { Gives (λ x. (seen_price x.0, spot x.1)) result (price_at (spot cursor.entry)) }
{
    let (base, after) = four_at(cursor)?;
    let (coefficient, after) = four_at(after)?;
    Ok((Price { base, coefficient }, after))
}

/// So many prices.
#[tactic(auto, using(crate::proofs::Lines::lines))]
pub fn prices_at<'a>(
    alloc: Global,
    count: u64,
    cursor: Cursor<'a>,
) -> Result<(Rows<Price>, Cursor<'a>), LoadError>
    ensures { Gives (λ x. (map seen_price x.0, spot x.1)) result (parts_at price_at count (spot cursor.entry)) }
{
    let mut prices = Rows::new(alloc);
    let mut here = cursor;
    for _ in 0..count {
        let (price, after) = price_at(here)?;
        prices.push(price)?;
        here = after;
    }
    Ok((prices, here))
}

#[tactic(auto, unfolding(rules_files::specs::snapshots::Reading::identity_at))]
fn identity_at<'a>(alloc: Global, cursor: Cursor<'a>) -> Result<(TicketId, Cursor<'a>), LoadError>
    ensures { Gives (λ x. (identity x.0, spot x.1)) result (identity_at (spot cursor.entry)) }
{
    let (hash, after) = array_at(cursor)?;
    let (ty, after) = kind_at(alloc, after)?;
    let (content, after) = datum_at(alloc, &ty, after)?;
    let id = TicketId {
        issuer: Place::Contract(hash),
        ty,
        content,
    };
    Ok((id, after))
}

#[tactic(auto, unfolding(rules_files::specs::snapshots::Reading::holding_at))]
fn holding_at<'a>(
    alloc: Global,
    cursor: Cursor<'a>,
) -> Result<((TicketId, i128), Cursor<'a>), LoadError>
    ensures { Gives (λ x. (holding x.0, spot x.1)) result (holding_at (spot cursor.entry)) }
{
    let (id, after) = identity_at(alloc, cursor)?;
    let (amount, after) = signed_sixteen_at(after)?;
    Ok(((id, amount), after))
}

// So many holdings.
#[tactic(auto, using(crate::proofs::Lines::lines))]
fn holdings_at<'a>(
    alloc: Global,
    count: u64,
    cursor: Cursor<'a>,
) -> Result<(Rows<(TicketId, i128)>, Cursor<'a>), LoadError>
    ensures { Gives (λ x. (map holding x.0, spot x.1)) result (parts_at holding_at count (spot cursor.entry)) }
{
    let mut holdings = Rows::new(alloc);
    let mut here = cursor;
    for _ in 0..count {
        let (holding, after) = holding_at(alloc, here)?;
        holdings.push(holding)?;
        here = after;
    }
    Ok((holdings, here))
}

// The key hash that 21 bytes at a place spell.
fn key_hash_of(bytes: &[u8], place: u64) -> Result<KeyHash, LoadError>
    ensures { (after : Spot) → Gives (λ who. (who, after)) result (key_hash_of place (bytes.now, after)) }
{
    let Some(who) = KeyHash::read(bytes) else {
        return Err(LoadError::BadForm(place));
    };
    Ok(who)
}

#[tactic(auto, unfolding(rules_files::specs::snapshots::Reading::account_at))]
fn account_at<'a>(alloc: Global, cursor: Cursor<'a>) -> Result<(ReadAccount, Cursor<'a>), LoadError>
    ensures { Gives (λ x. (account x.0, spot x.1)) result (placed account_at (spot cursor.entry)) }
{
    let (bytes, after) = taken(21, cursor)?;
    let who = key_hash_of(bytes, cursor.place)?;
    let (balance, after) = eight_at(after)?;
    let (count, after) = eight_at(after)?;
    let (holdings, after) = holdings_at(alloc, count, after)?;
    let account = ReadAccount {
        place: cursor.place,
        who,
        balance,
        holdings,
    };
    Ok((account, after))
}

// So many accounts.
#[tactic(auto, using(crate::proofs::Lines::lines))]
fn some_accounts<'a>(
    alloc: Global,
    count: u64,
    cursor: Cursor<'a>,
) -> Result<(Rows<ReadAccount>, Cursor<'a>), LoadError>
    ensures { Gives (λ x. (map account x.0, spot x.1)) result (parts_at (placed account_at) count (spot cursor.entry)) }
{
    let mut accounts = Rows::new(alloc);
    let mut here = cursor;
    for _ in 0..count {
        let (account, after) = account_at(alloc, here)?;
        accounts.push(account)?;
        here = after;
    }
    Ok((accounts, here))
}

/// A count of accounts, and these.
pub fn accounts_at<'a>(
    alloc: Global,
    cursor: Cursor<'a>,
) -> Result<(Rows<ReadAccount>, Cursor<'a>), LoadError>
    ensures { Gives (λ x. (map account x.0, spot x.1)) result (counted_at (placed account_at) (spot cursor.entry)) }
{
    let (count, after) = eight_at(cursor)?;
    some_accounts(alloc, count, after)
}

// A storage of the type that a script tells. Of a script that tells none the place is the fault's.
fn storage_at<'a>(
    alloc: Global,
    script: &Node,
    place: u64,
    cursor: Cursor<'a>,
) -> Result<(Option<Value>, Cursor<'a>), LoadError>
    requires { size (tree script.now) < 2 ^ 32 }
    ensures kept { Gives kept_seen result (kept_storage_by (storage_kind (tree script.now)) place (spot cursor.entry)) }
    ensures alone { IfOk result (λ x. IfSome x.0 IsAlone) }
{
    let Some(ty) = storage_type(alloc, script)? else {
        return Err(LoadError::BadForm(place));
    };
    value_at(alloc, &ty, cursor)
}

#[tactic(auto, unfolding(crate::specs::Parts::kept_contract_at))]
fn contract_at<'a>(
    alloc: Global,
    cursor: Cursor<'a>,
) -> Result<(ReadContract, Cursor<'a>), LoadError>
    ensures kept { Gives (λ x. (contract x.0, spot x.1)) result (placed kept_contract_at (spot cursor.entry)) }
    ensures alone { IfOk result (λ x. IsAloneContract x.0) }
{
    let (hash, after) = array_at(cursor)?;
    let (balance, after) = eight_at(after)?;
    let (paid, after) = eight_at(after)?;
    let (script, behind) = node_at(alloc, after)?;
    let (storage, behind) = storage_at(alloc, &script, after.place, behind)?;
    let contract = ReadContract {
        place: cursor.place,
        hash,
        balance,
        paid,
        script,
        storage,
    };
    Ok((contract, behind))
}

// So many contracts.
#[tactic(auto, using(crate::proofs::Lines::lines, crate::proofs::Wholes::no_contracts_alone, crate::proofs::Wholes::contracts_alone))]
fn some_contracts<'a>(
    alloc: Global,
    count: u64,
    cursor: Cursor<'a>,
) -> Result<(Rows<ReadContract>, Cursor<'a>), LoadError>
    ensures kept { Gives (λ x. (map contract x.0, spot x.1)) result (parts_at (placed kept_contract_at) count (spot cursor.entry)) }
    ensures alone { IfOk result (λ x. AllByRecursion IsAloneContract x.0) }
{
    let mut contracts = Rows::new(alloc);
    let mut here = cursor;
    for _ in 0..count {
        let (contract, after) = contract_at(alloc, here)?;
        contracts.push(contract)?;
        here = after;
    }
    Ok((contracts, here))
}

/// A count of contracts, and these.
pub fn contracts_at<'a>(
    alloc: Global,
    cursor: Cursor<'a>,
) -> Result<(Rows<ReadContract>, Cursor<'a>), LoadError>
    ensures kept { Gives (λ x. (map contract x.0, spot x.1)) result (counted_at (placed kept_contract_at) (spot cursor.entry)) }
    ensures alone { IfOk result (λ x. AllByRecursion IsAloneContract x.0) }
{
    let (count, after) = eight_at(cursor)?;
    some_contracts(alloc, count, after)
}

#[tactic(auto, unfolding(rules_files::specs::snapshots::Reading::total_at))]
fn total_at<'a>(alloc: Global, cursor: Cursor<'a>) -> Result<(ReadTotal, Cursor<'a>), LoadError>
    ensures { Gives (λ x. (total x.0, spot x.1)) result (placed total_at (spot cursor.entry)) }
{
    let (id, after) = identity_at(alloc, cursor)?;
    let (minted, after) = signed_sixteen_at(after)?;
    let (burnt, after) = signed_sixteen_at(after)?;
    let total = ReadTotal {
        place: cursor.place,
        id,
        minted,
        burnt,
    };
    Ok((total, after))
}

// So many totals.
#[tactic(auto, using(crate::proofs::Lines::lines))]
fn some_totals<'a>(
    alloc: Global,
    count: u64,
    cursor: Cursor<'a>,
) -> Result<(Rows<ReadTotal>, Cursor<'a>), LoadError>
    ensures { Gives (λ x. (map total x.0, spot x.1)) result (parts_at (placed total_at) count (spot cursor.entry)) }
{
    let mut totals = Rows::new(alloc);
    let mut here = cursor;
    for _ in 0..count {
        let (total, after) = total_at(alloc, here)?;
        totals.push(total)?;
        here = after;
    }
    Ok((totals, here))
}

/// A count of tickets, and these with their totals.
pub fn totals_at<'a>(
    alloc: Global,
    cursor: Cursor<'a>,
) -> Result<(Rows<ReadTotal>, Cursor<'a>), LoadError>
    ensures { Gives (λ x. (map total x.0, spot x.1)) result (counted_at (placed total_at) (spot cursor.entry)) }
{
    let (count, after) = eight_at(cursor)?;
    some_totals(alloc, count, after)
}
