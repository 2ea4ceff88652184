// The whole of a snapshot's bytes.
ghost use Rattle.std.specs.Prelude.{◌≡◌, length, IfOk, Ok};
ghost use Rattle.std.specs.List.{AllByRecursion};
ghost use Rattle.rules_text.specs.binary.Reading.{Spot};
ghost use Rattle.rules_data.specs.gas.Kinds.{kinds_by_name};
ghost use Rattle.rules_files.specs.snapshots.Reading.{magic_of, profile_of, read};
ghost use Rattle.rules_files.specs.snapshots.State.{State};
ghost use Rattle.mich_saved.specs.KeptStates.{ArePlaced, IsReadAs};
ghost use Rattle.mich_saved.specs.Parts.{head_at, kept_read, kept_state_at, moment_at};
ghost use Rattle.mich_saved.specs.Results.{Gives, spot};
ghost use Rattle.mich_saved.specs.Shown.{IsAloneContract};
ghost use Rattle.mich_saved.specs.Whole.{head, moment, state};

use crate::cursor::Cursor;
use crate::errors::LoadError;
use crate::fields::{array_at, eight_at, four_at, mark_at, signed_eight_at, taken};
use crate::parts::{
    ReadAccount, ReadContract, ReadTotal, accounts_at, contracts_at, prices_at, totals_at,
};
use mich_base::Rows;
use mich_gas::Price;
use std::alloc::Global;

/// When and where a state was saved.
#[derive(Clone, Copy, Debug)]
pub struct Moment {
    /// The chain's four bytes.
    pub chain: [u8; 4],
    pub level: u32,
    /// In seconds since 1970.
    pub now: i64,
}

/// The head of a snapshot.
#[derive(Clone, Copy, Debug)]
pub struct Head {
    pub moment: Moment,
    /// Whether storage is paid for.
    pub pays: bool,
    /// What a byte of storage costs, in mutez.
    pub rate: u64,
    /// How many groups were run.
    pub groups: u64,
    /// Whether a `Costs` stood.
    pub costs_stood: bool,
    /// Whether an `Account`, `Block` or `Group` stood.
    pub started: bool,
}

/// A state as it was read.
#[derive(Debug, Drop)]
pub struct ReadState {
    pub head: Head,
    /// The price of each kind of costs, by the kinds' names in order.
    pub prices: Rows<Price>,
    /// In mutez.
    pub fees: u64,
    /// What was burnt for storage, in mutez.
    pub storage_burn: u64,
    pub accounts: Rows<ReadAccount>,
    pub contracts: Rows<ReadContract>,
    pub tickets: Rows<ReadTotal>,
}

// Whether bytes at a place are those that all snapshots begin with.
#[tactic(auto, unfolding(rules_files::specs::snapshots::Spelling::magic))]
fn magic_of(bytes: &[u8], place: u64) -> Result<(), LoadError>
    ensures { (after : Spot) → Gives (λ _. after) result (magic_of place (bytes.now, after)) }
{
    if bytes == b"MICHSNP1".as_slice() {
        Ok(())
    } else {
        Err(LoadError::BadForm(place))
    }
}

// A byte that is 1, or 2 where storage is paid for.
fn profile_at(cursor: Cursor<'_>) -> Result<(bool, Cursor<'_>), LoadError>
    ensures { let s = spot cursor.entry in Gives (λ x. (x.0, spot x.1)) result (profile_of s.place s.left) }
{
    match cursor.left {
        [1, left @ ..] => {
            let place = cursor.place + 1;
            Ok((false, Cursor { place, left }))
        }
        [2, left @ ..] => {
            let place = cursor.place + 1;
            Ok((true, Cursor { place, left }))
        }
        _ => Err(LoadError::BadForm(cursor.place)),
    }
}

#[tactic(auto, unfolding(crate::specs::Parts::moment_at))]
fn moment_at(cursor: Cursor<'_>) -> Result<(Moment, Cursor<'_>), LoadError>
    ensures { Gives (λ x. (moment x.0, spot x.1)) result (moment_at (spot cursor.entry)) }
{
    let (bytes, after) = taken(8, cursor)?;
    magic_of(bytes, cursor.place)?;
    let (chain, after) = array_at(after)?;
    let (level, after) = four_at(after)?;
    let (now, after) = signed_eight_at(after)?;
    Ok((Moment { chain, level, now }, after))
}

#[tactic(auto, unfolding(crate::specs::Parts::head_at))]
fn head_at(cursor: Cursor<'_>) -> Result<(Head, Cursor<'_>), LoadError>
    ensures { Gives (λ x. (head x.0, spot x.1)) result (head_at (spot cursor.entry)) }
{
    let (moment, after) = moment_at(cursor)?;
    let (pays, after) = profile_at(after)?;
    let (rate, after) = eight_at(after)?;
    let (groups, after) = eight_at(after)?;
    let (costs_stood, after) = mark_at(after)?;
    let (started, after) = mark_at(after)?;
    let head = Head {
        moment,
        pays,
        rate,
        groups,
        costs_stood,
        started,
    };
    Ok((head, after))
}

// How many kinds of costs have a price.
#[tactic(auto, unfolding(rules_data::specs::gas::Kinds::kinds_by_name))]
fn kinds() -> u64
    ensures { result ≡ length kinds_by_name }
{
    98
}

#[tactic(auto, unfolding(crate::specs::Parts::kept_state_at))]
fn state_at<'a>(alloc: Global, cursor: Cursor<'a>) -> Result<(ReadState, Cursor<'a>), LoadError>
    ensures kept { Gives (λ x. (state x.0, spot x.1)) result (kept_state_at (spot cursor.entry)) }
    ensures alone { IfOk result (λ x. AllByRecursion IsAloneContract x.0.contracts) }
{
    let (head, after) = head_at(cursor)?;
    let (prices, after) = prices_at(alloc, kinds(), after)?;
    let (fees, after) = eight_at(after)?;
    let (storage_burn, after) = eight_at(after)?;
    let (accounts, after) = accounts_at(alloc, after)?;
    let (contracts, after) = contracts_at(alloc, after)?;
    let (tickets, after) = totals_at(alloc, after)?;
    let state = ReadState {
        head,
        prices,
        fees,
        storage_burn,
        accounts,
        contracts,
        tickets,
    };
    Ok((state, after))
}

// How many bytes a snapshot may have.
const SNAPSHOT_LIMIT: usize = 1_073_741_823;

// What is kept of the state that bytes spell.
#[tactic(auto, unfolding(crate::specs::Parts::kept_read))]
fn kept_state(alloc: Global, bytes: &[u8]) -> Result<ReadState, LoadError>
    ensures kept { Gives state result (kept_read bytes.now) }
    ensures alone { IfOk result (λ s. AllByRecursion IsAloneContract s.contracts) }
{
    if bytes.len() > SNAPSHOT_LIMIT {
        return Err(LoadError::BadForm(SNAPSHOT_LIMIT as u64));
    }
    let start = Cursor {
        place: 0,
        left: bytes,
    };
    let (state, after) = state_at(alloc, start)?;
    if !after.left.is_empty() {
        return Err(LoadError::BadForm(after.place));
    }
    Ok(state)
}

/// The state that bytes spell, without the storage of a contract in which a set or a map is out of order. BadForm with the place of
/// the first field that can't be read, or of the first byte behind the last field; of more than 1,073,741,823 bytes with this number.
/// Memory where there is no room for the state.
pub fn read(alloc: Global, bytes: &[u8]) -> Result<ReadState, LoadError>
    ensures read { IsReadAs (read bytes.now) result }
    ensures kept { Gives state result (kept_read bytes.now) }
    ensures placed { (s : State) → read bytes.now ≡ Ok s → IfOk result (λ x. ArePlaced s (state x)) }
    ensures alone { IfOk result (λ x. AllByRecursion IsAloneContract x.contracts) }
{
    kept_state(alloc, bytes)
}
