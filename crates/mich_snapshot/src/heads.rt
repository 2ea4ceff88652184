// The rules of the parts that stand before accounts.
ghost use Rattle.std.specs.Prelude.{◌≡◌, map, if◌then◌else◌};
ghost use Rattle.rules_text.specs.nodes.Limits.{most_rate};
ghost use Rattle.std.specs.List.{list_all, sum_by};
ghost use Rattle.rules_files.specs.snapshots.Spelt.{IsSpelt};
ghost use Rattle.rules_files.specs.snapshots.State.{State};
ghost use Rattle.rules_files.specs.snapshots.Rules.{is_price, is_standard};
ghost use Rattle.mich_gas.specs.View.{seen_price};
ghost use Rattle.mich_saved.specs.KeptStates.{IsKeptState};
ghost use Rattle.mich_saved.specs.Whole.{state};
ghost use Rattle.mich_term.specs.Weights.{capped};
ghost use Rattle.mich_snapshot.specs.Heads.{all_kept_mutez, are_kept_sums, front_parts, has_kept_begun, is_kept_head};
ghost use Rattle.mich_snapshot.specs.Tried.{Tries};

use mich_base::{MOST_LEVEL, MOST_MUTEZ, MOST_PRICE, MOST_RATE, Rows};
use mich_gas::Price;
use mich_saved::{LoadError, ReadAccount, ReadContract, ReadState};

// Where the costs and the sums stand.
const COSTS_PLACE: u64 = 43;

const SUMS_PLACE: u64 = 827;

// How many groups there may have been.
const MOST_GROUPS: u64 = (1 << 63) - 1;

fn is_standard(price: Price) -> bool
    ensures { result ≡ is_standard (seen_price price) }
{
    price.base == 1 && price.coefficient == 1
}

fn are_standard(prices: &Rows<Price>) -> bool
    ensures { result ≡ list_all is_standard (map seen_price prices.now) }
{
    for price in prices.as_slice() {
        if !is_standard(*price) {
            return false;
        }
    }
    true
}

// Whether there are groups, accounts or contracts.
fn has_begun(read: &ReadState) -> bool
    ensures { result ≡ has_kept_begun (state read.now) }
{
    read.head.groups > 0 || !read.accounts.is_empty() || !read.contracts.is_empty()
}

// The most that the rate may be.
fn most_rate(pays: bool) -> u64
    ensures { result ≡ (if pays then most_rate else 0) }
{
    if pays { MOST_RATE } else { 0 }
}

// Whether level, groups and rate are in their ranges, and the marks are set where something shows what they mark.
fn head_holds(read: &ReadState) -> bool
    ensures { result ≡ is_kept_head (state read.now) }
{
    let head = &read.head;
    u64::from(head.moment.level) <= MOST_LEVEL
        && head.groups <= MOST_GROUPS
        && head.rate <= most_rate(head.pays)
        && (head.started || !has_begun(read))
        && (head.costs_stood || are_standard(&read.prices))
}

fn price_holds(price: Price) -> bool
    ensures { result ≡ is_price (seen_price price) }
{
    1 <= price.base
        && i128::from(price.base) <= MOST_PRICE
        && i128::from(price.coefficient) <= MOST_PRICE
}

fn costs_hold(prices: &Rows<Price>) -> bool
    ensures { result ≡ list_all is_price (map seen_price prices.now) }
{
    for price in prices.as_slice() {
        if !price_holds(*price) {
            return false;
        }
    }
    true
}

// The balances of accounts, counted up to 2^64-1.
fn account_balances(accounts: &Rows<ReadAccount>) -> u64
    ensures { result ≡ capped (sum_by (λ a. a.balance) accounts.now) }
{
    let mut sum: u64 = 0;
    for account in accounts.as_slice() {
        sum = sum.saturating_add(account.balance);
    }
    sum
}

// The balances of contracts, counted up to 2^64-1.
fn contract_balances(contracts: &Rows<ReadContract>) -> u64
    ensures { result ≡ capped (sum_by (λ c. c.balance) contracts.now) }
{
    let mut sum: u64 = 0;
    for contract in contracts.as_slice() {
        sum = sum.saturating_add(contract.balance);
    }
    sum
}

// All mutez, counted up to 2^64-1.
fn all_mutez(read: &ReadState) -> u64
    ensures { result ≡ capped (all_kept_mutez (state read.now)) }
{
    account_balances(&read.accounts)
        .saturating_add(contract_balances(&read.contracts))
        .saturating_add(read.fees)
        .saturating_add(read.storage_burn)
}

fn sums_hold(read: &ReadState) -> bool
    ensures { result ≡ are_kept_sums (state read.now) }
{
    all_mutez(read) <= MOST_MUTEZ && (read.head.pays || read.storage_burn == 0)
}

/// Tries the rules of the head, of the costs and of the sums. Unsound at the first byte of the first of them whose rules fail (this host's own).
pub fn try_heads(read: &ReadState) -> Result<(), LoadError>
    ensures { (s : State) → IsSpelt s → IsKeptState s (state read.now) → Tries 0 (front_parts s) result }
{
    if !head_holds(read) {
        return Err(LoadError::Unsound(0));
    }
    if !costs_hold(&read.prices) {
        return Err(LoadError::Unsound(COSTS_PLACE));
    }
    if !sums_hold(read) {
        return Err(LoadError::Unsound(SUMS_PLACE));
    }
    Ok(())
}
