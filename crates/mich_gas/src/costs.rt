// Tables of prices.
ghost use Rattle.std.specs.Prelude.{◌≡◌, ◌^◌, ◌<◌, pos, ◌≤ℤ◌, option_map, is_some, true, false, IsTrue, MatchOption, IfOk, length, map, slice_get};
ghost use Rattle.rules_text.specs.nodes.Limits.{most_price};
ghost use Rattle.rules_text.specs.nodes.Tree.{size};
ghost use Rattle.rules_data.specs.gas.Kinds.{kinds_by_name, place};
ghost use Rattle.rules_data.specs.declared.gas.Kind.{Kind};
ghost use Rattle.rules_data.specs.gas.Prices.{nothing_listed, with_price, price_of, standard_price};
ghost use Rattle.rules_data.specs.gas.Tables.{are_fields, is_row, is_table, is_between, price_from, listing, listing_of, table_of};
ghost use Rattle.mich_base.specs.View.{tree};
ghost use Rattle.mich_gas.specs.View.{seen_price, listed, seen_listing, reading};

use crate::names::{KINDS, kind_of_name};
use mich_base::{MOST_PRICE, Memory, Node, Rows};
use rules_data::gas::Kind;
use std::alloc::Global;
use thiserror::Error;

/// The nodes of a row: itself, its name and two numbers.
const ROW_NODES: u32 = 4;

/// A price, in units of gas: a base, and a coefficient for each unit of weight.
#[derive(Clone, Copy, Debug, PartialEq, Eq)]
pub struct Price {
    /// What is charged at any weight.
    pub base: u32,
    /// What is charged for each unit of weight.
    pub coefficient: u32,
}

/// The price of a kind that no table lists.
const STANDARD: Price = Price {
    base: 1,
    coefficient: 1,
};

/// A table of prices: what it lists for each kind. A kind that it doesn't list has the standard
/// price, whose base and coefficient are 1.
#[derive(Debug, Drop)]
pub struct Costs {
    listed: [Option<Price>; 98],
}

/// The location of the first row of a table that is unknown, repeated or out of range.
#[derive(Clone, Copy, Debug, PartialEq, Eq, Error)]
#[error("the row at location {location} is unknown, repeated or out of range")]
pub struct BadCosts {
    /// The place of the row in pre-order, where the sequence of rows has 0.
    pub location: u32,
}

// A kind and its price.
#[derive(Clone, Copy)]
struct Listing {
    kind: Kind,
    price: Price,
}

impl Costs {
    /// The table that lists nothing: each kind has the standard price.
    pub fn standard() -> Costs
        ensures { listed result ≡ nothing_listed }
    {
        Costs { listed: [None; 98] }
    }

    /// The price of a kind.
    #[inline(always)]
    pub fn price(&self, kind: Kind) -> Price
        ensures { seen_price result ≡ price_of (listed self.now) kind }
    {
        self.listed[place_of(kind)].unwrap_or(STANDARD)
    }

    /// The table that lists these prices, each for the kind at its place; what is behind the places of kinds is left out. It takes no memory.
    pub fn of_prices(prices: &[Price]) -> Costs
        requires { length prices.now ≡ 98 }
        ensures { (kind : Kind) → listed result kind ≡ slice_get (map seen_price prices.now) (place kind) }
    {
        let mut listed = [None; 98];
        for (place, price) in prices.iter().enumerate() {
            listed[place] = Some(*price);
        }
        Costs { listed }
    }

    // The prices of the kinds in rows of a table of names. Memory where there is no room for them.
    fn prices_in(&self, alloc: Global, table: &[(&str, Kind)]) -> Result<Rows<Price>, Memory>
        ensures { IfOk result (λ ps. map seen_price ps ≡ map (λ row. price_of (listed self.now) row.1) table.now) }
    {
        let mut prices = Rows::new(alloc);
        for (_, kind) in table {
            prices.push(self.price(*kind))?;
        }
        Ok(prices)
    }

    /// The prices of all kinds, in the order of their names. Memory where there is no room for them.
    pub fn prices(&self, alloc: Global) -> Result<Rows<Price>, Memory>
        ensures { IfOk result (λ ps. map seen_price ps ≡ map (λ e. price_of (listed self.now) e.1) kinds_by_name) }
    {
        self.prices_in(alloc, &KINDS)
    }

    fn is_listed(&self, kind: Kind) -> bool
        ensures { result ≡ is_some (listed self.now kind) }
    {
        self.listed[place_of(kind)].is_some()
    }

    fn list(&mut self, kind: Kind, price: Price)
        ensures { listed self.new ≡ with_price (listed self.old) kind (seen_price price) }
    {
        self.listed[place_of(kind)] = Some(price);
    }
}

// The place of a kind among all kinds.
#[inline(always)]
fn place_of(kind: Kind) -> usize
    ensures value { result ≡ place kind }
    ensures within { result < 98 }
{
    kind as usize
}

// The number, where it is from the least one to the most.
fn within(number: i128, least: i128) -> Option<u32>
    requires { pos 0 ≤ℤ least }
    ensures { MatchOption result (is_between least (pos most_price) number ≡ false) (λ n. (number ≡ pos n) × (is_between least (pos most_price) number ≡ true)) }
{
    if number < least || MOST_PRICE < number {
        return None;
    }
    Some(number as u32)
}

// The price of two numbers, where they are in range.
fn price_of_numbers(base: i128, coefficient: i128) -> Option<Price>
    ensures { option_map seen_price result ≡ price_from base coefficient }
{
    let base = within(base, 1)?;
    let coefficient = within(coefficient, 0)?;
    Some(Price { base, coefficient })
}

// A name and two numbers as a kind and its price.
fn read_fields(name: &Node, base: &Node, coefficient: &Node) -> Option<Listing>
    ensures { option_map seen_listing result ≡ listing_of (tree name.now) (tree base.now) (tree coefficient.now) }
{
    match (name, base, coefficient) {
        (Node::Prim(name), Node::Int(base), Node::Int(coefficient)) => {
            let kind = kind_of_name(&name.name)?;
            let price = price_of_numbers(*base, *coefficient)?;
            Some(Listing { kind, price })
        }
        _ => None,
    }
}

// What a row lists.
#[tactic(auto, using(crate::proofs::Listings::listing_of_three, crate::proofs::Listings::no_listing))]
fn read_row(row: &Node) -> Option<Listing>
    ensures { option_map seen_listing result ≡ listing (tree row.now) }
{
    let Node::Prim(app) = row else {
        return None;
    };
    let (name, base, coefficient) = app.args.three()?;
    read_fields(name, base, coefficient)
}

// Whether three nodes are a name, which stands alone, and two numbers.
fn are_fields(name: &Node, base: &Node, coefficient: &Node) -> bool
    ensures { result ≡ are_fields (tree name.now) (tree base.now) (tree coefficient.now) }
{
    match (name, base, coefficient) {
        (Node::Prim(name), Node::Int(_), Node::Int(_)) => {
            name.annots.is_empty() && name.args.is_empty()
        }
        _ => false,
    }
}

// Whether a node is a row of a table.
fn is_row(row: &Node) -> bool
    ensures { result ≡ is_row (tree row.now) }
{
    let Node::Prim(app) = row else {
        return false;
    };
    let Some((name, base, coefficient)) = app.args.three() else {
        return false;
    };
    app.name.as_slice() == b"Cost".as_slice()
        && app.annots.is_empty()
        && are_fields(name, base, coefficient)
}

/// Whether a node is a table of prices: a sequence of rows `Cost NAME base coefficient`, where NAME
/// has neither arguments nor annotations, nor has a row annotations.
pub fn is_table(node: &Node) -> bool
    ensures { result ≡ is_table (tree node.now) }
{
    let Node::Seq(rows) = node else {
        return false;
    };
    for row in rows.as_slice() {
        if !is_row(row) {
            return false;
        }
    }
    true
}

/// The table that a sequence of rows `Cost NAME base coefficient` spells.
///
/// `BadCosts` exactly at the first row whose name is unknown or was listed before, or whose base is
/// outside 1 to 1,000,000 or coefficient outside 0 to 1,000,000.
pub fn read_costs(node: &Node) -> Result<Costs, BadCosts>
    requires table { IsTrue (is_table (tree node.now)) }
    requires size { size (tree node.now) < 2 ^ 32 }
    ensures { reading result ≡ table_of (tree node.now) }
{
    let mut costs = Costs::standard();
    let Node::Seq(rows) = node else {
        return Err(BadCosts { location: 0 });
    };
    let mut location: u32 = 1;
    for row in rows.as_slice() {
        let Some(new) = read_row(row) else {
            return Err(BadCosts { location });
        };
        if costs.is_listed(new.kind) {
            return Err(BadCosts { location });
        }
        costs.list(new.kind, new.price);
        location += ROW_NODES;
    }
    Ok(costs)
}
