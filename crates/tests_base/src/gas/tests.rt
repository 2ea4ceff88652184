// Outside values.
use crate::support::node;
use mich_base::size_within;
use mich_gas::{BadCosts, Costs, Kind, Meter, OutOfGas, Price, is_table, read_costs};
use std::alloc::Global;
use std::test::Fail;

// The prices that a table spells.
fn read(alloc: Global, text: &str) -> Result<Result<Costs, BadCosts>, Fail> {
    let node = node(alloc, text)?;
    if !is_table(&node) {
        return Err(Fail::from("no table"));
    }
    if !size_within(&node, 1000) {
        return Err(Fail::from("too large"));
    }
    Ok(read_costs(&node))
}

// Whether a table has these prices.
fn has(alloc: Global, text: &str, rows: &[(Kind, u32, u32)]) -> Result<bool, Fail> {
    let costs = read(alloc, text)??;
    Ok(has_prices(&costs, rows))
}

fn has_prices(costs: &Costs, rows: &[(Kind, u32, u32)]) -> bool {
    for (kind, base, coefficient) in rows {
        let price = Price {
            base: *base,
            coefficient: *coefficient,
        };
        if costs.price(*kind) != price {
            return false;
        }
    }
    true
}

const TABLE: &str =
    "{ Cost CAR 10 0 ; Cost SELF 1000000 1000000 ; Cost GET_AND_UPDATE 2 3 ; Cost Turn 4 5 ; Cost LAMBDA_REC 6 7 }";

// What is not listed has a price of one unit.
static PRICES: [(Kind, u32, u32); 8] = [
    (Kind::Car, 10, 0),
    (Kind::SelfContract, 1_000_000, 1_000_000),
    (Kind::GetAndUpdate, 2, 3),
    (Kind::Turn, 4, 5),
    (Kind::LambdaRec, 6, 7),
    (Kind::Get, 1, 1),
    (Kind::Lambda, 1, 1),
    (Kind::Xor, 1, 1),
];

#[test]
fn listed_prices(rt: HostRuntime) -> Result<(), Fail> {
    assert!(rt; has(rt.alloc(), TABLE, &PRICES)?);
    Ok(())
}

// Rows that are none, or stand for a second time.
static BAD_ROWS: [&'static str; 7] = [
    "Cost ADD 0 0",
    "Cost ADD 1000001 0",
    "Cost ADD 1 -1",
    "Cost ADD 1 1000001",
    "Cost CAR 1 1",
    "Cost SET_DELEGATE 1 1",
    "Cost nat 1 1",
];

// Whether a row behind two others is bad.
fn is_bad(alloc: Global, row: &str) -> Result<bool, Fail> {
    let text = format!(in alloc; "{{ Cost CAR 1 1 ; Cost SUB 1 1 ; {row} }}")?;
    Ok(matches!(read(alloc, text.as_str())?, Err(BadCosts { location: 9 })))
}

// Fails with the first row that is not bad.
fn are_bad(alloc: Global, rows: &[&'static str]) -> Result<(), Fail> {
    for row in rows {
        if !is_bad(alloc, row)? {
            return Err(Fail::new(*row));
        }
    }
    Ok(())
}

#[test]
fn bad_rows(rt: HostRuntime) -> Result<(), Fail> {
    are_bad(rt.alloc(), &BAD_ROWS)
}

// What is left of so much gas after PACK with this weight, at a price of 3 and 2 for each unit.
fn packed(alloc: Global, gas: u64, weight: u64) -> Result<Result<u64, OutOfGas>, Fail> {
    let costs = read(alloc, "{ Cost PACK 3 2 }")??;
    Ok(charged(&costs, gas, weight))
}

fn charged(costs: &Costs, gas: u64, weight: u64) -> Result<u64, OutOfGas> {
    let mut meter = Meter::new(gas);
    meter.charge(costs, Kind::Pack, weight)?;
    Ok(meter.left())
}

#[test]
fn charges(rt: HostRuntime) -> Result<(), Fail> {
    assert!(rt; matches!(packed(rt.alloc(), 10, 2)?, Ok(3)));
    Ok(())
}

#[test]
fn charges_that_are_too_high(rt: HostRuntime) -> Result<(), Fail> {
    let charged = packed(rt.alloc(), 3, 1)?;
    assert!(rt; matches!(charged, Err(OutOfGas { cost: 5, left: 3 })));
    Ok(())
}

#[test]
fn the_highest_charge(rt: HostRuntime) -> Result<(), Fail> {
    let charged = packed(rt.alloc(), 0, u64::MAX)?;
    assert!(rt;
        matches!(
            charged,
            Err(OutOfGas {
                cost: 36_893_488_147_419_103_233,
                left: 0,
            },)
        )
    );
    Ok(())
}
