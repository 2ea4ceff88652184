// What instructions on strings and bytes weigh.
ghost use Rattle.std.specs.Prelude.{◌≡◌, ◌+◌, ◌≤ℤ◌, pos, length, unsigned_abs};
ghost use Rattle.rules_code.specs.instructions.Straight as i;
ghost use Rattle.rules_code.specs.steps.Costs.{length_found, text_weight};
ghost use Rattle.rules_code.specs.steps.Sets.{element_count};
ghost use Rattle.rules_code.specs.steps.Texts.{joined, slice};
ghost use Rattle.mich_step.specs.collections.Seen.{vals_by};
ghost use Rattle.mich_step.specs.collections.Shapes.{IsListOnTop};
ghost use Rattle.mich_overload.specs.View.{text_row};
ghost use Rattle.mich_term.specs.Weights.{capped};
ghost use Rattle.mich_stack.specs.Views.{Sight, values};
ghost use Rattle.mich_step.specs.prices.Operands.{HasText};

use crate::collections::{bytes_of, cut};
use mich_base::{Link, Rows};
use mich_overload::TextRow;
use mich_stack::{split_top, three_on_top, two_on_top};
use mich_term::{Chain, Value, split_head};

// Those of two strings.
fn strings_weight(stack: &Rows<Value>) -> u64
    requires { (big : Sight) × HasText i.concat_strings (values big stack.now) }
    ensures { (big : Sight) → result ≡ capped (text_weight i.concat_strings (values big stack.now)) }
{
    match two_on_top(stack.as_slice()) {
        Some((Value::Text(s), Value::Text(t), _)) => {
            (s.as_slice().len() as u64).saturating_add(t.as_slice().len() as u64)
        }
        _ => unreachable!(),
    }
}

// Those of two bytes.
fn bytes_weight(stack: &Rows<Value>) -> u64
    requires { (big : Sight) × HasText i.concat_bytes (values big stack.now) }
    ensures { (big : Sight) → result ≡ capped (text_weight i.concat_bytes (values big stack.now)) }
{
    match two_on_top(stack.as_slice()) {
        Some((Value::Bytes(s), Value::Bytes(t), _)) => {
            (s.as_slice().len() as u64).saturating_add(t.as_slice().len() as u64)
        }
        _ => unreachable!(),
    }
}

// Those of all strings or bytes of a list, and the number of them.
fn list_weight(list: &Link<Chain<Value>>) -> u64
    ensures { (big : Sight) → result ≡ capped (length (joined (vals_by big list.now)) + element_count (vals_by big list.now)) }
{
    let mut total: u64 = 0;
    let mut left = list.get().as_reversed_slice();
    while let Some((value, rest)) = split_head(left) {
        total = total
            .saturating_add(bytes_of(value).len() as u64)
            .saturating_add(1);
        left = rest;
    }
    total
}

// Those of the list on top.
fn joined_weight(stack: &Rows<Value>) -> u64
    requires { (big : Sight) × IsListOnTop (values big stack.now) }
    ensures strings { (big : Sight) → result ≡ capped (text_weight i.concat_string_list (values big stack.now)) }
    ensures bytes { (big : Sight) → result ≡ capped (text_weight i.concat_bytes_list (values big stack.now)) }
{
    match split_top(stack.as_slice()) {
        Some((Value::List(list), _)) => list_weight(list),
        _ => unreachable!(),
    }
}

// Those that are cut.
fn cut_weight(bytes: &[u8], offset: i128, count: i128) -> u64
    requires offset { pos 0 ≤ℤ offset }
    requires count { pos 0 ≤ℤ count }
    ensures { result ≡ capped (length_found (slice (unsigned_abs offset) (unsigned_abs count) bytes.now)) }
{
    match cut(bytes, offset, count) {
        Some(found) => found.len() as u64,
        None => 0,
    }
}

fn slice_weight(stack: &Rows<Value>) -> u64
    requires { (big : Sight) × HasText i.slice_string (values big stack.now) }
    ensures { (big : Sight) → result ≡ capped (text_weight i.slice_string (values big stack.now)) }
{
    let Some((Value::Number(offset), Value::Number(count), Value::Text(s), _)) = three_on_top(
        stack.as_slice(),
    ) else {
        unreachable!()
    };
    cut_weight(s.as_slice(), *offset, *count)
}

fn bytes_slice_weight(stack: &Rows<Value>) -> u64
    requires { (big : Sight) × HasText i.slice_bytes (values big stack.now) }
    ensures { (big : Sight) → result ≡ capped (text_weight i.slice_bytes (values big stack.now)) }
{
    let Some((Value::Number(offset), Value::Number(count), Value::Bytes(s), _)) = three_on_top(
        stack.as_slice(),
    ) else {
        unreachable!()
    };
    cut_weight(s.as_slice(), *offset, *count)
}

// What one weighs, up to 2^64-1.
pub(crate) fn text_weight(row: &TextRow, stack: &Rows<Value>) -> u64
    requires { (big : Sight) × HasText (text_row row.now) (values big stack.now) }
    ensures { (big : Sight) → result ≡ capped (text_weight (text_row row.now) (values big stack.now)) }
{
    match row {
        TextRow::SizeString | TextRow::SizeBytes => 0,
        TextRow::ConcatStrings => strings_weight(stack),
        TextRow::ConcatBytes => bytes_weight(stack),
        TextRow::ConcatStringList | TextRow::ConcatBytesList => joined_weight(stack),
        TextRow::SliceString => slice_weight(stack),
        TextRow::SliceBytes => bytes_slice_weight(stack),
    }
}
