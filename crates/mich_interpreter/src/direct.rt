// Instructions without bodies that are paid for and carried out at once.
ghost use Rattle.std.specs.Prelude.{◌≡◌, ◌-◌, true, slice_get};
ghost use Rattle.rules_code.specs.instructions.Straight as i;
ghost use Rattle.rules_code.specs.instructions.Straight.{on_numbers, on_pairs, on_stack, on_truth, on_unions};
ghost use Rattle.rules_code.specs.steps.Costs.{weight_found};
ghost use Rattle.mich_instr.specs.Code as made;
ghost use Rattle.mich_overload.specs.View.{straight, logic_row, number_row, pair_row, stack_row, union_row};
ghost use Rattle.mich_overload.specs.Steps.{in_step};
ghost use Rattle.mich_term.specs.Weights.{capped};
ghost use Rattle.mich_stack.specs.Views.{Sight, values};
ghost use Rattle.mich_interpreter.specs.Went.{ComesSo, HasGone};

use crate::paying::{pay, pay_capped};
use crate::went::{Went, went_by};
use mich_base::Rows;
use mich_gas::{Costs, Kind};
use mich_overload::{LogicRow, NumberRow, PairRow, Simple, StackRow, UnionRow};
use mich_stack::read_at;
use mich_state::State;
use mich_step::prices::{logic_price, number_price, number_weight, price, union_price, weigh};
use mich_step::{
    dig, dug, dup_value, logic_step, number_step, pair, step, swap, union_step, unit, unpair,
};
use mich_term::{Value, weight};
use std::alloc::Global;

fn go_numbers(alloc: Global, m: &mut State, costs: &Costs, row: &NumberRow) -> Went
    requires { ComesSo (made.straight (on_numbers (number_row row.now))) costs.now m.old }
    ensures { HasGone (made.straight (on_numbers (number_row row.now))) costs.now m.old m.new result }
{
    let weighed = number_weight(row, &m.stack);
    if !pay_capped(&mut m.meter, costs, number_price(row), weighed) {
        return Went::OutOfGas;
    }
    went_by(number_step(alloc, row, &mut m.stack))
}

fn go_logic(m: &mut State, costs: &Costs, row: &LogicRow) -> Went
    requires { ComesSo (made.straight (on_truth (logic_row row.now))) costs.now m.old }
    ensures { HasGone (made.straight (on_truth (logic_row row.now))) costs.now m.old m.new result }
{
    if !pay(&mut m.meter, costs, logic_price(row), 0) {
        return Went::OutOfGas;
    }
    went_by(logic_step(row, &mut m.stack))
}

fn go_unions(alloc: Global, m: &mut State, costs: &Costs, row: &UnionRow) -> Went
    requires { ComesSo (made.straight (on_unions (union_row row.now))) costs.now m.old }
    ensures { HasGone (made.straight (on_unions (union_row row.now))) costs.now m.old m.new result }
{
    if !pay(&mut m.meter, costs, union_price(row), 0) {
        return Went::OutOfGas;
    }
    went_by(union_step(alloc, row, &mut m.stack))
}

fn go_swap(m: &mut State, costs: &Costs) -> Went
    requires { ComesSo (made.straight (on_stack i.swap)) costs.now m.old }
    ensures { HasGone (made.straight (on_stack i.swap)) costs.now m.old m.new result }
{
    if !pay(&mut m.meter, costs, Kind::Swap, 0) {
        return Went::OutOfGas;
    }
    went_by(swap(&mut m.stack))
}

fn go_dig(alloc: Global, m: &mut State, costs: &Costs, depth: u32) -> Went
    requires { ComesSo (made.straight (on_stack (i.dig depth))) costs.now m.old }
    ensures { HasGone (made.straight (on_stack (i.dig depth))) costs.now m.old m.new result }
{
    if !pay(&mut m.meter, costs, Kind::Dig, 0) {
        return Went::OutOfGas;
    }
    went_by(dig(alloc, depth, &mut m.stack))
}

fn go_dug(alloc: Global, m: &mut State, costs: &Costs, depth: u32) -> Went
    requires { ComesSo (made.straight (on_stack (i.dug depth))) costs.now m.old }
    ensures { HasGone (made.straight (on_stack (i.dug depth))) costs.now m.old m.new result }
{
    if !pay(&mut m.meter, costs, Kind::Dug, 0) {
        return Went::OutOfGas;
    }
    went_by(dug(alloc, depth, &mut m.stack))
}

fn go_unit(m: &mut State, costs: &Costs) -> Went
    requires { ComesSo (made.straight (on_stack i.unit)) costs.now m.old }
    ensures { HasGone (made.straight (on_stack i.unit)) costs.now m.old m.new result }
{
    if !pay(&mut m.meter, costs, Kind::Unit, 0) {
        return Went::OutOfGas;
    }
    went_by(unit(&mut m.stack))
}

// What DUP weighs: the value that is copied.
#[inline(always)]
fn copied_weight(place: u32, stack: &Rows<Value>) -> u64
    ensures { (big : Sight) → result ≡ capped (weight_found (slice_get (values big stack.now) (place - 1))) }
{
    match read_at(stack, (place as usize).saturating_sub(1)) {
        Some(value) => weight(value),
        None => 0,
    }
}

fn go_dup(alloc: Global, m: &mut State, costs: &Costs, place: u32) -> Went
    requires { ComesSo (made.straight (on_stack (i.dup place))) costs.now m.old }
    ensures { HasGone (made.straight (on_stack (i.dup place))) costs.now m.old m.new result }
{
    let weighed = copied_weight(place, &m.stack);
    if !pay_capped(&mut m.meter, costs, Kind::Dup, weighed) {
        return Went::OutOfGas;
    }
    went_by(dup_value(alloc, place, &mut m.stack))
}

fn go_pair(alloc: Global, m: &mut State, costs: &Costs, count: u32) -> Went
    requires { ComesSo (made.straight (on_pairs (i.pair count))) costs.now m.old }
    ensures { HasGone (made.straight (on_pairs (i.pair count))) costs.now m.old m.new result }
{
    if !pay(&mut m.meter, costs, Kind::Pair, 0) {
        return Went::OutOfGas;
    }
    went_by(pair(alloc, count, &mut m.stack))
}

fn go_unpair(m: &mut State, costs: &Costs, count: u32) -> Went
    requires { ComesSo (made.straight (on_pairs (i.unpair count))) costs.now m.old }
    ensures { HasGone (made.straight (on_pairs (i.unpair count))) costs.now m.old m.new result }
{
    if !pay(&mut m.meter, costs, Kind::Unpair, 0) {
        return Went::OutOfGas;
    }
    went_by(unpair(count, &mut m.stack))
}

// One that asks for nothing but the stack, the tickets and what surrounds the run.
fn go_other(alloc: Global, m: &mut State, costs: &Costs, instr: &Simple) -> Went
    requires in_step { in_step (straight instr.now) ≡ true }
    requires comes { ComesSo (made.straight (straight instr.now)) costs.now m.old }
    ensures { HasGone (made.straight (straight instr.now)) costs.now m.old m.new result }
{
    let Ok(weighed) = weigh(alloc, instr, &m.stack) else {
        return Went::Memory;
    };
    if !pay_capped(&mut m.meter, costs, price(instr), weighed) {
        return Went::OutOfGas;
    }
    went_by(step(alloc, instr, &mut m.stack, &mut m.ledger, &m.env))
}

// One on the order of the stack; what is no frequent one goes the way of all.
#[inline(always)]
fn go_stack(alloc: Global, m: &mut State, costs: &Costs, row: &StackRow, instr: &Simple) -> Went
    requires is { straight instr.now ≡ on_stack (stack_row row.now) }
    requires in_step { in_step (straight instr.now) ≡ true }
    requires comes { ComesSo (made.straight (straight instr.now)) costs.now m.old }
    ensures { HasGone (made.straight (straight instr.now)) costs.now m.old m.new result }
{
    match row {
        StackRow::Dup(place) => go_dup(alloc, m, costs, *place),
        StackRow::Swap => go_swap(m, costs),
        StackRow::Dig(depth) => go_dig(alloc, m, costs, *depth),
        StackRow::Dug(depth) => go_dug(alloc, m, costs, *depth),
        StackRow::Unit => go_unit(m, costs),
        _ => go_other(alloc, m, costs, instr),
    }
}

// One on pairs; what is no frequent one goes the way of all.
#[inline(always)]
fn go_pairs(alloc: Global, m: &mut State, costs: &Costs, row: &PairRow, instr: &Simple) -> Went
    requires is { straight instr.now ≡ on_pairs (pair_row row.now) }
    requires in_step { in_step (straight instr.now) ≡ true }
    requires comes { ComesSo (made.straight (straight instr.now)) costs.now m.old }
    ensures { HasGone (made.straight (straight instr.now)) costs.now m.old m.new result }
{
    match row {
        PairRow::Pair(count) => go_pair(alloc, m, costs, *count),
        PairRow::Unpair(count) => go_unpair(m, costs, *count),
        _ => go_other(alloc, m, costs, instr),
    }
}

// One that asks for nothing but the stack, the tickets and what surrounds the run, where one match knows kind, weight and effect of the
// most frequent ones.
#[inline(always)]
pub(crate) fn go_straight(alloc: Global, m: &mut State, costs: &Costs, instr: &Simple) -> Went
    requires in_step { in_step (straight instr.now) ≡ true }
    requires comes { ComesSo (made.straight (straight instr.now)) costs.now m.old }
    ensures { HasGone (made.straight (straight instr.now)) costs.now m.old m.new result }
{
    match instr {
        Simple::Numbers(row) => go_numbers(alloc, m, costs, row),
        Simple::Logic(row) => go_logic(m, costs, row),
        Simple::Unions(row) => go_unions(alloc, m, costs, row),
        Simple::Stack(row) => go_stack(alloc, m, costs, row, instr),
        Simple::Pairs(row) => go_pairs(alloc, m, costs, row, instr),
        _ => go_other(alloc, m, costs, instr),
    }
}
