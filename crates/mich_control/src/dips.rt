// DIP.
ghost use Rattle.std.specs.Prelude.{◌≡◌, ◌+◌, ◌<◌, ◌≤◌, ◌^◌, ◌++◌, IfOk};
ghost use Rattle.rules_text.specs.nodes.Tree.{size, sizes};
ghost use Rattle.rules_code.specs.typing.Typing.{shift, under};
ghost use Rattle.mich_base.specs.View.{tree, trees};
ghost use Rattle.mich_overload.specs.View.{kinds};
ghost use Rattle.mich_instr.specs.Code as made;
ghost use Rattle.mich_instr.specs.View.{code, codes};
ghost use Rattle.mich_control.specs.Answers.{IsStack, typing};
ghost use Rattle.mich_control.specs.Dips.{IsDip, IsDipped, IsSplit, counted, written};

use crate::reading::count_of_values;
use crate::stacks::stacked;
use mich_base::{Memory, Node, Nodes, Rows, Ty, copy_node};
use mich_instr::{Block, Instr};
use mich_typed::{Body, CheckError, Made};
use mich_types::behind;
use std::alloc::Global;

/// How many values DIP leaves as they are: one, or the number that is written.
#[derive(Clone, Copy)]
pub enum Count<'a> {
    One,
    Written(u32, &'a Node),
}

/// The arguments of DIP, with the location of its body.
#[derive(Clone, Copy)]
pub struct Dip<'a> {
    pub count: Count<'a>,
    pub body: &'a Node,
    pub place: u32,
}

/// The arguments of DIP at a location. IllTyped has the location of their first fault.
#[tactic(auto, using(crate::proofs::DipTyping::misread, crate::proofs::DipTyping::uncounted, crate::proofs::DipTyping::room_of_one, crate::proofs::DipTyping::room_of_two))]
pub fn dip_parts(args: &Nodes, at: u32) -> Result<Dip<'_>, CheckError>
    requires { at + sizes (trees args.now) + 1 < 2 ^ 32 }
    ensures read { IsDip at args.now result }
    ensures within { IfOk result (λ d. d.place + size (tree d.body.now) ≡ at + 1 + sizes (trees args.now)) }
    ensures behind { IfOk result (λ d. at + 1 ≤ d.place) }
{
    if let Some(body) = args.only() {
        return Ok(Dip {
            count: Count::One,
            body,
            place: at + 1,
        });
    }
    let Some((number, body)) = args.both() else {
        return Err(CheckError::IllTyped(at));
    };
    let count = count_of_values(number, at + 1)?;
    Ok(Dip {
        count: Count::Written(count, number),
        body,
        place: behind(number, at + 1),
    })
}

/// How many values DIP leaves as they are.
pub fn counted(count: Count<'_>) -> u32
    ensures { result ≡ counted count.entry }
{
    match count {
        Count::One => 1,
        Count::Written(number, _node) => number,
    }
}

/// The types of so many values on top, and those below them; none where there are fewer. Memory where there is no room.
#[tactic(auto, using(crate::proofs::Tops::kinds_upper, crate::proofs::Tops::kinds_lower, crate::proofs::Tops::enough, crate::proofs::Tops::too_few))]
pub fn split_stack(types: Rows<Ty>, count: u32) -> Result<Option<(Rows<Ty>, Rows<Ty>)>, Memory>
    ensures { IfOk result (λ o. IsSplit count (kinds types) o) }
{
    let mut lower = types.into_vec();
    let Some(kept) = lower.len().checked_sub(count as usize) else {
        return Ok(None);
    };
    let upper = lower.split_off(kept)?;
    Ok(Some((Rows::from_vec(upper), Rows::from_vec(lower))))
}

// The stack behind DIP: what its body leaves, which must not fail, below the types that it doesn't see.
fn under(after: Option<Rows<Ty>>, upper: Rows<Ty>, at: u32) -> Result<Rows<Ty>, CheckError>
    ensures { IsStack (shift at (under (kinds upper) (typing after))) result }
{
    match after {
        Some(lower) => Ok(stacked(upper, lower)?),
        None => Err(CheckError::IllTyped(at)),
    }
}

// The count where it is written.
fn written(alloc: Global, count: Count<'_>) -> Result<Nodes, Memory>
    ensures { IfOk result (λ ns. trees ns ≡ written count.entry) }
{
    let mut nodes = Nodes::new(alloc);
    match count {
        Count::One => Ok(nodes),
        Count::Written(_number, node) => {
            nodes.push(copy_node(alloc, node)?)?;
            Ok(nodes)
        }
    }
}

fn dip_instr(alloc: Global, count: Count<'_>, body: Block) -> Result<Instr, Memory>
    ensures { IfOk result (λ i. code i ≡ made.dip (counted count.entry) (written count.entry) (codes body)) }
{
    let written = written(alloc, count)?;
    Ok(Instr::Dip {
        count: counted(count),
        written,
        body,
    })
}

/// DIP with its typed body, at a location. IllTyped, at this location, where the body fails; Memory where there is no room.
pub fn dipped(
    alloc: Global,
    count: Count<'_>,
    upper: Rows<Ty>,
    body: Body,
    at: u32,
) -> Result<Made, CheckError>
    ensures { IsDipped at count.entry (kinds upper) body result }
{
    let after = under(body.after, upper, at)?;
    let instr = dip_instr(alloc, count, body.code)?;
    Ok(Made {
        instr,
        after: Some(after),
    })
}
