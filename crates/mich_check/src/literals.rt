// Literals, with the bodies of their lambdas.
ghost use Rattle.std.specs.Prelude.{◌≡◌, ◌+◌, ◌<◌, ◌≤◌, ◌^◌, IfOk};
ghost use Rattle.laws_data.specs.types.Laws.{IsWellFormed};
ghost use Rattle.rules_text.specs.nodes.Tree.{size};
ghost use Rattle.rules_data.specs.values.Literals.{claims, read};
ghost use Rattle.rules_code.specs.typing.Literals.{literal, of_reading};
ghost use Rattle.mich_base.specs.TypeView.{kind};
ghost use Rattle.mich_base.specs.View.{tree};
ghost use Rattle.mich_data.specs.View.{all_pending};
ghost use Rattle.mich_instr.specs.Body.{AllHeld};
ghost use Rattle.mich_instr.specs.View.{codes};
ghost use Rattle.mich_term.specs.ValueView.{val};
ghost use Rattle.mich_data.specs.Whole.{IsWhole};
ghost use Rattle.mich_term.specs.Layers.{AreFormed};
ghost use Rattle.mich_check.specs.Pending.{HasValue, IsChecked, IsRead, largest, reach};

use crate::nodes::check_pending;
use mich_base::{Memory, Node, Rows, Ty};
use mich_control::CheckError;
use mich_data::{Pending, Read, ValueError, read_value_at, read_value_with};
use mich_instr::{Instr, held_bodies};
use mich_term::Value;
use std::alloc::Global;

/// The value of a literal, with the contracts that it names, which are still to be looked up, in pre-order.
#[derive(Debug, Drop)]
pub struct Checked {
    pub value: Value,
    pub claims: Rows<Pending>,
}

// What the node spells whose location is counted from another, which stands at one itself.
pub(crate) fn read_literal(
    alloc: Global,
    ty: &Ty,
    node: &Node,
    place: u32,
    at: u32,
) -> Result<Read, CheckError>
    requires { at + (place + size (tree node.now)) < 2 ^ 32 }
    ensures read { IsRead at (read (kind ty.now) place (tree node.now)) result }
    ensures reach { IfOk result (λ x. reach (all_pending x.pending) ≤ place + size (tree node.now)) }
    ensures largest { IfOk result (λ x. largest (all_pending x.pending) ≤ size (tree node.now)) }
    ensures whole { IfOk result (λ x. IsWhole (kind ty.now) x.value) }
    ensures formed { IfOk result (λ x. IsWellFormed (kind ty.now) → AreFormed x.value) }
{
    match read_value_at(alloc, ty, node, place) {
        Ok(read) => Ok(read),
        Err(ValueError::NotOfType(location)) => Err(CheckError::IllTyped(at + location)),
        Err(ValueError::Memory) => Err(CheckError::Memory),
    }
}

// What is pending but bodies.
#[tactic(auto, using(crate::proofs::LiteralTyping::claim_step, crate::proofs::LiteralTyping::body_step, crate::proofs::LiteralTyping::claims_end))]
fn claims_of(alloc: Global, pending: Rows<Pending>) -> Result<Rows<Pending>, Memory>
    ensures { IfOk result (λ ps. all_pending ps ≡ claims (all_pending pending)) }
{
    let mut kept = Rows::new(alloc);
    for item in pending.into_vec() {
        match item {
            Pending::Claim {
                location,
                address,
                ty,
            } => kept.push(Pending::Claim {
                location,
                address,
                ty,
            })?,
            Pending::Body { .. } => {}
        }
    }
    Ok(kept)
}

// The value of a literal, with these lambdas in it.
#[tactic(auto, using(crate::proofs::LiteralTyping::same_value, crate::proofs::LiteralTyping::not_bad))]
fn with_lambdas(
    alloc: Global,
    ty: &Ty,
    node: &Node,
    at: u32,
    value: Value,
    lambdas: &Rows<Instr>,
) -> Result<Value, Memory>
    requires fits { at + size (tree node.now) < 2 ^ 32 }
    requires held { AllHeld (codes lambdas.now) }
    requires reads { HasValue (val value) (read (kind ty.now) at (tree node.now)) }
    requires whole { IsWhole (kind ty.now) value }
    requires formed { IsWellFormed (kind ty.now) → AreFormed value }
    ensures value { IfOk result (λ v. val v ≡ val value) }
    ensures whole { IfOk result (λ v. IsWhole (kind ty.now) v) }
    ensures formed { IfOk result (λ v. IsWellFormed (kind ty.now) → AreFormed v) }
{
    if lambdas.is_empty() {
        return Ok(value);
    }
    let bodies = held_bodies(alloc, lambdas)?;
    match read_value_with(alloc, ty, node, at, bodies) {
        Ok(read) => Ok(read.value),
        Err(ValueError::NotOfType(_)) => unreachable!(),
        Err(ValueError::Memory) => Err(Memory),
    }
}

/// The value of a type that a node spells, where each body of a lambda in it goes from its argument's type to its result's,
/// with the contracts that it names (Michelson reference, "Types", the literals of each). IllTyped has the location of the
/// first node that doesn't fit, else that of the first fault of the first body that has one; Memory where there is no room. The
/// value has the parts that its type names, and where the type is well formed its big maps have their form.
pub fn check_literal(alloc: Global, ty: &Ty, node: &Node) -> Result<Checked, CheckError>
    requires { size (tree node.now) < 2 ^ 32 }
    ensures checked { IsChecked (literal (kind ty.now) (tree node.now)) result }
    ensures whole { IfOk result (λ c. IsWhole (kind ty.now) c.value) }
    ensures formed { IfOk result (λ c. IsWellFormed (kind ty.now) → AreFormed c.value) }
{
    check_literal_at(alloc, ty, node, 0)
}

/// The same of the node at a location, from which its locations are counted.
pub fn check_literal_at(alloc: Global, ty: &Ty, node: &Node, at: u32) -> Result<Checked, CheckError>
    requires { at + size (tree node.now) < 2 ^ 32 }
    ensures checked { IsChecked (of_reading (read (kind ty.now) at (tree node.now))) result }
    ensures whole { IfOk result (λ c. IsWhole (kind ty.now) c.value) }
    ensures formed { IfOk result (λ c. IsWellFormed (kind ty.now) → AreFormed c.value) }
{
    let read = read_literal(alloc, ty, node, at, 0)?;
    let lambdas = check_pending(alloc, &read.pending, 0)?;
    let claims = claims_of(alloc, read.pending)?;
    let value = with_lambdas(alloc, ty, node, at, read.value, &lambdas)?;
    Ok(Checked { value, claims })
}
