// Whether values without lambdas are ones of their types.
ghost use Rattle.std.specs.Prelude.{◌≡◌, ◌&&◌, false, IfOk, MatchOption};
ghost use Rattle.rules_data.specs.types.Kind as k;
ghost use Rattle.rules_data.specs.values.Val.{bytes as bytes_val, number as number_val, text as text_val};
ghost use Rattle.rules_files.specs.snapshots.Rules.{is_stored};
ghost use Rattle.rules_text.specs.nodes.Tree.{bytes as bytes_tree};
ghost use Rattle.mich_base.specs.TypeView.{kind};
ghost use Rattle.mich_base.specs.View.{tree};
ghost use Rattle.mich_snapshot.specs.Leaves.{is_leaf, is_simple};
ghost use Rattle.mich_term.specs.View.{datum};

use mich_base::{Bytes, Memory, Node, Text, Ty};
use mich_data::simple_value;
use mich_term::Datum;
use rules_data::types::Simple;
use std::alloc::Global;

// The type without arguments that a type is. None where it has some, or is that of operations.
fn simple_of(ty: &Ty) -> Option<Simple>
    ensures { MatchOption result (is_simple (kind ty.now) ≡ false) (λ s. kind ty.now ≡ k.simple s) }
{
    match ty {
        Ty::Unit => Some(Simple::Unit),
        Ty::Never => Some(Simple::Never),
        Ty::Bool => Some(Simple::Bool),
        Ty::Int => Some(Simple::Int),
        Ty::Nat => Some(Simple::Nat),
        Ty::String => Some(Simple::String),
        Ty::Bytes => Some(Simple::Bytes),
        Ty::Mutez => Some(Simple::Mutez),
        Ty::Timestamp => Some(Simple::Timestamp),
        Ty::Key => Some(Simple::Key),
        Ty::KeyHash => Some(Simple::KeyHash),
        Ty::Signature => Some(Simple::Signature),
        Ty::ChainId => Some(Simple::ChainId),
        Ty::Address => Some(Simple::Address),
        _ => None,
    }
}

// Whether a node is a literal of a type without arguments.
#[tactic(auto, using(crate::proofs::Fits::leaf_is, crate::proofs::Fits::no_leaf))]
fn is_literal(alloc: Global, ty: &Ty, node: &Node) -> Result<bool, Memory>
    ensures { IfOk result (λ b. b ≡ is_leaf (kind ty.now) (tree node.now)) }
{
    match simple_of(ty) {
        Some(simple) => Ok(simple_value(alloc, simple, node)?.is_some()),
        None => Ok(false),
    }
}

/// Whether a number is a value of a type. Memory where there is no room to tell.
#[tactic(auto, using(crate::proofs::Leaves::number_leaf))]
pub fn number_fits(alloc: Global, ty: &Ty, number: i128) -> Result<bool, Memory>
    ensures { IfOk result (λ b. b ≡ is_stored (kind ty.now) (number_val number)) }
{
    is_literal(alloc, ty, &Node::Int(number))
}

/// So of a text.
#[tactic(auto, using(crate::proofs::Leaves::text_leaf))]
pub fn text_fits(alloc: Global, ty: &Ty, text: &Text) -> Result<bool, Memory>
    ensures { IfOk result (λ b. b ≡ is_stored (kind ty.now) (text_val text.now)) }
{
    let node = Node::Str(text.copy(alloc)?);
    is_literal(alloc, ty, &node)
}

fn bytes_node(alloc: Global, bytes: &Bytes) -> Result<Node, Memory>
    ensures { IfOk result (λ n. tree n ≡ bytes_tree bytes.now) }
{
    Ok(Node::Bytes(bytes.copy(alloc)?))
}

/// So of bytes.
pub fn bytes_fit(alloc: Global, ty: &Ty, bytes: &Bytes) -> Result<bool, Memory>
    ensures { IfOk result (λ b. b ≡ is_stored (kind ty.now) (bytes_val bytes.now)) }
{
    let node = bytes_node(alloc, bytes)?;
    is_literal(alloc, ty, &node)
}

/// Whether a comparable value is one of a type. Memory where there is no room to tell.
#[cycle(fits)]
pub fn datum_fits(alloc: Global, ty: &Ty, value: &Datum) -> Result<bool, Memory>
    ensures { IfOk result (λ b. b ≡ is_stored (kind ty.now) (datum value.now)) }
{
    match value {
        Datum::Unit => Ok(matches!(ty, Ty::Unit)),
        Datum::Bool(_) => Ok(matches!(ty, Ty::Bool)),
        Datum::Number(number) => number_fits(alloc, ty, *number),
        Datum::Text(text) => text_fits(alloc, ty, text),
        Datum::Bytes(bytes) => bytes_fit(alloc, ty, bytes),
        Datum::None => Ok(matches!(ty, Ty::Option(_))),
        Datum::Some(part) => match ty {
            Ty::Option(inner) => datum_fits(alloc, inner.get(), part.get()),
            _ => Ok(false),
        },
        Datum::Left(part) => match ty {
            Ty::Or(left, _) => datum_fits(alloc, left.get(), part.get()),
            _ => Ok(false),
        },
        Datum::Right(part) => match ty {
            Ty::Or(_, right) => datum_fits(alloc, right.get(), part.get()),
            _ => Ok(false),
        },
        Datum::Pair(first, second) => match ty {
            Ty::Pair(left, right) => {
                both_fit(alloc, left.get(), right.get(), first.get(), second.get())
            }
            _ => Ok(false),
        },
    }
}

#[cycle(fits)]
fn both_fit(
    alloc: Global,
    left: &Ty,
    right: &Ty,
    first: &Datum,
    second: &Datum,
) -> Result<bool, Memory>
    ensures { IfOk result (λ b. b ≡ (is_stored (kind left.now) (datum first.now) && is_stored (kind right.now) (datum second.now))) }
{
    if !datum_fits(alloc, left, first)? {
        return Ok(false);
    }
    datum_fits(alloc, right, second)
}
