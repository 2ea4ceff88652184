// Types from nodes that are known to be types.
ghost use Rattle.std.specs.Prelude.{◌≡◌, IfOk, map};
ghost use Rattle.rules_data.specs.types.Kind.{pair, simple};
ghost use Rattle.rules_data.specs.types.Reading.{of_argument, of_arguments};
ghost use Rattle.mich_base.specs.View.{tree, trees};
ghost use Rattle.mich_base.specs.TypeView.{kind};
ghost use Rattle.mich_types.specs.Built.{built, built_all, pair_of};

use crate::former::{Former, former_of_name};
use mich_base::{Link, Memory, Node, Nodes, Rows, Ty};
use rules_data::types::{OneArgument, Simple, TwoArguments};
use std::alloc::Global;

fn simple_type(simple_type: Simple) -> Ty
    ensures { kind result ≡ simple simple_type }
{
    match simple_type {
        Simple::Unit => Ty::Unit,
        Simple::Never => Ty::Never,
        Simple::Bool => Ty::Bool,
        Simple::Int => Ty::Int,
        Simple::Nat => Ty::Nat,
        Simple::String => Ty::String,
        Simple::Bytes => Ty::Bytes,
        Simple::Mutez => Ty::Mutez,
        Simple::Timestamp => Ty::Timestamp,
        Simple::Key => Ty::Key,
        Simple::KeyHash => Ty::KeyHash,
        Simple::Signature => Ty::Signature,
        Simple::ChainId => Ty::ChainId,
        Simple::Address => Ty::Address,
    }
}

fn over_one(former: OneArgument, part: Link<Ty>) -> Ty
    ensures { kind result ≡ of_argument former (kind part) }
{
    match former {
        OneArgument::Option => Ty::Option(part),
        OneArgument::List => Ty::List(part),
        OneArgument::Set => Ty::Set(part),
        OneArgument::Contract => Ty::Contract(part),
        OneArgument::Ticket => Ty::Ticket(part),
    }
}

fn over_two(former: TwoArguments, first: Link<Ty>, second: Link<Ty>) -> Ty
    ensures { kind result ≡ of_arguments former (kind first) (kind second) }
{
    match former {
        TwoArguments::Or => Ty::Or(first, second),
        TwoArguments::Map => Ty::Map(first, second),
        TwoArguments::BigMap => Ty::BigMap(first, second),
        TwoArguments::Lambda => Ty::Lambda(first, second),
    }
}

// The type of a node that is one, whatever its attributes; the unit type of another.
#[cycle(build)]
pub(crate) fn build(alloc: Global, node: &Node) -> Result<Ty, Memory>
    ensures { IfOk result (λ ty. kind ty ≡ built (tree node.now)) }
{
    let Node::Prim(app) = node else {
        return Ok(Ty::Unit);
    };
    match former_of_name(&app.name) {
        Former::Simple(simple) => Ok(simple_type(simple)),
        Former::Operation => Ok(Ty::Operation),
        Former::One(former) => {
            let Some(part) = app.args.only() else {
                return Ok(Ty::Unit);
            };
            let part = Link::new(alloc, build(alloc, part)?)?;
            Ok(over_one(former, part))
        }
        Former::Two(former) => {
            let Some((first, second)) = app.args.both() else {
                return Ok(Ty::Unit);
            };
            let first = Link::new(alloc, build(alloc, first)?)?;
            let second = Link::new(alloc, build(alloc, second)?)?;
            Ok(over_two(former, first, second))
        }
        Former::Pair => pair_of(alloc, build_all(alloc, &app.args)?),
        Former::NoType => Ok(Ty::Unit),
    }
}

#[cycle(build)]
fn build_all(alloc: Global, nodes: &Nodes) -> Result<Rows<Ty>, Memory>
    ensures { IfOk result (λ types. map kind types ≡ built_all (trees nodes.now)) }
{
    let mut types = Rows::new(alloc);
    for node in nodes.as_slice() {
        types.push(build(alloc, node)?)?;
    }
    Ok(types)
}

fn pair(alloc: Global, first: Ty, second: Ty) -> Result<Ty, Memory>
    ensures { IfOk result (λ ty. kind ty ≡ pair (kind first) (kind second)) }
{
    let first = Link::new(alloc, first)?;
    Ok(Ty::Pair(first, Link::new(alloc, second)?))
}

// The pair of these parts, in pairs of two parts.
fn pair_of(alloc: Global, parts: Rows<Ty>) -> Result<Ty, Memory>
    ensures { IfOk result (λ ty. kind ty ≡ pair_of (map kind parts)) }
{
    let mut left = parts;
    let Some(mut ty) = left.pop() else {
        return Ok(Ty::Unit);
    };
    'parts: while let Some(part) = left.pop() {
        ty = pair(alloc, part, ty)?;
    }
    Ok(ty)
}
