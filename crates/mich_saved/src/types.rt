// The type of a ticket's content.
ghost use Rattle.std.specs.Prelude.{◌≡◌, true, take, IfOk, option_map};
ghost use Rattle.rules_data.specs.types.Attributes.{comparable};
ghost use Rattle.rules_data.specs.types.Reading.{former_of};
ghost use Rattle.rules_text.specs.nodes.Primitives.{primitive_of_code};
ghost use Rattle.rules_files.specs.snapshots.Reading.{content_nodes, kind_within, kind_at};
ghost use Rattle.mich_base.specs.TypeView.{kind};
ghost use Rattle.mich_saved.specs.Results.{Gives, spot};
ghost use Rattle.mich_saved.specs.Types.{IsShape, join, made_option, made_two, content_kind, typed};

use crate::cursor::Cursor;
use crate::errors::LoadError;
use mich_base::{Link, Memory, Primitive, Ty, primitive_of_code};
use std::alloc::Global;

// What is made of two types.
#[derive(Clone, Copy, Debug)]
enum Joint {
    Or,
    Pair,
}

// What a code makes of the types behind it.
#[derive(Debug, Drop)]
enum Shape {
    Leaf(Ty),
    Option,
    Two(Joint),
    Other,
}

fn joined(joint: Joint, first: Link<Ty>, second: Link<Ty>) -> Ty
    ensures { kind result ≡ join joint (kind first) (kind second) }
{
    match joint {
        Joint::Or => Ty::Or(first, second),
        Joint::Pair => Ty::Pair(first, second),
    }
}

fn shape_of_primitive(primitive: Primitive) -> Shape
    ensures { IsShape (former_of (Some primitive)) result }
{
    match primitive {
        Primitive::TypeUnit => Shape::Leaf(Ty::Unit),
        Primitive::TypeNever => Shape::Leaf(Ty::Never),
        Primitive::TypeBool => Shape::Leaf(Ty::Bool),
        Primitive::TypeInt => Shape::Leaf(Ty::Int),
        Primitive::TypeNat => Shape::Leaf(Ty::Nat),
        Primitive::TypeString => Shape::Leaf(Ty::String),
        Primitive::TypeBytes => Shape::Leaf(Ty::Bytes),
        Primitive::TypeMutez => Shape::Leaf(Ty::Mutez),
        Primitive::TypeTimestamp => Shape::Leaf(Ty::Timestamp),
        Primitive::TypeKey => Shape::Leaf(Ty::Key),
        Primitive::TypeKeyHash => Shape::Leaf(Ty::KeyHash),
        Primitive::TypeSignature => Shape::Leaf(Ty::Signature),
        Primitive::TypeChainId => Shape::Leaf(Ty::ChainId),
        Primitive::TypeAddress => Shape::Leaf(Ty::Address),
        Primitive::TypeOption => Shape::Option,
        Primitive::TypeOr => Shape::Two(Joint::Or),
        Primitive::TypePair => Shape::Two(Joint::Pair),
        _ => Shape::Other,
    }
}

fn shape_of_code(code: u8) -> Shape
    ensures { IsShape (former_of (primitive_of_code code)) result }
{
    match primitive_of_code(code) {
        Some(primitive) => shape_of_primitive(primitive),
        None => Shape::Other,
    }
}

// A type of at most so many levels, and the bytes behind it.
#[cycle(types)]
fn type_within(alloc: Global, levels: u32, bytes: &[u8]) -> Result<Option<(Ty, &[u8])>, Memory>
    ensures { IfOk result (λ o. option_map typed o ≡ kind_within levels bytes.now) }
{
    let [code, rest @ ..] = bytes else {
        return Ok(None);
    };
    if levels == 0 {
        return Ok(None);
    }
    match shape_of_code(*code) {
        Shape::Leaf(ty) => Ok(Some((ty, rest))),
        Shape::Option => option_within(alloc, levels - 1, rest),
        Shape::Two(joint) => two_within(alloc, joint, levels - 1, rest),
        Shape::Other => Ok(None),
    }
}

#[cycle(types)]
fn option_within(alloc: Global, levels: u32, bytes: &[u8]) -> Result<Option<(Ty, &[u8])>, Memory>
    ensures { IfOk result (λ o. option_map typed o ≡ made_option (kind_within levels) bytes.now) }
{
    let Some((part, rest)) = type_within(alloc, levels, bytes)? else {
        return Ok(None);
    };
    let ty = Ty::Option(Link::new(alloc, part)?);
    Ok(Some((ty, rest)))
}

#[cycle(types)]
fn two_within(
    alloc: Global,
    joint: Joint,
    levels: u32,
    bytes: &[u8],
) -> Result<Option<(Ty, &[u8])>, Memory>
    ensures { IfOk result (λ o. option_map typed o ≡ made_two joint (kind_within levels) bytes.now) }
{
    let Some((first, rest)) = type_within(alloc, levels, bytes)? else {
        return Ok(None);
    };
    let first = Link::new(alloc, first)?;
    let Some((second, rest)) = type_within(alloc, levels, rest)? else {
        return Ok(None);
    };
    let ty = joined(joint, first, Link::new(alloc, second)?);
    Ok(Some((ty, rest)))
}

// How many nodes the type of a ticket's content may have.
const CONTENT_NODES: u32 = 1999;

// The type of a ticket's content, and the bytes behind it.
#[tactic(auto, unfolding(crate::specs::Types::content_kind))]
fn content_type(alloc: Global, bytes: &[u8]) -> Result<Option<(Ty, &[u8])>, Memory>
    ensures { IfOk result (λ o. option_map typed o ≡ content_kind bytes.now) }
{
    type_within(alloc, CONTENT_NODES, bytes)
}

// As many bytes as the type of a ticket's content may take, or all that there are.
fn front_of(bytes: &[u8]) -> &[u8]
    ensures { result.now ≡ take content_nodes bytes.now }
{
    if bytes.len() <= CONTENT_NODES as usize {
        return bytes;
    }
    &bytes[..CONTENT_NODES as usize]
}

/// The type of a ticket's content.
#[tactic(auto, using(crate::proofs::Cuts::content_laws))]
pub fn kind_at<'a>(alloc: Global, cursor: Cursor<'a>) -> Result<(Ty, Cursor<'a>), LoadError>
    ensures read { Gives (λ x. (kind x.0, spot x.1)) result (kind_at (spot cursor.entry)) }
    ensures comparable { IfOk result (λ x. comparable (kind x.0) ≡ true) }
{
    let front = front_of(cursor.left);
    let Some((ty, rest)) = content_type(alloc, front)? else {
        return Err(LoadError::BadForm(cursor.place));
    };
    let used = front.len() - rest.len();
    let (_, left) = cursor.left.split_at(used);
    let place = cursor.place + used as u64;
    Ok((ty, Cursor { place, left }))
}
