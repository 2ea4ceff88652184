// Tickets that nodes spell.
ghost use Rattle.std.specs.Prelude.{◌≡◌, ◌<◌, ◌^◌, ℤ, true, IfOk, option_map};
ghost use Rattle.rules_text.specs.nodes.Tree.{size};
ghost use Rattle.rules_data.specs.types.Attributes.{comparable};
ghost use Rattle.rules_data.specs.types.Reading.{type_at};
ghost use Rattle.rules_data.specs.values.Literals.{read};
ghost use Rattle.rules_world.specs.world.Gives.{offered};
ghost use Rattle.mich_base.specs.TypeView.{kind};
ghost use Rattle.mich_base.specs.View.{tree};
ghost use Rattle.mich_term.specs.View.{datum};
ghost use Rattle.mich_operations.specs.Gifts.{compared, content_in, offer, tickets_of};

use mich_base::{Memory, Node, TYPE_LIMIT, Ty, size_within};
use mich_data::{ValueError, read_value};
use mich_forms::Place;
use mich_term::{Datum, TicketId};
use mich_types::{TypeError, comparable, read_type};
use std::alloc::Global;

// The comparable type that a node spells. None where it spells none.
fn comparable_type(alloc: Global, node: &Node) -> Result<Option<Ty>, Memory>
    ensures { IfOk result (λ o. option_map kind o ≡ compared (type_at 0 (tree node.now))) }
{
    // No type within the limit is spelled by more nodes.
    if !size_within(node, TYPE_LIMIT) {
        return Ok(None);
    }
    match read_type(alloc, node) {
        Ok(ty) => {
            if comparable(&ty) {
                Ok(Some(ty))
            } else {
                Ok(None)
            }
        }
        Err(TypeError::BadType(_)) => Ok(None),
        Err(TypeError::TypeTooLarge) => Ok(None),
        Err(TypeError::RepeatedEntrypoint(_)) => unreachable!(),
        Err(TypeError::Memory) => Err(Memory),
    }
}

// The value of a comparable type that a node spells. None where it spells none.
fn content_of(alloc: Global, ty: &Ty, node: &Node) -> Result<Option<Datum>, Memory>
    requires small { size (tree node.now) < 2 ^ 32 }
    requires comparable { comparable (kind ty.now) ≡ true }
    ensures { IfOk result (λ o. option_map datum o ≡ content_in (read (kind ty.now) 0 (tree node.now))) }
{
    match read_value(alloc, ty, node) {
        Ok(found) => Ok(found.value.datum(alloc)?),
        Err(ValueError::NotOfType(_)) => Ok(None),
        Err(ValueError::Memory) => Err(Memory),
    }
}

// The identity of tickets of an issuer, whose type and content nodes spell. None where the type isn't a comparable one, or the content no
// literal of it.
pub(crate) fn spelled_id(
    alloc: Global,
    issuer: &Place,
    ty: &Node,
    literal: &Node,
) -> Result<Option<TicketId>, Memory>
    requires { size (tree literal.now) < 2 ^ 32 }
    ensures { IfOk result (λ o. (amount : ℤ) → offered (offer issuer.now ty.now literal.now amount) ≡ option_map (λ id. tickets_of id amount) o) }
{
    let Some(ty) = comparable_type(alloc, ty)? else {
        return Ok(None);
    };
    let Some(content) = content_of(alloc, &ty, literal)? else {
        return Ok(None);
    };
    Ok(Some(TicketId {
        issuer: *issuer,
        ty,
        content,
    }))
}
