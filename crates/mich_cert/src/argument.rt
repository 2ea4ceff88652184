// The arguments of instructions.
ghost use Rattle.std.specs.Prelude.{◌≡◌, ◌+◌, ◌<◌, ◌^◌, IfOk, option_map};
ghost use Rattle.rules_text.specs.nodes.Tree.{size};
ghost use Rattle.rules_data.specs.forms.Spelling.{default_name};
ghost use Rattle.rules_data.specs.types.Entrypoints.{field_name};
ghost use Rattle.rules_data.specs.types.Reading.{type_at};
ghost use Rattle.mich_base.specs.TypeView.{kind};
ghost use Rattle.mich_base.specs.View.{tree};
ghost use Rattle.mich_cert.specs.Arguments.{a_count, a_kind, is_named, named_or, names_view, within};

use mich_base::{Memory, Node, Texts, Ty};
use mich_forms::{Entrypoint, all_name_bytes};
use mich_types::{TypeError, field_name, type_at};
use std::alloc::Global;

// The type that the argument at a location spells. None where it is none.
pub(crate) fn written_type(alloc: Global, node: &Node, at: u32) -> Result<Option<Ty>, Memory>
    requires { at + size (tree node.now) < 2 ^ 32 }
    ensures { IfOk result (λ r. option_map kind r ≡ a_kind (type_at at (tree node.now))) }
{
    match type_at(alloc, node, at) {
        Ok(ty) => Ok(Some(ty)),
        Err(TypeError::BadType(_) | TypeError::TypeTooLarge) => Ok(None),
        Err(TypeError::RepeatedEntrypoint(_) | TypeError::Memory) => Err(Memory),
    }
}

// A number from the least on to the most.
fn within(n: i128, least: u32, most: u32) -> Option<u32>
    ensures { result ≡ within least most n }
{
    if n >= least as i128 && n <= most as i128 {
        Some(n as u32)
    } else {
        None
    }
}

// A count, from the least on to the most.
pub(crate) fn count(node: &Node, least: u32, most: u32) -> Option<u32>
    ensures { result ≡ a_count least most (tree node.now) }
{
    match node {
        Node::Int(n) => within(*n, least, most),
        _ => None,
    }
}

// Whether the first field annotation gives an entrypoint's name, or there is none.
#[tactic(auto, using(std::proofs::lemmas::Bool::false_from_ne_true))]
pub(crate) fn is_named(annots: &Texts) -> bool
    ensures { result ≡ is_named (field_name annots.now) }
{
    match field_name(annots) {
        Some(name) => Entrypoint::read(name).is_some(),
        None => true,
    }
}

// The entrypoint that the first field annotation gives, or `default`. None where it gives no entrypoint's name.
#[tactic(auto, using(std::proofs::lemmas::Bool::false_from_ne_true))]
pub(crate) fn entrypoint_name(annots: &Texts) -> Option<Entrypoint>
    ensures { result ≡ named_or default_name (field_name annots.now) }
{
    match field_name(annots) {
        Some(name) => Entrypoint::read(name),
        None => Some(Entrypoint::default_entrypoint()),
    }
}

// Whether a node is the name of a view.
pub(crate) fn is_view_name(node: &Node) -> bool
    ensures { result ≡ names_view (tree node.now) }
{
    match node {
        Node::Str(name) => name.len() <= 31 && all_name_bytes(name.as_slice()),
        _ => false,
    }
}
