// A node whose literal is packed.
ghost use Rattle.std.specs.Prelude.{◌≡◌, ◌+◌, ◌<◌, ◌^◌, true, IfOk, option_map};
ghost use Rattle.rules_text.specs.nodes.Tree.{size, sizes};
ghost use Rattle.rules_data.specs.types.Attributes.{packable};
ghost use Rattle.rules_data.specs.types.Reading.{type_at};
ghost use Rattle.rules_data.specs.values.Literals.{read};
ghost use Rattle.rules_code.specs.steps.Packing.{packed};
ghost use Rattle.rules_code.specs.typing.Literals.{of_reading};
ghost use Rattle.rules_files.specs.commands.Packs.{first_claim, ill_typed_at, literal_answer, pack_by, pack_fields, pack_literal, pack_node, packed_answer, packing_answer};
ghost use Rattle.rules_files.specs.statements.Statements.{nodes_of};
ghost use Rattle.laws_typing.specs.packing.Names.{IsPackable};
ghost use Rattle.mich_base.specs.TypeView.{kind};
ghost use Rattle.mich_base.specs.View.{tree, trees};
ghost use Rattle.mich_check.specs.Pending.{checked};
ghost use Rattle.mich_data.specs.View.{all_pending};
ghost use Rattle.mich_term.specs.ValueView.{val};
ghost use Rattle.rules_code.specs.instructions.Arguments.{found};
ghost use Rattle.mich_answers.specs.View.{answer_seen};

use crate::answer::{Answer, done, refused};
use crate::lines::{as_text, bytes_line};
use mich_base::{Memory, Node, Nodes, Rows, Ty};
use mich_check::{CheckError, Checked, check_literal_at};
use mich_data::Pending;
use mich_pack::{PackError, pack};
use mich_term::Value;
use mich_types::{TypeError, behind, packable, type_at};
use std::alloc::Global;

fn ill_typed(alloc: Global, location: u32) -> Result<Answer, Memory>
    ensures { IfOk result (λ a. answer_seen a ≡ ill_typed_at location) }
{
    refused(alloc, "IllTyped", u64::from(location))
}

// The bytes of a value.
fn packed_value(alloc: Global, value: &Value) -> Result<Answer, Memory>
    requires { IsPackable (val value.now) }
    ensures { IfOk result (λ a. answer_seen a ≡ packed_answer (packed (val value.now))) }
{
    match pack(alloc, value) {
        Ok(bytes) => done(alloc, as_text(bytes_line(alloc, bytes.as_slice())?)?),
        Err(PackError::SizeLimit) => refused(alloc, "SizeLimit", 0),
        Err(PackError::Memory) => Err(Memory),
    }
}

// The location of the first contract that a literal names.
#[tactic(auto, using(crate::proofs::Claims::claim_here, crate::proofs::Claims::body_here, crate::proofs::Claims::none_left))]
fn first_claim(pending: Rows<Pending>) -> Option<u32>
    ensures { result ≡ first_claim (all_pending pending) }
{
    for item in pending.into_vec() {
        match item {
            Pending::Claim { location, .. } => return Some(location),
            Pending::Body { .. } => {}
        }
    }
    None
}

// The answer to a literal that is read.
fn checked_literal(alloc: Global, literal: Checked) -> Result<Answer, Memory>
    requires { IsPackable (val literal.value) }
    ensures { IfOk result (λ a. answer_seen a ≡ literal_answer (found (checked literal))) }
{
    let Checked { value, claims } = literal;
    match first_claim(claims) {
        Some(location) => ill_typed(alloc, location),
        None => packed_value(alloc, &value),
    }
}

// The answer to a literal of a type that can be packed.
#[tactic(auto, using(laws_typing::proofs::packing_lemmas::ForCallers::checked_is_packable))]
fn read_literal(alloc: Global, ty: &Ty, literal: &Node, at: u32) -> Result<Answer, Memory>
    requires fits { at + size (tree literal.now) < 2 ^ 32 }
    requires packs { packable (kind ty.now) ≡ true }
    ensures { IfOk result (λ a. answer_seen a ≡ literal_answer (of_reading (read (kind ty.now) at (tree literal.now)))) }
{
    match check_literal_at(alloc, ty, literal, at) {
        Ok(literal) => checked_literal(alloc, literal),
        Err(CheckError::IllTyped(location)) => ill_typed(alloc, location),
        Err(CheckError::Memory) => Err(Memory),
    }
}

// The answer to a literal of a type.
fn pack_literal(alloc: Global, ty: &Ty, literal: &Node, at: u32) -> Result<Answer, Memory>
    requires { at + size (tree literal.now) < 2 ^ 32 }
    ensures { IfOk result (λ a. answer_seen a ≡ pack_literal (kind ty.now) at (tree literal.now)) }
{
    if packable(ty) {
        read_literal(alloc, ty, literal, at)
    } else {
        ill_typed(alloc, 1)
    }
}

// The answer to a type and a literal.
fn pack_typed(alloc: Global, ty: &Node, literal: &Node) -> Result<Answer, Memory>
    requires { 1 + size (tree ty.now) + size (tree literal.now) < 2 ^ 32 }
    ensures { IfOk result (λ a. answer_seen a ≡ packing_answer (type_at 1 (tree ty.now)) (tree ty.now) (tree literal.now)) }
{
    match type_at(alloc, ty, 1) {
        Ok(found) => pack_literal(alloc, &found, literal, behind(ty, 1)),
        Err(TypeError::BadType(location)) => ill_typed(alloc, location),
        Err(TypeError::TypeTooLarge | TypeError::RepeatedEntrypoint(_)) => ill_typed(alloc, 1),
        Err(TypeError::Memory) => Err(Memory),
    }
}

// The answer to the fields of `Pack`, where they are a type and a literal.
#[tactic(auto, using(crate::proofs::Fields::not_two))]
fn pack_fields(alloc: Global, fields: &Nodes) -> Result<Option<Answer>, Memory>
    requires { sizes (trees fields.now) + 1 < 2 ^ 32 }
    ensures { IfOk result (λ a. option_map answer_seen a ≡ pack_fields (nodes_of (trees fields.now))) }
{
    match fields.both() {
        Some((ty, literal)) => Ok(Some(pack_typed(alloc, ty, literal)?)),
        None => Ok(None),
    }
}

// The answer to an application of a name.
fn pack_by(alloc: Global, name: &[u8], fields: &Nodes) -> Result<Option<Answer>, Memory>
    requires { sizes (trees fields.now) + 1 < 2 ^ 32 }
    ensures { IfOk result (λ a. option_map answer_seen a ≡ pack_by name.now (nodes_of (trees fields.now))) }
{
    if name == b"Pack".as_slice() {
        pack_fields(alloc, fields)
    } else {
        Ok(None)
    }
}

/// The answer to a node that is `Pack type literal`: the bytes of PACK, or why there are none. None where the node hasn't this
/// form.
pub(crate) fn pack_node(alloc: Global, node: &Node) -> Result<Option<Answer>, Memory>
    requires { size (tree node.now) < 2 ^ 32 }
    ensures { IfOk result (λ a. option_map answer_seen a ≡ pack_node (tree node.now)) }
{
    let Node::Prim(app) = node else {
        return Ok(None);
    };
    if !app.annots.is_empty() {
        return Ok(None);
    }
    pack_by(alloc, app.name.as_slice(), &app.args)
}
