// Fields, types and comparable values behind what was written.
ghost use Rattle.std.specs.Prelude.{◌≡◌, ◌++◌, map, OnOk};
ghost use Rattle.std.specs.Int.{w32, w64, w128, to_be_bytes};
ghost use Rattle.rules_text.specs.binary.Spelling.{field};
ghost use Rattle.rules_text.specs.nodes.Tree.{preorder, preorders};
ghost use Rattle.rules_code.specs.evaluation.Contracts.{hash_in};
ghost use Rattle.rules_files.specs.snapshots.Spelling.{code_of_node, eight, four, identity_spelling, kind_spelling, mark, price_spelling, signed, value_spelling};
ghost use Rattle.mich_base.specs.TypeView.{kind};
ghost use Rattle.mich_base.specs.View.{tree, trees};
ghost use Rattle.mich_forms.specs.Spelled.{place_bytes};
ghost use Rattle.mich_gas.specs.View.{seen_price};
ghost use Rattle.mich_term.specs.TicketView.{identity};
ghost use Rattle.mich_term.specs.View.{datum};

use mich_base::{Memory, Node, Nodes, Ty, prim_code};
use mich_forms::Place;
use mich_gas::Price;
use mich_term::{Datum, TicketId};
use mich_types::type_node;
use std::alloc::Global;

/// Puts bytes behind others. Memory where there is no room for them; so it is with each function of this module.
pub fn put(out: &mut Vec<u8>, bytes: &[u8]) -> Result<(), Memory>
    ensures { OnOk result (out.new.items ≡ out.old.items ++ bytes.now) }
{
    out.extend_from_slice(bytes)?;
    Ok(())
}

/// Four bytes, the most significant one first.
pub fn put_four(out: &mut Vec<u8>, number: u32) -> Result<(), Memory>
    ensures { OnOk result (out.new.items ≡ out.old.items ++ four number) }
{
    put(out, &number.to_be_bytes())
}

/// Eight bytes, the most significant one first.
pub fn put_eight(out: &mut Vec<u8>, number: u64) -> Result<(), Memory>
    ensures { OnOk result (out.new.items ≡ out.old.items ++ eight number) }
{
    put(out, &number.to_be_bytes())
}

/// Eight bytes in two's complement, the most significant one first.
pub fn put_signed_eight(out: &mut Vec<u8>, number: i64) -> Result<(), Memory>
    ensures { OnOk result (out.new.items ≡ out.old.items ++ signed w64 number) }
{
    put(out, &number.to_be_bytes())
}

/// Sixteen bytes in two's complement, the most significant one first.
pub fn put_signed_sixteen(out: &mut Vec<u8>, number: i128) -> Result<(), Memory>
    ensures { OnOk result (out.new.items ≡ out.old.items ++ signed w128 number) }
{
    put(out, &number.to_be_bytes())
}

/// A byte, 1 or 0.
pub fn put_mark(out: &mut Vec<u8>, marked: bool) -> Result<(), Memory>
    ensures { OnOk result (out.new.items ≡ out.old.items ++ mark marked) }
{
    if marked {
        put(out, &[1])
    } else {
        put(out, &[0])
    }
}

// The lowest four bytes of a length.
fn put_length(out: &mut Vec<u8>, length: usize) -> Result<(), Memory>
    ensures { OnOk result (out.new.items ≡ out.old.items ++ to_be_bytes w32 length) }
{
    let bytes = (length as u64).to_be_bytes();
    put(out, &bytes[4..])
}

/// Four bytes of length, and the bytes. Of a length past 2^32-1 the lowest four bytes are put.
#[tactic(auto, using(crate::proofs::Writings::put_both), unfolding(rules_text::specs::binary::Spelling::field))]
pub fn put_field(out: &mut Vec<u8>, content: &[u8]) -> Result<(), Memory>
    ensures { OnOk result (out.new.items ≡ out.old.items ++ field content.now) }
{
    put_length(out, content.len())?;
    put(out, content)
}

/// The price of a kind of costs: its base and its coefficient.
#[tactic(auto, using(crate::proofs::Writings::put_both))]
pub fn put_price(out: &mut Vec<u8>, price: &Price) -> Result<(), Memory>
    ensures { OnOk result (out.new.items ≡ out.old.items ++ price_spelling (seen_price price.now)) }
{
    put_four(out, price.base)?;
    put_four(out, price.coefficient)
}

/// A comparable value, as its type reads it; it recurses no deeper than the value.
#[tactic(auto, using(crate::proofs::Writings::put_both))]
#[cycle(put)]
pub fn put_datum(out: &mut Vec<u8>, value: &Datum) -> Result<(), Memory>
    ensures { OnOk result (out.new.items ≡ out.old.items ++ value_spelling (datum value.now)) }
{
    match value {
        Datum::Unit => put(out, &[]),
        Datum::Bool(truth) => put_mark(out, *truth),
        Datum::Number(number) => put_signed_sixteen(out, *number),
        Datum::Text(text) => put_field(out, text.as_slice()),
        Datum::Bytes(bytes) => put_field(out, bytes.as_slice()),
        Datum::None => put_mark(out, false),
        Datum::Some(part) | Datum::Right(part) => put_marked(out, true, part.get()),
        Datum::Left(part) => put_marked(out, false, part.get()),
        Datum::Pair(first, second) => {
            put_datum(out, first.get())?;
            put_datum(out, second.get())
        }
    }
}

#[tactic(auto, using(crate::proofs::Writings::put_both))]
#[cycle(put)]
fn put_marked(out: &mut Vec<u8>, marked: bool, part: &Datum) -> Result<(), Memory>
    ensures { OnOk result (out.new.items ≡ out.old.items ++ (mark marked ++ value_spelling (datum part.now))) }
{
    put_mark(out, marked)?;
    put_datum(out, part)
}

// The codes of the names in a node, in pre-order; 0 where there is none.
#[tactic(auto, using(crate::proofs::Writings::put_both))]
#[cycle(codes)]
fn put_codes(out: &mut Vec<u8>, node: &Node) -> Result<(), Memory>
    ensures { OnOk result (out.new.items ≡ out.old.items ++ map code_of_node (preorder (tree node.now))) }
{
    match node {
        Node::Prim(app) => {
            put(out, &[prim_code(&app.name).unwrap_or(0)])?;
            put_all_codes(out, &app.args)
        }
        Node::Seq(nodes) => {
            put(out, &[0])?;
            put_all_codes(out, nodes)
        }
        _ => put(out, &[0]),
    }
}

#[cycle(codes)]
fn put_all_codes(out: &mut Vec<u8>, nodes: &Nodes) -> Result<(), Memory>
    ensures { OnOk result (out.new.items ≡ out.old.items ++ map code_of_node (preorders (trees nodes.now))) }
{
    for node in nodes.as_slice() {
        put_codes(out, node)?;
    }
    Ok(())
}

/// A type, by the codes of the names in its node, in pre-order.
pub fn put_type(alloc: Global, out: &mut Vec<u8>, ty: &Ty) -> Result<(), Memory>
    ensures { OnOk result (out.new.items ≡ out.old.items ++ kind_spelling (kind ty.now)) }
{
    let node = type_node(alloc, ty)?;
    put_codes(out, &node)
}

/// The 20 bytes of a contract's place, behind its tag.
pub fn put_issuer(out: &mut Vec<u8>, issuer: &Place) -> Result<(), Memory>
    ensures { OnOk result (out.new.items ≡ out.old.items ++ hash_in (place_bytes issuer.now)) }
{
    let bytes = issuer.bytes();
    put(out, &bytes.as_slice()[1..21])
}

/// A ticket: its issuer, its type and its content.
#[tactic(auto, using(crate::proofs::Writings::put_three))]
pub fn put_identity(alloc: Global, out: &mut Vec<u8>, id: &TicketId) -> Result<(), Memory>
    ensures { OnOk result (out.new.items ≡ out.old.items ++ identity_spelling (identity id.now)) }
{
    put_issuer(out, &id.issuer)?;
    put_type(alloc, out, &id.ty)?;
    put_datum(out, &id.content)
}
