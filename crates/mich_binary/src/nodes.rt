// Nodes.
ghost use Rattle.std.specs.Prelude.{◌≡◌, slice_get, length};
ghost use Rattle.rules_text.specs.binary.Reading.{tags_in_order, tag_at, name_at, arguments_at, nodes_within, nodes_at, application_at, many_at, node_by, node_at};
ghost use Rattle.rules_text.specs.nodes.Tree.{prim};
ghost use Rattle.mich_base.specs.View.{tree, trees};
ghost use Rattle.mich_binary.specs.Results.{Gives, spot, node_seen, nodes_seen};

use crate::cursor::Cursor;
use crate::errors::DecodeError;
use crate::fields::{
    any_annotations_at, byte_at, bytes_at, field_at, short_annotations_at, string_at,
};
use crate::integer::integer_at;
use mich_base::{App, Node, Nodes, Rows, Text, Texts, prim_name};
use rules_text::binary::{DecodeKind, Tag};
use std::alloc::Global;

// Each tag stands at its byte.
static TAGS: [Tag; 11] = [
    Tag::Integer,
    Tag::Text,
    Tag::Sequence,
    Tag::Alone,
    Tag::AloneAnnotated,
    Tag::One,
    Tag::OneAnnotated,
    Tag::Two,
    Tag::TwoAnnotated,
    Tag::Many,
    Tag::Bytes,
];

fn tag_in(table: &[Tag], index: usize) -> Option<Tag>
    ensures { result ≡ slice_get table.now index }
{
    table.get(index).copied()
}

#[tactic(auto, unfolding(rules_text::specs::binary::Reading::tags_in_order))]
fn tag_of(byte: u8) -> Option<Tag>
    ensures { result ≡ slice_get tags_in_order byte }
{
    tag_in(&TAGS, byte as usize)
}

#[tactic(auto, unfolding(rules_text::specs::binary::Reading::tag_at))]
fn tag_at(cursor: Cursor<'_>) -> Result<(Tag, Cursor<'_>), DecodeError>
    ensures { Gives (λ x. (x.0, spot x.1)) result (tag_at (spot cursor.entry)) }
{
    let (byte, after) = byte_at(cursor)?;
    match tag_of(byte) {
        Some(tag) => Ok((tag, after)),
        None => Err(DecodeError::Fault(DecodeKind::BadTag, cursor.place)),
    }
}

#[tactic(auto, unfolding(rules_text::specs::binary::Reading::name_at))]
fn name_at(alloc: Global, cursor: Cursor<'_>) -> Result<(Text, Cursor<'_>), DecodeError>
    ensures { Gives (λ x. (x.0, spot x.1)) result (name_at (spot cursor.entry)) }
{
    let (code, after) = byte_at(cursor)?;
    match prim_name(code) {
        Some(name) => Ok((Text::from_slice(alloc, name.as_bytes())?, after)),
        None => Err(DecodeError::Fault(DecodeKind::BadPrim, cursor.place)),
    }
}

fn application(name: Text, annots: Texts, args: Nodes) -> Node
    ensures { tree result ≡ prim name annots (trees args) }
{
    Node::Prim(App { name, annots, args })
}

// A node with at most so many levels.
#[cycle(node)]
#[tactic(auto, using(crate::proofs::Levels::no_levels, crate::proofs::Levels::one_level))]
pub fn node_at(
    alloc: Global,
    levels: u32,
    cursor: Cursor<'_>,
) -> Result<(Node, Cursor<'_>), DecodeError>
    ensures { Gives node_seen result (node_at levels (spot cursor.entry)) }
{
    let (tag, after) = tag_at(cursor)?;
    if levels == 0 {
        return Err(DecodeError::Fault(DecodeKind::TooDeep, cursor.place));
    }
    node_by(alloc, levels - 1, tag, cursor.place, after)
}

// A node behind its tag, which stood at this place; those in it have at most so many levels.
#[cycle(node)]
#[tactic(auto, unfolding(rules_text::specs::binary::Reading::node_by))]
fn node_by(
    alloc: Global,
    levels: u32,
    tag: Tag,
    place: u64,
    cursor: Cursor<'_>,
) -> Result<(Node, Cursor<'_>), DecodeError>
    ensures { Gives node_seen result (node_by (node_at levels) tag place (spot cursor.entry)) }
{
    match tag {
        Tag::Integer => {
            let (number, after) = integer_at(cursor)?;
            Ok((Node::Int(number), after))
        }
        Tag::Text => {
            let (text, after) = string_at(alloc, cursor)?;
            Ok((Node::Str(text), after))
        }
        Tag::Bytes => {
            let (bytes, after) = bytes_at(alloc, cursor)?;
            Ok((Node::Bytes(bytes), after))
        }
        Tag::Sequence => {
            let (nodes, after) = nodes_at(alloc, levels, cursor)?;
            Ok((Node::Seq(nodes), after))
        }
        Tag::Alone => application_at(alloc, levels, 0, false, cursor),
        Tag::AloneAnnotated => application_at(alloc, levels, 0, true, cursor),
        Tag::One => application_at(alloc, levels, 1, false, cursor),
        Tag::OneAnnotated => application_at(alloc, levels, 1, true, cursor),
        Tag::Two => application_at(alloc, levels, 2, false, cursor),
        Tag::TwoAnnotated => application_at(alloc, levels, 2, true, cursor),
        Tag::Many => many_at(alloc, levels, place, cursor),
    }
}

// An application behind its tag: a code, so many arguments, and annotations where the tag says so.
#[cycle(node)]
#[tactic(auto, unfolding(rules_text::specs::binary::Reading::application_at))]
fn application_at(
    alloc: Global,
    levels: u32,
    count: u8,
    annotated: bool,
    cursor: Cursor<'_>,
) -> Result<(Node, Cursor<'_>), DecodeError>
    ensures { Gives node_seen result (application_at (node_at levels) count annotated (spot cursor.entry)) }
{
    let (name, after_name) = name_at(alloc, cursor)?;
    let (args, after_args) = arguments_at(alloc, levels, count, after_name)?;
    let (annots, after) = short_annotations_at(alloc, annotated, after_args)?;
    Ok((application(name, annots, args), after))
}

// An application of three or more arguments behind its tag, which stood at this place.
#[cycle(node)]
#[tactic(auto, unfolding(rules_text::specs::binary::Reading::many_at), using(crate::proofs::Levels::count_is))]
fn many_at(
    alloc: Global,
    levels: u32,
    place: u64,
    cursor: Cursor<'_>,
) -> Result<(Node, Cursor<'_>), DecodeError>
    ensures { Gives node_seen result (many_at (node_at levels) place (spot cursor.entry)) }
{
    let (name, after_name) = name_at(alloc, cursor)?;
    let (args, after_args) = nodes_at(alloc, levels, after_name)?;
    if args.len() < 3 {
        return Err(DecodeError::Fault(DecodeKind::BadTag, place));
    }
    let (annots, after) = any_annotations_at(alloc, after_args)?;
    Ok((application(name, annots, args), after))
}

// So many nodes, one behind the other.
#[cycle(node)]
fn arguments_at(
    alloc: Global,
    levels: u32,
    count: u8,
    cursor: Cursor<'_>,
) -> Result<(Nodes, Cursor<'_>), DecodeError>
    ensures { Gives nodes_seen result (arguments_at (node_at levels) count (spot cursor.entry)) }
{
    let mut nodes = Nodes::new(alloc);
    let mut here = cursor;
    for _ in 0..count {
        let (node, after) = node_at(alloc, levels, here)?;
        nodes.push(node)?;
        here = after;
    }
    Ok((nodes, here))
}

// A field of nodes.
#[cycle(node)]
#[tactic(auto, unfolding(rules_text::specs::binary::Reading::nodes_at))]
fn nodes_at(
    alloc: Global,
    levels: u32,
    cursor: Cursor<'_>,
) -> Result<(Nodes, Cursor<'_>), DecodeError>
    ensures { Gives nodes_seen result (nodes_at (node_at levels) (spot cursor.entry)) }
{
    let (field, after) = field_at(cursor)?;
    let (nodes, _) = nodes_within(alloc, levels, field)?;
    Ok((nodes, after))
}

// Nodes one behind the other up to the end of a field. Each takes a byte or more, so there are no more
// of them than bytes.
#[cycle(node)]
fn nodes_within(
    alloc: Global,
    levels: u32,
    field: Cursor<'_>,
) -> Result<(Nodes, Cursor<'_>), DecodeError>
    ensures { Gives nodes_seen result (nodes_within (node_at levels) (length field.entry.left.now) (spot field.entry)) }
{
    let mut nodes = Nodes::new(alloc);
    let mut here = field;
    for _ in 0..field.left.len() {
        if here.left.is_empty() {
            return Ok((nodes, here));
        }
        let (node, after) = node_at(alloc, levels, here)?;
        nodes.push(node)?;
        here = after;
    }
    Ok((nodes, here))
}
