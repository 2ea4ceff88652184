// What a section is.
ghost use Rattle.std.specs.Prelude.{◌≡◌, ◌+◌, ◌<◌, ◌^◌, ◌∷◌, [], MatchOption, Some};
ghost use Rattle.rules_text.specs.nodes.Primitives.{primitive_of_name};
ghost use Rattle.rules_text.specs.nodes.Tree.{Tree, size, sizes};
ghost use Rattle.rules_text.specs.declared.nodes.Primitive.TheVariants as p;
ghost use Rattle.rules_code.specs.typing.Nodes.{bodies, body, inner_bodies};
ghost use Rattle.rules_code.specs.typing.Sections.{content_at, content_of};
ghost use Rattle.mich_base.specs.View.{tree, trees};
ghost use Rattle.mich_outline.specs.Counted.{IsNotFour, is_sequence};
ghost use Rattle.mich_outline.specs.View.{content_seen, kind_of, whole_view};

use crate::arguments::is_view_name;
use crate::placed::Placed;
use mich_base::{Node, Nodes, Primitive, Text, primitive_of_name};
use mich_types::behind;

// What a section is: `parameter t` whole, `storage t` by its type, `code { }` by its body, `view "name" t u { }`.
#[derive(Clone, Copy)]
pub(crate) enum Content<'a> {
    Parameter(Placed<'a>),
    Storage(Placed<'a>),
    Code(Placed<'a>),
    View(WrittenView<'a>),
}

// A view as it is written.
#[derive(Clone, Copy)]
pub(crate) struct WrittenView<'a> {
    pub(crate) name: &'a Text,
    pub(crate) input: Placed<'a>,
    pub(crate) output: Placed<'a>,
    pub(crate) body: Placed<'a>,
}

// The kind of a section.
#[derive(Clone, Copy)]
pub(crate) enum SectionKind {
    Parameter,
    Storage,
    Code,
    View,
}

// What the node at a location is as a section; none where it is no section.
pub(crate) fn content_at(node: &Node, at: u32) -> Option<Content<'_>>
    requires { at + size (tree node.now) < 2 ^ 32 }
    ensures { content_seen result ≡ content_at at (tree node.now) (inner_bodies (tree node.now) at) }
{
    let Node::Prim(app) = node else {
        return None;
    };
    match kind_of_name(&app.name)? {
        SectionKind::Parameter => parameter_content(node, &app.args, at),
        SectionKind::Storage => storage_content(&app.args, at),
        SectionKind::Code => code_content(&app.args, at),
        SectionKind::View => view_content(&app.args, at),
    }
}

// The kind of the sections of a name.
fn kind_of_name(name: &Text) -> Option<SectionKind>
    ensures { result ≡ kind_of (primitive_of_name name.now) }
{
    kind_of(primitive_of_name(name)?)
}

fn kind_of(primitive: Primitive) -> Option<SectionKind>
    ensures { result ≡ kind_of (Some primitive) }
{
    match primitive {
        Primitive::SectionParameter => Some(SectionKind::Parameter),
        Primitive::SectionStorage => Some(SectionKind::Storage),
        Primitive::SectionCode => Some(SectionKind::Code),
        Primitive::SectionView => Some(SectionKind::View),
        _ => None,
    }
}

// The whole section, where it has one argument.
#[tactic(auto, using(crate::proofs::SectionArguments::no_parameter))]
fn parameter_content<'a>(section: &'a Node, args: &Nodes, at: u32) -> Option<Content<'a>>
    requires { at + size (tree section.now) < 2 ^ 32 }
    ensures { content_seen result ≡ content_of (Some p.SectionParameter) at (tree section.now) (trees args.now) (bodies (trees args.now) (at + 1)) }
{
    args.only()?;
    Some(Content::Parameter(Placed { at, node: section }))
}

// The type of the storage, where there is one argument.
#[tactic(auto, using(crate::proofs::SectionArguments::no_storage))]
fn storage_content(args: &Nodes, at: u32) -> Option<Content<'_>>
    requires { at + 1 + sizes (trees args.now) < 2 ^ 32 }
    ensures { (t : Tree) → content_seen result ≡ content_of (Some p.SectionStorage) at t (trees args.now) (bodies (trees args.now) (at + 1)) }
{
    let node = args.only()?;
    Some(Content::Storage(Placed { at: at + 1, node }))
}

// The code, where there is one argument and it is a sequence.
#[tactic(auto, using(crate::proofs::SectionArguments::no_code))]
fn code_content(args: &Nodes, at: u32) -> Option<Content<'_>>
    requires { at + 1 + sizes (trees args.now) < 2 ^ 32 }
    ensures { (t : Tree) → content_seen result ≡ content_of (Some p.SectionCode) at t (trees args.now) (bodies (trees args.now) (at + 1)) }
{
    let node = args.only()?;
    if !is_sequence(node) {
        return None;
    }
    Some(Content::Code(Placed { at: at + 1, node }))
}

// The view, where there are a name, two types and a sequence.
fn view_content(args: &Nodes, at: u32) -> Option<Content<'_>>
    requires { at + 1 + sizes (trees args.now) < 2 ^ 32 }
    ensures { (t : Tree) → content_seen result ≡ content_of (Some p.SectionView) at t (trees args.now) (bodies (trees args.now) (at + 1)) }
{
    let (first, input, output, body) = four(args)?;
    let Node::Str(name) = first else {
        return None;
    };
    if !is_sequence(body) {
        return None;
    }
    named_content(name, input, output, body, at)
}

// The view of a name, where it is one of a view.
fn named_content<'a>(
    name: &'a Text,
    input: &'a Node,
    output: &'a Node,
    code: &'a Node,
    at: u32,
) -> Option<Content<'a>>
    requires { at + 2 + size (tree input.now) + size (tree output.now) + size (tree code.now) < 2 ^ 32 }
    ensures { content_seen result ≡ whole_view at name.now (tree input.now) (tree output.now) (tree code.now) }
{
    if !is_view_name(name.as_slice()) {
        return None;
    }
    let output_at = behind(input, at + 2);
    let body_at = behind(output, output_at);
    Some(Content::View(WrittenView {
        name,
        input: Placed {
            at: at + 2,
            node: input,
        },
        output: Placed {
            at: output_at,
            node: output,
        },
        body: Placed {
            at: body_at,
            node: code,
        },
    }))
}

fn is_sequence(node: &Node) -> bool
    ensures { result ≡ is_sequence (tree node.now) }
{
    matches!(node, Node::Seq(_))
}

// The four nodes, where there are just four.
fn four(nodes: &Nodes) -> Option<(&Node, &Node, &Node, &Node)>
    ensures { MatchOption result (IsNotFour nodes.now) (λ p. nodes.now ≡ p.0.now ∷ p.1.now ∷ p.2.now ∷ p.3.now ∷ []) }
{
    match nodes.as_slice() {
        [a, b, c, d] => Some((a, b, c, d)),
        _ => None,
    }
}
