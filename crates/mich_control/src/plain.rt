// Applications without the annotations that have no effect.
ghost use Rattle.std.specs.Prelude.{◌≡◌, ◌∷◌, Some, IfOk};
ghost use Rattle.rules_text.specs.nodes.Tree.{prim};
ghost use Rattle.rules_text.specs.nodes.Primitives.{primitive_of_name};
ghost use Rattle.rules_data.specs.types.Entrypoints.{field_name};
ghost use Rattle.mich_base.specs.View.{app_tree, tree, trees};
ghost use Rattle.mich_instr.specs.Plain.{bare, bares, kept, naming};
ghost use Rattle.mich_control.specs.Kept.{is_named};

use mich_base::{App, Memory, Node, Nodes, Primitive, Text, Texts, primitive_of_name};
use mich_types::field_name;
use std::alloc::Global;

// The node without annotations.
#[cycle(bare)]
pub(crate) fn bare_node(alloc: Global, node: &Node) -> Result<Node, Memory>
    ensures { IfOk result (λ n. tree n ≡ bare (tree node.now)) }
{
    match node {
        Node::Int(n) => Ok(Node::Int(*n)),
        Node::Str(text) => Ok(Node::Str(text.copy(alloc)?)),
        Node::Bytes(bytes) => Ok(Node::Bytes(bytes.copy(alloc)?)),
        Node::Prim(app) => {
            let name = app.name.copy(alloc)?;
            let annots = Texts::new(alloc);
            let args = bare_nodes(alloc, &app.args)?;
            Ok(Node::Prim(App { name, annots, args }))
        }
        Node::Seq(nodes) => Ok(Node::Seq(bare_nodes(alloc, nodes)?)),
    }
}

#[tactic(auto, using(crate::proofs::Written::bares_whole))]
#[cycle(bare)]
pub(crate) fn bare_nodes(alloc: Global, nodes: &Nodes) -> Result<Nodes, Memory>
    ensures { IfOk result (λ ns. trees ns ≡ bares (trees nodes.now)) }
{
    let mut copies = Nodes::new(alloc);
    for node in nodes.as_slice() {
        copies.push(bare_node(alloc, node)?)?;
    }
    Ok(copies)
}

// The field annotation of a name.
fn annotation(alloc: Global, name: &[u8]) -> Result<Text, Memory>
    ensures { IfOk result (λ t. t ≡ 37 ∷ name.now) }
{
    let mut bytes = Vec::new(alloc);
    bytes.push(b'%')?;
    bytes.extend_from_slice(name)?;
    Text::from_vec(bytes)
}

// The annotation that gives a name, if one does.
pub(crate) fn naming(alloc: Global, annots: &Texts) -> Result<Texts, Memory>
    ensures { IfOk result (λ ts. ts ≡ naming (field_name annots.now)) }
{
    let mut kept = Texts::new(alloc);
    if let Some(name) = field_name(annots) {
        kept.push(annotation(alloc, name)?)?;
    }
    Ok(kept)
}

// Whether an annotation of this instruction has an effect.
fn is_named(primitive: Primitive) -> bool
    ensures { result ≡ is_named (Some primitive) }
{
    match primitive {
        Primitive::OpSelf | Primitive::OpContract | Primitive::OpEmit => true,
        _ => false,
    }
}

// The annotations of an instruction that have an effect.
#[tactic(auto, using(crate::proofs::Written::kept_is))]
fn kept_annots(alloc: Global, primitive: Primitive, annots: &Texts) -> Result<Texts, Memory>
    ensures { IfOk result (λ ts. ts ≡ kept (Some primitive) annots.now) }
{
    if is_named(primitive) {
        naming(alloc, annots)
    } else {
        Ok(Texts::new(alloc))
    }
}

// The annotations of an application that have an effect.
pub(crate) fn kept_annotations(alloc: Global, app: &App) -> Result<Texts, Memory>
    ensures { IfOk result (λ ts. ts ≡ kept (primitive_of_name app.now.name) app.now.annots) }
{
    match primitive_of_name(&app.name) {
        Some(primitive) => kept_annots(alloc, primitive, &app.annots),
        None => Ok(Texts::new(alloc)),
    }
}

// An application that has no bodies, as it is kept.
pub(crate) fn plain_app(alloc: Global, app: &App) -> Result<App, Memory>
    ensures { IfOk result (λ a. app_tree a ≡ prim app.now.name (kept (primitive_of_name app.now.name) app.now.annots) (bares (trees app.now.args))) }
{
    let name = app.name.copy(alloc)?;
    let annots = kept_annotations(alloc, app)?;
    let args = bare_nodes(alloc, &app.args)?;
    Ok(App { name, annots, args })
}
