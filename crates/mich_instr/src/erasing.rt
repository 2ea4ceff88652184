// Nodes from typed code.
ghost use Rattle.std.specs.Prelude.{◌≡◌, List, IfOk, codes};
ghost use Rattle.rules_text.specs.nodes.Tree.{Trees, prim, seq, none};
ghost use Rattle.rules_data.specs.types.Kind.{Kind};
ghost use Rattle.rules_data.specs.types.Printing.{named};
ghost use Rattle.rules_code.specs.instructions.Context.{Context};
ghost use Rattle.mich_base.specs.View.{app_tree, tree, trees};
ghost use Rattle.mich_instr.specs.Erased.{all_erased, and_last, erased, lambda_name, one, two};
ghost use Rattle.mich_instr.specs.Plain.{plain};
ghost use Rattle.mich_instr.specs.Typed.{AreCode};
ghost use Rattle.mich_instr.specs.View.{code};
ghost use Rattle.mich_instr.specs.View as view;

use crate::instr::Instr;
use mich_base::{App, Memory, Node, Nodes, Rows, Text, Texts, copy_node, copy_texts};
use mich_types::{application, bare, over_one, over_two};
use std::alloc::Global;

// Equal nodes.
fn copied(_alloc: Global, nodes: &Nodes) -> Result<Nodes, Memory>
    ensures { IfOk result (λ ns. ns ≡ nodes.now) }
{
    nodes.share()
}

// An equal application.
fn application_node(alloc: Global, app: &App) -> Result<Node, Memory>
    ensures { IfOk result (λ n. tree n ≡ app_tree app.now) }
{
    let name = app.name.copy(alloc)?;
    let annots = copy_texts(alloc, &app.annots)?;
    let args = copied(alloc, &app.args)?;
    Ok(Node::Prim(App { name, annots, args }))
}

fn push_node(alloc: Global, written: &Node, literal: &Node) -> Result<Node, Memory>
    ensures { IfOk result (λ n. tree n ≡ named (codes "PUSH") (two (tree written.now) (tree literal.now))) }
{
    let ty = copy_node(alloc, written)?;
    over_two(alloc, b"PUSH", ty, copy_node(alloc, literal)?)
}

// The application of a name to nodes and then one more.
fn over_last(alloc: Global, name: &[u8], nodes: &Nodes, last: Node) -> Result<Node, Memory>
    ensures { IfOk result (λ n. tree n ≡ named name.now (and_last (trees nodes.now) (tree last))) }
{
    let mut args = copied(alloc, nodes)?;
    args.push(last)?;
    let node = application(alloc, name, args)?;
    Ok(node)
}

fn lambda_node(alloc: Global, recursive: bool, written: &Nodes, body: &Node) -> Result<Node, Memory>
    ensures { IfOk result (λ n. tree n ≡ named (lambda_name recursive) (and_last (trees written.now) (tree body.now))) }
{
    let body = copy_node(alloc, body)?;
    if recursive {
        over_last(alloc, b"LAMBDA_REC", written, body)
    } else {
        over_last(alloc, b"LAMBDA", written, body)
    }
}

fn self_node(alloc: Global, annots: &Texts) -> Result<Node, Memory>
    ensures { IfOk result (λ n. tree n ≡ prim (codes "SELF") annots.now none) }
{
    let name = Text::from_slice(alloc, b"SELF")?;
    let annots = copy_texts(alloc, annots)?;
    let args = Nodes::new(alloc);
    Ok(Node::Prim(App { name, annots, args }))
}

fn origination_node(alloc: Global, script: &Node) -> Result<Node, Memory>
    ensures { IfOk result (λ n. tree n ≡ named (codes "CREATE_CONTRACT") (one (tree script.now))) }
{
    over_one(alloc, b"CREATE_CONTRACT", copy_node(alloc, script)?)
}

/// The node that typed code came from, without the annotations that have no effect (Michelson reference, "Annotations").
/// Memory where there is no room for it.
#[cycle(erase)]
pub fn erase(alloc: Global, code: &Rows<Instr>) -> Result<Node, Memory>
    ensures written { IfOk result (λ n. tree n ≡ seq (all_erased (view.codes code.now))) }
    ensures plain { (c : Context) (ts : Trees) (A B : List Kind) → AreCode c ts (view.codes code.now) A B → IfOk result (λ n. tree n ≡ plain (seq ts)) }
{
    let mut nodes = Nodes::new(alloc);
    for instr in code.as_slice() {
        nodes.push(erase_instr(alloc, instr)?)?;
    }
    Ok(Node::Seq(nodes))
}

#[cycle(erase)]
fn erase_instr(alloc: Global, instr: &Instr) -> Result<Node, Memory>
    ensures { IfOk result (λ n. tree n ≡ erased (code instr.now)) }
{
    match instr {
        Instr::Seq(block) => erase(alloc, block.get()),
        Instr::Straight(_, app) => application_node(alloc, app),
        Instr::Push {
            written,
            literal,
            ..
        } => push_node(alloc, written, literal),
        Instr::Dip { written, body, .. } => {
            over_last(alloc, b"DIP", written, erase(alloc, body.get())?)
        }
        Instr::Lambda {
            recursive,
            written,
            body,
            ..
        } => lambda_node(alloc, *recursive, written, body.get()),
        Instr::Exec { .. } => bare(alloc, b"EXEC"),
        Instr::Apply { .. } => bare(alloc, b"APPLY"),
        Instr::If(first, second) => {
            let one = erase(alloc, first.get())?;
            over_two(alloc, b"IF", one, erase(alloc, second.get())?)
        }
        Instr::IfNone(first, second) => {
            let one = erase(alloc, first.get())?;
            over_two(alloc, b"IF_NONE", one, erase(alloc, second.get())?)
        }
        Instr::IfLeft(first, second) => {
            let one = erase(alloc, first.get())?;
            over_two(alloc, b"IF_LEFT", one, erase(alloc, second.get())?)
        }
        Instr::IfCons(first, second) => {
            let one = erase(alloc, first.get())?;
            over_two(alloc, b"IF_CONS", one, erase(alloc, second.get())?)
        }
        Instr::Loop(body) => over_one(alloc, b"LOOP", erase(alloc, body.get())?),
        Instr::LoopLeft(body) => over_one(alloc, b"LOOP_LEFT", erase(alloc, body.get())?),
        Instr::Iter(body) => over_one(alloc, b"ITER", erase(alloc, body.get())?),
        Instr::Map(body) => over_one(alloc, b"MAP", erase(alloc, body.get())?),
        Instr::Failwith(_) => bare(alloc, b"FAILWITH"),
        Instr::Never => bare(alloc, b"NEVER"),
        Instr::SelfContract { annots, .. } => self_node(alloc, annots),
        Instr::CreateContract(script) => origination_node(alloc, &script.get().node),
    }
}
