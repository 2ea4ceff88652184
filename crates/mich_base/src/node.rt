// Nodes, and walks over them.
ghost use Rattle.std.specs.Prelude.{◌≡◌, ℕ, ◌+◌, ◌-◌, ◌<◌, ◌≤◌, ◌^◌, IfOk, nat_le, length, slice_get, option_map};
ghost use Rattle.rules_text.specs.nodes.Tree.{depth, depths, size, sizes, preorder, preorders};
ghost use Rattle.mich_base.specs.Walk.{room_left, look};
ghost use Rattle.mich_base.specs.View.{tree, trees, seen};

use crate::link::Share;
use crate::memory::Memory;
use crate::shared_rows::SharedRows;
use crate::text::{Bytes, Text, Texts};
use std::alloc::Global;

/// A node of Micheline: an integer, a string, bytes, an application of a primitive, or a sequence (Octez "Micheline").
#[derive(Debug, Drop, PartialEq, Eq)]
#[cycle(node)]
pub enum Node {
    Int(i128),
    Str(Text),
    Bytes(Bytes),
    Prim(App),
    Seq(Nodes),
}

/// An application of a name, which may be no primitive's, to arguments, with its annotations, each with its sign (Octez "Micheline").
#[derive(Debug, Drop, PartialEq, Eq)]
#[cycle(node)]
pub struct App {
    pub name: Text,
    pub annots: Texts,
    pub args: Nodes,
}

/// A list of nodes.
pub type Nodes = SharedRows<Node>;

/// Whether the depth of a node is at most this, where a root alone has depth 1.
#[cycle(depth)]
pub fn depth_within(node: &Node, limit: u32) -> bool
    ensures { result ≡ nat_le (depth (tree node.now)) limit }
{
    if limit == 0 {
        return false;
    }
    match node {
        Node::Int(_) | Node::Str(_) | Node::Bytes(_) => true,
        Node::Prim(app) => depths_within(&app.args, limit - 1),
        Node::Seq(nodes) => depths_within(nodes, limit - 1),
    }
}

#[cycle(depth)]
fn depths_within(nodes: &Nodes, limit: u32) -> bool
    ensures { result ≡ nat_le (depths (trees nodes.now)) limit }
{
    for node in nodes.as_slice() {
        if !depth_within(node, limit) {
            return false;
        }
    }
    true
}

/// Whether a node has at most so many nodes, with itself.
pub fn size_within(node: &Node, limit: u32) -> bool
    ensures { result ≡ nat_le (size (tree node.now)) limit }
{
    room_after(node, limit).is_some()
}

// What a node leaves of the room for nodes, if it fits there.
#[cycle(size)]
fn room_after(node: &Node, room: u32) -> Option<u32>
    ensures { result ≡ room_left (size (tree node.now)) room }
{
    let room = room.checked_sub(1)?;
    match node {
        Node::Int(_) | Node::Str(_) | Node::Bytes(_) => Some(room),
        Node::Prim(app) => room_after_all(&app.args, room),
        Node::Seq(nodes) => room_after_all(nodes, room),
    }
}

#[cycle(size)]
fn room_after_all(nodes: &Nodes, room: u32) -> Option<u32>
    ensures { result ≡ room_left (sizes (trees nodes.now)) room }
{
    let mut left = room;
    for node in nodes.as_slice() {
        left = room_after(node, left)?;
    }
    Some(left)
}

// A node that was looked for, or how many places are still to go.
enum Found<'a> {
    Here(&'a Node),
    Past(u32),
}

/// The node at a location, counted in pre-order from 0 at this node (Octez "Micheline"). None where there is no such location.
#[tactic(auto, using(crate::proofs::Look::get_look))]
pub fn at(node: &Node, location: u32) -> Option<&Node>
    ensures { option_map (λ n. tree n.now) result ≡ slice_get (preorder (tree node.now)) location }
{
    match find(node, location) {
        Found::Here(n) => Some(n),
        Found::Past(_) => None,
    }
}

#[cycle(find)]
fn find(node: &Node, place: u32) -> Found<'_>
    ensures { seen result ≡ look (preorder (tree node.now)) place }
{
    if place == 0 {
        return Found::Here(node);
    }
    match node {
        Node::Int(_) | Node::Str(_) | Node::Bytes(_) => Found::Past(place - 1),
        Node::Prim(app) => find_in(&app.args, place - 1),
        Node::Seq(nodes) => find_in(nodes, place - 1),
    }
}

#[cycle(find)]
fn find_in(nodes: &Nodes, place: u32) -> Found<'_>
    ensures { seen result ≡ look (preorders (trees nodes.now)) place }
{
    let mut left = place;
    for node in nodes.as_slice() {
        match find(node, left) {
            Found::Here(n) => return Found::Here(n),
            Found::Past(more) => left = more,
        }
    }
    Found::Past(left)
}

impl Share for Node {
    fn share(&self, alloc: Global) -> Result<Node, Memory> {
        copy_node(alloc, self)
    }
}

/// An equal node, in constant time. Memory where there is no room for it.
pub fn copy_node(alloc: Global, node: &Node) -> Result<Node, Memory>
    ensures { IfOk result (λ n. n ≡ node.now) }
{
    match node {
        Node::Int(n) => Ok(Node::Int(*n)),
        Node::Str(text) => Ok(Node::Str(text.copy(alloc)?)),
        Node::Bytes(bytes) => Ok(Node::Bytes(bytes.copy(alloc)?)),
        Node::Prim(app) => Ok(Node::Prim(copy_app(alloc, app)?)),
        Node::Seq(nodes) => Ok(Node::Seq(nodes.share()?)),
    }
}

fn copy_app(alloc: Global, app: &App) -> Result<App, Memory>
    ensures { IfOk result (λ a. a ≡ app.now) }
{
    let name = app.name.copy(alloc)?;
    let annots = app.annots.share()?;
    let args = app.args.share()?;
    Ok(App { name, annots, args })
}

/// Equal texts, in constant time. Memory where there is no room for them.
pub fn copy_texts(_alloc: Global, texts: &Texts) -> Result<Texts, Memory>
    ensures { IfOk result (λ ts. ts ≡ texts.now) }
{
    texts.share()
}

const _: () = prove!(size_of::<Nodes>() == 16);

const _: () = prove!(size_of::<Node>() == 64);
