// Numbers by which bodies are looked for.
use mich_base::{Node, Nodes, Ty};
use std::hash::{FoldHasher, Hasher};

// A number of a node as a body of these types, which most others don't have. What has the same is compared whole.
pub(crate) fn mark(arg: &Ty, ret: &Ty, recursive: bool, node: &Node) -> u64 {
    let mut hasher = FoldHasher::default();
    hasher.write_u8(u8::from(recursive));
    feed_type(&mut hasher, arg);
    feed_type(&mut hasher, ret);
    feed_node(&mut hasher, node);
    hasher.finish()
}

fn feed_type(hasher: &mut FoldHasher, ty: &Ty) {
    match ty {
        Ty::Unit => hasher.write_u8(0),
        Ty::Never => hasher.write_u8(1),
        Ty::Bool => hasher.write_u8(2),
        Ty::Int => hasher.write_u8(3),
        Ty::Nat => hasher.write_u8(4),
        Ty::String => hasher.write_u8(5),
        Ty::Bytes => hasher.write_u8(6),
        Ty::Mutez => hasher.write_u8(7),
        Ty::Timestamp => hasher.write_u8(8),
        Ty::Key => hasher.write_u8(9),
        Ty::KeyHash => hasher.write_u8(10),
        Ty::Signature => hasher.write_u8(11),
        Ty::ChainId => hasher.write_u8(12),
        Ty::Address => hasher.write_u8(13),
        Ty::Operation => hasher.write_u8(14),
        Ty::Option(x) => {
            hasher.write_u8(15);
            feed_type(hasher, x.get());
        }
        Ty::List(x) => {
            hasher.write_u8(16);
            feed_type(hasher, x.get());
        }
        Ty::Set(x) => {
            hasher.write_u8(17);
            feed_type(hasher, x.get());
        }
        Ty::Contract(x) => {
            hasher.write_u8(18);
            feed_type(hasher, x.get());
        }
        Ty::Ticket(x) => {
            hasher.write_u8(19);
            feed_type(hasher, x.get());
        }
        Ty::Or(x, y) => {
            hasher.write_u8(20);
            feed_type(hasher, x.get());
            feed_type(hasher, y.get());
        }
        Ty::Pair(x, y) => {
            hasher.write_u8(21);
            feed_type(hasher, x.get());
            feed_type(hasher, y.get());
        }
        Ty::Map(x, y) => {
            hasher.write_u8(22);
            feed_type(hasher, x.get());
            feed_type(hasher, y.get());
        }
        Ty::BigMap(x, y) => {
            hasher.write_u8(23);
            feed_type(hasher, x.get());
            feed_type(hasher, y.get());
        }
        Ty::Lambda(x, y) => {
            hasher.write_u8(24);
            feed_type(hasher, x.get());
            feed_type(hasher, y.get());
        }
    }
}

#[cycle(feed)]
fn feed_node(hasher: &mut FoldHasher, node: &Node) {
    match node {
        Node::Int(n) => {
            hasher.write_u8(0);
            hasher.write_i128(*n);
        }
        Node::Str(text) => {
            hasher.write_u8(1);
            hasher.write(text.as_slice());
        }
        Node::Bytes(bytes) => {
            hasher.write_u8(2);
            hasher.write(bytes.as_slice());
        }
        Node::Prim(app) => {
            hasher.write_u8(3);
            hasher.write(app.name.as_slice());
            feed_nodes(hasher, &app.args);
        }
        Node::Seq(nodes) => {
            hasher.write_u8(4);
            feed_nodes(hasher, nodes);
        }
    }
}

#[cycle(feed)]
fn feed_nodes(hasher: &mut FoldHasher, nodes: &Nodes) {
    hasher.write_usize(nodes.len());
    for node in nodes.as_slice() {
        feed_node(hasher, node);
    }
}
