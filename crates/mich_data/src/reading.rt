// Values from nodes.
ghost use Rattle.std.specs.Prelude.{◌+◌, ◌<◌, ◌^◌, IfOk};
ghost use Rattle.laws_data.specs.types.Laws.{IsWellFormed};
ghost use Rattle.rules_text.specs.nodes.Tree.{size};
ghost use Rattle.rules_data.specs.types.Kind as k;
ghost use Rattle.rules_data.specs.values.Literals.{read, read_simple};
ghost use Rattle.mich_base.specs.View.{tree};
ghost use Rattle.mich_base.specs.TypeView.{kind};
ghost use Rattle.mich_data.specs.Answers.{IsFound, IsLiteral};
ghost use Rattle.mich_data.specs.Whole.{IsWhole};
ghost use Rattle.mich_term.specs.Layers.{AreFormed};

use crate::error::ValueError;
use crate::pending::{Pending, Read};
use crate::simple::simple_value;
use mich_base::{Node, Rows, Shared, Ty};
use mich_instr::Body;
use mich_term::Value;
use rules_data::types::Simple;
use std::alloc::Global;

/// The value of a type that a node spells, with what is still to be tried of it, in pre-order: each body of a lambda and
/// each literal of a contract (Michelson reference, "Types", the literals of each). NotOfType has the location of the first
/// node that doesn't fit; for a key out of order it is its `Elt`, and for an element of a set that element. Memory where
/// there is no room for it.
pub fn read_value(alloc: Global, ty: &Ty, node: &Node) -> Result<Read, ValueError>
    requires { size (tree node.now) < 2 ^ 32 }
    ensures literal { IsLiteral (read (kind ty.now) 0 (tree node.now)) result }
    ensures whole { IfOk result (λ r. IsWhole (kind ty.now) r.value) }
    ensures formed { IfOk result (λ r. IsWellFormed (kind ty.now) → AreFormed r.value) }
{
    read_value_at(alloc, ty, node, 0)
}

/// The same of the node at a location, from which its locations are counted.
pub fn read_value_at(alloc: Global, ty: &Ty, node: &Node, at: u32) -> Result<Read, ValueError>
    requires { at + size (tree node.now) < 2 ^ 32 }
    ensures literal { IsLiteral (read (kind ty.now) at (tree node.now)) result }
    ensures whole { IfOk result (λ r. IsWhole (kind ty.now) r.value) }
    ensures formed { IfOk result (λ r. IsWellFormed (kind ty.now) → AreFormed r.value) }
{
    read_value_with(alloc, ty, node, at, Rows::new(alloc))
}

/// The same with bodies for its lambdas, in pre-order: each lambda gets the next of them, with its typed code, where that is of an
/// equal node.
pub fn read_value_with(
    alloc: Global,
    ty: &Ty,
    node: &Node,
    at: u32,
    bodies: Rows<Shared<Body>>,
) -> Result<Read, ValueError>
    requires { at + size (tree node.now) < 2 ^ 32 }
    ensures literal { IsLiteral (read (kind ty.now) at (tree node.now)) result }
    ensures whole { IfOk result (λ r. IsWhole (kind ty.now) r.value) }
    ensures formed { IfOk result (λ r. IsWellFormed (kind ty.now) → AreFormed r.value) }
{
    let mut reading = Reading {
        alloc,
        next: at,
        pending: Rows::new(alloc),
        bodies: last_first(bodies),
    };
    let value = reading.read(ty, node)?;
    Ok(Read {
        value,
        pending: reading.pending,
    })
}

// The same bodies from the last one on.
fn last_first(bodies: Rows<Shared<Body>>) -> Rows<Shared<Body>> {
    let mut items = bodies.into_vec();
    items.reverse();
    Rows::from_vec(items)
}

// How far reading is: the location of the node that is read next, what is still to be tried of those before it, and bodies for
// the lambdas to come, the last for the next one. Each method reads the node, or the nodes, at that location, and goes on behind
// them.
#[derive(Debug, Drop)]
pub(crate) struct Reading {
    pub(crate) alloc: Global,
    pub(crate) next: u32,
    pub(crate) pending: Rows<Pending>,
    pub(crate) bodies: Rows<Shared<Body>>,
}

impl Reading {
    #[cycle(read)]
    pub(crate) fn read(&mut self, ty: &Ty, node: &Node) -> Result<Value, ValueError>
        requires { self.old.next + size (tree node.now) < 2 ^ 32 }
        ensures found { IsFound (read (kind ty.now)) (tree node.now) self.old self.new result }
        ensures whole { IfOk result (λ v. IsWhole (kind ty.now) v) }
    {
        match ty {
            Ty::Unit => self.read_simple(Simple::Unit, node),
            Ty::Never => self.read_simple(Simple::Never, node),
            Ty::Bool => self.read_simple(Simple::Bool, node),
            Ty::Int => self.read_simple(Simple::Int, node),
            Ty::Nat => self.read_simple(Simple::Nat, node),
            Ty::String => self.read_simple(Simple::String, node),
            Ty::Bytes => self.read_simple(Simple::Bytes, node),
            Ty::Mutez => self.read_simple(Simple::Mutez, node),
            Ty::Timestamp => self.read_simple(Simple::Timestamp, node),
            Ty::Key => self.read_simple(Simple::Key, node),
            Ty::KeyHash => self.read_simple(Simple::KeyHash, node),
            Ty::Signature => self.read_simple(Simple::Signature, node),
            Ty::ChainId => self.read_simple(Simple::ChainId, node),
            Ty::Address => self.read_simple(Simple::Address, node),
            Ty::Option(part) => self.read_option(part.get(), node),
            Ty::Or(left, right) => self.read_or(left.get(), right.get(), node),
            Ty::Pair(first, second) => self.read_pair(first.get(), second.get(), node),
            Ty::List(part) => self.read_list(part.get(), node),
            Ty::Set(part) => self.read_set(part.get(), node),
            Ty::Map(key, value) => self.read_map(key.get(), value.get(), node),
            Ty::BigMap(key, value) => self.read_big_map(key.get(), value.get(), node),
            Ty::Lambda(arg, ret) => self.read_lambda(arg.get(), ret.get(), node),
            Ty::Contract(part) => self.read_contract(part.get(), node),
            Ty::Operation | Ty::Ticket(_) => Err(ValueError::NotOfType(self.next)),
        }
    }

    fn read_simple(&mut self, simple: Simple, node: &Node) -> Result<Value, ValueError>
        requires { self.old.next + size (tree node.now) < 2 ^ 32 }
        ensures found { IsFound (read_simple simple) (tree node.now) self.old self.new result }
        ensures whole { IfOk result (λ v. IsWhole (k.simple simple) v) }
    {
        let Some(value) = simple_value(self.alloc, simple, node)? else {
            return Err(ValueError::NotOfType(self.next));
        };
        self.next += 1;
        Ok(value)
    }
}
