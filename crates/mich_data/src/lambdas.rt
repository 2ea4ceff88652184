// Lambdas and contracts from nodes, with what is still to be tried of them.
ghost use Rattle.std.specs.Prelude.{◌≡◌, ◌+◌, ◌<◌, ◌^◌, false, true, IfOk, MatchOption};
ghost use Rattle.rules_text.specs.nodes.Tree.{size};
ghost use Rattle.rules_data.specs.types.Kind as k;
ghost use Rattle.rules_data.specs.forms.Spelling.{is_address};
ghost use Rattle.rules_data.specs.values.Literals.{read_body, read_contract, read_lambda};
ghost use Rattle.mich_base.specs.View.{tree};
ghost use Rattle.mich_base.specs.TypeView.{kind};
ghost use Rattle.mich_forms.specs.Spelled.{address_bytes};
ghost use Rattle.mich_data.specs.Answers.{IsFound};
ghost use Rattle.mich_data.specs.Whole.{IsWhole};

use crate::error::ValueError;
use crate::pending::Pending;
use crate::reading::Reading;
use crate::words::{Word, word_of_name};
use mich_base::{Memory, Node, Rows, Shared, Ty, copy_node, copy_type};
use mich_forms::Address;
use mich_instr::{Body, same_node};
use mich_term::Value;
use mich_types::behind;
use std::alloc::Global;

impl Reading {
    pub(crate) fn read_lambda(
        &mut self,
        arg: &Ty,
        ret: &Ty,
        node: &Node,
    ) -> Result<Value, ValueError>
        requires { self.old.next + size (tree node.now) < 2 ^ 32 }
        ensures found { IsFound (read_lambda (kind arg.now) (kind ret.now)) (tree node.now) self.old self.new result }
        ensures whole { IfOk result (λ v. IsWhole (k.lambda (kind arg.now) (kind ret.now)) v) }
    {
        let Node::Prim(app) = node else {
            return self.read_body(arg, ret, false, node);
        };
        let Some(body) = app.args.only() else {
            return Err(ValueError::NotOfType(self.next));
        };
        match word_of_name(&app.name) {
            Word::Recursive => {
                self.next += 1;
                self.read_body(arg, ret, true, body)
            }
            _ => Err(ValueError::NotOfType(self.next)),
        }
    }

    // The body of a lambda, which is kept as it is written.
    fn read_body(
        &mut self,
        arg: &Ty,
        ret: &Ty,
        recursive: bool,
        node: &Node,
    ) -> Result<Value, ValueError>
        requires { self.old.next + size (tree node.now) < 2 ^ 32 }
        ensures found { IsFound (read_body (kind arg.now) (kind ret.now) recursive) (tree node.now) self.old self.new result }
        ensures whole { IfOk result (λ v. IsWhole (k.lambda (kind arg.now) (kind ret.now)) v) }
    {
        let Node::Seq(_) = node else {
            return Err(ValueError::NotOfType(self.next));
        };
        let body = body_of(self.alloc, &mut self.bodies, node)?;
        let pending = Pending::Body {
            location: self.next,
            arg: copy_type(self.alloc, arg)?,
            ret: copy_type(self.alloc, ret)?,
            recursive,
            node: copy_node(self.alloc, node)?,
        };
        self.pending.push(pending)?;
        self.next = behind(node, self.next);
        Ok(Value::Lambda(body, recursive))
    }

    pub(crate) fn read_contract(&mut self, ty: &Ty, node: &Node) -> Result<Value, ValueError>
        requires { self.old.next + size (tree node.now) < 2 ^ 32 }
        ensures found { IsFound (read_contract (kind ty.now)) (tree node.now) self.old self.new result }
        ensures whole { IfOk result (λ v. IsWhole (k.contract (kind ty.now)) v) }
    {
        let Node::Bytes(bytes) = node else {
            return Err(ValueError::NotOfType(self.next));
        };
        let Some(address) = address_of(bytes.as_slice()) else {
            return Err(ValueError::NotOfType(self.next));
        };
        let value = Value::Bytes(bytes.copy(self.alloc)?);
        let claim = Pending::Claim {
            location: self.next,
            address,
            ty: copy_type(self.alloc, ty)?,
        };
        self.pending.push(claim)?;
        self.next += 1;
        Ok(value)
    }
}

// The last of these bodies, which is taken, where it is of an equal node, or else one without typed code.
fn body_of(
    alloc: Global,
    bodies: &mut Rows<Shared<Body>>,
    node: &Node,
) -> Result<Shared<Body>, Memory>
    ensures { IfOk result (λ b. b ≡ node.now) }
{
    if let Some(body) = bodies.pop() {
        if same_node(body.get().node(), node) {
            return Ok(body);
        }
    }
    let kept = Shared::new(alloc, copy_node(alloc, node)?)?;
    Body::plain(alloc, kept)
}

#[tactic(auto, using(crate::proofs::Spellings::addressed))]
fn address_of(bytes: &[u8]) -> Option<Address>
    ensures { MatchOption result (is_address bytes.now ≡ false)
        (λ a. (is_address bytes.now ≡ true) × (address_bytes a ≡ bytes.now)) }
{
    Address::read(bytes)
}
