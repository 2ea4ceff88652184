// Bodies of lambdas with their typed code.
ghost use Rattle.std.specs.Prelude.{◌≡◌, ◌++◌, IfOk, IfSome, map};
ghost use Rattle.mich_base.specs.View.{tree};
ghost use Rattle.mich_instr.specs.Body.{AllHeld, IsBody, IsHeld, bodies_if, bodies_in, body_of};
ghost use Rattle.mich_instr.specs.View.{code, codes};

use crate::instr::{Block, Instr};
use mich_base::{Memory, Node, Rows, Shared, Ty, copy_type, same_type};
use std::alloc::Global;
use std::fmt;
use std::marker::Model;

// The types of the argument and the result, whether the lambda is recursive, and the typed code of the body as that.
#[derive(Drop)]
struct Typed {
    arg: Ty,
    ret: Ty,
    recursive: bool,
    code: Block,
}

/// The body of a lambda: its node, and the typed code of the node where it is known (Michelson reference, "LAMBDA" and
/// "LAMBDA_REC"). Contracts see the node.
#[derive(Drop)]
pub struct Body {
    node: Shared<Node>,
    typed: Option<Typed>,
}

impl Model for Body {
    ghost use Rattle.std.specs.Prelude.{IfSome};
    ghost use Rattle.mich_base.specs.declared.node.Node.{Node};
    ghost use Rattle.mich_base.specs.contracts.node.Node as written;
    ghost use Rattle.mich_instr.specs.Body.{IsBody};

    ghost Value = { Node };

    ghost coded = { written.the_row.coded };

    ghost view = { λ b. b.node };

    ghost invariant = { λ b. IfSome b.typed (λ t. IsBody t.arg t.ret t.recursive b.node t.code) };
}

impl Body {
    /// A body whose code isn't known. Memory where there is no room for it.
    pub fn plain(alloc: Global, node: Shared<Node>) -> Result<Shared<Body>, Memory>
        ensures { IfOk result (λ b. b ≡ node) }
    {
        Shared::new(alloc, Body { node, typed: None })
    }

    /// A body with its typed code at these types. Memory where there is no room for it.
    pub fn typed(
        alloc: Global,
        arg: Ty,
        ret: Ty,
        recursive: bool,
        node: Shared<Node>,
        code: Block,
    ) -> Result<Shared<Body>, Memory>
        requires { IsBody arg ret recursive node code }
        ensures { IfOk result (λ b. b ≡ node) }
    {
        let typed = Some(Typed {
            arg,
            ret,
            recursive,
            code,
        });
        Shared::new(alloc, Body { node, typed })
    }

    /// The node.
    pub fn node(&self) -> &Node
        ensures { result.now ≡ self.now }
    {
        self.node.get()
    }

    /// The node, held once more. Memory where it has too many holders.
    pub fn share_node(&self) -> Result<Shared<Node>, Memory>
        ensures { IfOk result (λ n. n ≡ self.now) }
    {
        self.node.share()
    }

    /// The typed code at these types, where it is known. Memory where the code has too many holders.
    pub fn code_at(&self, arg: &Ty, ret: &Ty, recursive: bool) -> Result<Option<Block>, Memory>
        ensures { IfOk result (λ o. IfSome o (λ code. IsBody arg.now ret.now recursive self.now code)) }
    {
        let Some(typed) = &self.typed else {
            return Ok(None);
        };
        if typed.recursive != recursive {
            return Ok(None);
        }
        if !same_type(&typed.arg, arg) {
            return Ok(None);
        }
        if !same_type(&typed.ret, ret) {
            return Ok(None);
        }
        let code = typed.code.share()?;
        Ok(Some(code))
    }
}

// The body of a lambda with its typed code, in constant time. None of another instruction.
fn held_body(alloc: Global, instr: &Instr) -> Result<Option<Shared<Body>>, Memory>
    requires { IsHeld (code instr.now) }
    ensures { IfOk result (λ o. bodies_if o ≡ body_of (code instr.now)) }
{
    let Instr::Lambda {
        recursive,
        arg,
        ret,
        body,
        code,
        ..
    } = instr
    else {
        return Ok(None);
    };
    let node = body.share()?;
    let code = code.share()?;
    let arg = copy_type(alloc, arg)?;
    let ret = copy_type(alloc, ret)?;
    let held = Body::typed(alloc, arg, ret, *recursive, node, code)?;
    Ok(Some(held))
}

// Puts a body, if there is one, behind others.
fn put_body(bodies: &mut Rows<Shared<Body>>, body: Option<Shared<Body>>) -> Result<(), Memory>
    ensures { IfOk result (λ _. map tree bodies.new ≡ map tree bodies.old ++ bodies_if body) }
{
    match body {
        Some(held) => {
            bodies.push(held)?;
            Ok(())
        }
        None => Ok(()),
    }
}

/// The bodies of the lambdas among these instructions, in order, each with its typed code. Memory where there is no room for them.
pub fn held_bodies(alloc: Global, lambdas: &Rows<Instr>) -> Result<Rows<Shared<Body>>, Memory>
    requires { AllHeld (codes lambdas.now) }
    ensures { IfOk result (λ bs. map tree bs ≡ bodies_in (codes lambdas.now)) }
{
    let mut bodies = Rows::new(alloc);
    for instr in lambdas.as_slice() {
        let body = held_body(alloc, instr)?;
        put_body(&mut bodies, body)?;
    }
    Ok(bodies)
}

impl fmt::Debug for Body {
    fn fmt<W: fmt::Write>(&self, f: &mut fmt::Formatter<W>) -> fmt::Result {
        f.write_str("Body")
    }
}
