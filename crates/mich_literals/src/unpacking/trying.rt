// The bodies of lambdas that are still to be tried of a literal.
ghost use Rattle.std.specs.Prelude.{◌≡◌, ◌∷◌, ◌<◌, ◌^◌, [], is_none, is_some, IfOk};
ghost use Rattle.rules_text.specs.nodes.Tree.{seq, size};
ghost use Rattle.rules_code.specs.typing.Literals.{fault_of_bodies, lambda_fault};
ghost use Rattle.mich_base.specs.TypeView.{kind};
ghost use Rattle.mich_base.specs.View.{tree};
ghost use Rattle.mich_control.specs.Answers.{inside};
ghost use Rattle.mich_data.specs.View.{all_pending, pending};
ghost use Rattle.mich_literals.specs.unpacking.Pending.{AreBodies};

use mich_base::{Memory, Node, Rows, Shared, Ty, copy_type};
use mich_check::CheckError;
use mich_check::cache::Bodies;
use mich_data::Pending;
use mich_instr::Body;
use std::alloc::Global;

// A node as the body of a lambda of these types, with its typed code. None exactly where it has a fault.
fn body_of(
    alloc: Global,
    bodies: &mut Bodies,
    arg: &Ty,
    ret: &Ty,
    recursive: bool,
    node: Node,
) -> Result<Option<Shared<Body>>, Memory>
    requires sequence { tree node ≡ seq (inside (tree node)) }
    requires fits { size (tree node) < 2 ^ 32 }
    ensures { IfOk result (λ o. is_some o ≡ is_none (lambda_fault (kind arg.now) (kind ret.now) recursive (tree node))) }
{
    let node = Shared::new(alloc, node)?;
    match bodies.checked(alloc, arg, ret, recursive, &node) {
        Ok(code) => {
            let arg = copy_type(alloc, arg)?;
            let ret = copy_type(alloc, ret)?;
            Ok(Some(Body::typed(alloc, arg, ret, recursive, node, code)?))
        }
        Err(CheckError::IllTyped(_)) => Ok(None),
        Err(CheckError::Memory) => Err(Memory),
    }
}

// Whether what is still to be tried has no fault, where it is a body, which is put behind others.
#[tactic(auto, using(crate::proofs::unpacking_lemmas::Items::body_alone))]
fn passes(
    alloc: Global,
    bodies: &mut Bodies,
    item: Pending,
    found: &mut Rows<Shared<Body>>,
) -> Result<bool, Memory>
    requires { AreBodies (pending item ∷ []) }
    ensures { IfOk result (λ b. b ≡ is_none (fault_of_bodies (pending item ∷ []))) }
{
    match item {
        Pending::Body {
            arg,
            ret,
            recursive,
            node,
            ..
        } => match body_of(alloc, bodies, &arg, &ret, recursive, node)? {
            Some(body) => {
                found.push(body)?;
                Ok(true)
            }
            None => Ok(false),
        },
        Pending::Claim { .. } => Ok(true),
    }
}

// The bodies with their typed code. None exactly where a body has a fault.
pub(crate) fn typed_bodies(
    alloc: Global,
    bodies: &mut Bodies,
    pending: Rows<Pending>,
) -> Result<Option<Rows<Shared<Body>>>, Memory>
    requires { AreBodies (all_pending pending) }
    ensures { IfOk result (λ o. is_some o ≡ is_none (fault_of_bodies (all_pending pending))) }
{
    let mut found = Rows::new(alloc);
    for item in pending.into_vec() {
        let passed = passes(alloc, bodies, item, &mut found)?;
        if !passed {
            return Ok(None);
        }
    }
    Ok(Some(found))
}
