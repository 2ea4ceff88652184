// A body of a lambda with its typed code.
ghost use Rattle.std.specs.Prelude.{IfOk, IfSome};
ghost use Rattle.mich_check.specs.cache.Body.{IsBody};

use mich_base::{Memory, Node, Shared, Ty, copy_type, same_type};
use mich_instr::{Block, same_node};
use std::alloc::Global;
use std::marker::Model;

// A node, the types of which it is a body, and its typed code as that. Contracts see nothing of it.
#[derive(Drop)]
pub(crate) struct Kept {
    arg: Ty,
    ret: Ty,
    recursive: bool,
    node: Shared<Node>,
    code: Block,
}

impl Model for Kept {
    ghost use Rattle.std.specs.Prelude.{⊤};
    ghost use Rattle.mich_check.specs.cache.Body.{IsBody};

    ghost Value = { ⊤ };

    ghost view = { λ _. tt };

    ghost invariant = { λ k. IsBody k.arg k.ret k.recursive k.node k.code };
}

impl Kept {
    // A body of these types with its typed code.
    pub(crate) fn new(
        alloc: Global,
        arg: &Ty,
        ret: &Ty,
        recursive: bool,
        node: &Shared<Node>,
        code: &Block,
    ) -> Result<Kept, Memory>
        requires { IsBody arg.now ret.now recursive node.now code.now }
    {
        let arg = copy_type(alloc, arg)?;
        let ret = copy_type(alloc, ret)?;
        let node = node.share()?;
        let code = code.share()?;
        Ok(Kept {
            arg,
            ret,
            recursive,
            node,
            code,
        })
    }

    // Its code, where it is this node as a body of these types.
    pub(crate) fn code_of(
        &self,
        arg: &Ty,
        ret: &Ty,
        recursive: bool,
        node: &Node,
    ) -> Result<Option<Block>, Memory>
        ensures { IfOk result (λ o. IfSome o (λ code. IsBody arg.now ret.now recursive node.now code)) }
    {
        if self.recursive != recursive {
            return Ok(None);
        }
        if !same_type(&self.arg, arg) {
            return Ok(None);
        }
        if !same_type(&self.ret, ret) {
            return Ok(None);
        }
        if !same_node(self.node.get(), node) {
            return Ok(None);
        }
        let code = self.code.share()?;
        Ok(Some(code))
    }
}
