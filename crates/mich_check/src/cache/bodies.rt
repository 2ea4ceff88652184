// The bodies that are kept.
ghost use Rattle.std.specs.Prelude.{◌≡◌, ◌<◌, ◌^◌, None, IfOk, IfSome};
ghost use Rattle.rules_text.specs.nodes.Tree.{seq, size};
ghost use Rattle.rules_code.specs.typing.Literals.{lambda_fault};
ghost use Rattle.mich_base.specs.TypeView.{kind};
ghost use Rattle.mich_base.specs.View.{tree};
ghost use Rattle.mich_control.specs.Answers.{IsLambda, inside};
ghost use Rattle.mich_instr.specs.Body.{IsBody as IsCodeOf};
ghost use Rattle.mich_check.specs.cache.Body.{IsBody};
ghost use Rattle.mich_check.specs.cache.Unused.{unused};

use crate::cache::kept::Kept;
use crate::cache::marks::mark;
use crate::{CheckError, check_body};
use lru::LruCache;
use mich_base::{Memory, Node, Shared, Ty};
use mich_instr::{Block, Body};
use std::alloc::Global;
use std::marker::Model;
use std::num::NonZeroUsize;

/// How many bodies are kept.
const MOST_KEPT: usize = 256;

/// How many look-ups of a body found it, and how many didn't. Both stop at 2^64-1.
#[derive(Debug, Clone, Copy, PartialEq, Eq)]
pub struct Uses {
    pub hits: u64,
    pub misses: u64,
}

/// The typed code of the bodies of lambdas that were looked up last, by their nodes and types. Contracts see how they were used.
#[derive(Debug, Drop)]
pub struct Bodies {
    cache: LruCache<u64, Kept>,
    uses: Uses,
}

impl Model for Bodies {
    ghost use Rattle.mich_check.specs.declared.cache.bodies.Uses.{Uses};

    ghost Value = { Uses };

    ghost view = { λ b. b.uses };
}

impl Bodies {
    /// No body. Memory where there is no room for so many.
    pub fn new(alloc: Global) -> Result<Bodies, Memory>
        ensures { IfOk result (λ b. b ≡ unused) }
    {
        let Some(most) = NonZeroUsize::new(MOST_KEPT) else {
            unreachable!()
        };
        let cache = LruCache::new(alloc, most)?;
        Ok(Bodies {
            cache,
            uses: Uses { hits: 0, misses: 0 },
        })
    }

    /// How often a body was found, and how often it wasn't. Takes no memory.
    pub fn uses(&self) -> Uses
        ensures { result ≡ self.now }
    {
        self.uses
    }

    // The typed code that is kept of a body of these types.
    fn find(
        &mut self,
        key: u64,
        arg: &Ty,
        ret: &Ty,
        recursive: bool,
        body: &Node,
    ) -> Result<Option<Block>, Memory>
        ensures { IfOk result (λ o. IfSome o (λ code. IsBody arg.now ret.now recursive body.now code)) }
    {
        match self.cache.get(&key) {
            Some(kept) => kept.code_of(arg, ret, recursive, body),
            None => Ok(None),
        }
    }

    // Keeps a body of these types with its typed code, where there is memory for it.
    fn keep(
        &mut self,
        alloc: Global,
        key: u64,
        arg: &Ty,
        ret: &Ty,
        recursive: bool,
        body: &Shared<Node>,
        code: &Block,
    )
        requires { IsBody arg.now ret.now recursive body.now code.now }
    {
        if let Ok(kept) = Kept::new(alloc, arg, ret, recursive, body, code) {
            let _before = self.cache.put(key, kept);
        }
    }

    /// The typed code of a node as the body of a lambda of these types, which may be recursive (Michelson reference, "LAMBDA"
    /// and "LAMBDA_REC"): that which is kept, or else a new one, which is kept then where there is memory for it. IllTyped has the
    /// location of its first fault; Memory where there is no room for the code.
    pub fn checked(
        &mut self,
        alloc: Global,
        arg: &Ty,
        ret: &Ty,
        recursive: bool,
        body: &Shared<Node>,
    ) -> Result<Block, CheckError>
        requires sequence { tree body.now ≡ seq (inside (tree body.now)) }
        requires fits { size (tree body.now) < 2 ^ 32 }
        ensures { IsLambda (kind arg.now) (kind ret.now) recursive (tree body.now) result }
    {
        let key = mark(arg, ret, recursive, body.get());
        let found = self.find(key, arg, ret, recursive, body.get())?;
        if let Some(code) = found {
            self.uses.hits = self.uses.hits.saturating_add(1);
            return Ok(code);
        }
        self.uses.misses = self.uses.misses.saturating_add(1);
        let code = check_body(alloc, arg, ret, recursive, body.get())?;
        self.keep(alloc, key, arg, ret, recursive, body, &code);
        Ok(code)
    }

    /// The typed code of a body that is one of a lambda of these types: that which the body has with it, in constant time but for
    /// the comparison of the types, or else as above. Memory where there is no room for the code.
    pub fn code(
        &mut self,
        alloc: Global,
        arg: &Ty,
        ret: &Ty,
        recursive: bool,
        body: &Shared<Body>,
    ) -> Result<Block, Memory>
        requires sequence { tree body.now ≡ seq (inside (tree body.now)) }
        requires fits { size (tree body.now) < 2 ^ 32 }
        requires typed { lambda_fault (kind arg.now) (kind ret.now) recursive (tree body.now) ≡ None }
        ensures { IfOk result (λ code. IsCodeOf arg.now ret.now recursive body.now code) }
    {
        if let Some(code) = body.get().code_at(arg, ret, recursive)? {
            return Ok(code);
        }
        let node = body.get().share_node()?;
        match self.checked(alloc, arg, ret, recursive, &node) {
            Ok(code) => Ok(code),
            Err(CheckError::IllTyped(_)) => unreachable!(),
            Err(CheckError::Memory) => Err(Memory),
        }
    }
}
