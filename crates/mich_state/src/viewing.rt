// How a view opens.
ghost use Rattle.std.specs.Prelude.{◌≡◌, IfOk};
ghost use Rattle.mich_state.specs.Viewing.{viewing, outer_of};

use crate::state::State;
use mich_base::{Memory, Rows};
use mich_ops::Issued;
use mich_step::Env;
use mich_term::Value;
use mich_tickets::Ledger;
use std::alloc::Global;
use std::mem;

/// What a caller has in hand and a view doesn't see.
#[derive(Drop)]
pub struct Outer {
    pub env: Env,
    pub ledger: Ledger,
    pub issued: Rows<Issued>,
    /// The values below what the view gives.
    pub below: Rows<Value>,
}

impl State {
    /// Opens a view on a value: it runs on a stack, in an environment and with a ledger of its own, and spends its caller's gas (Michelson
    /// reference, VIEW). Gives what waits for its end. Memory where there is no room for the ledger or the stack.
    pub fn enter(&mut self, alloc: Global, value: Value, env: Env) -> Result<Outer, Memory>
        ensures outer { IfOk result (λ outer. outer ≡ outer_of self.old) }
        ensures state { IfOk result (λ _. self.new ≡ viewing value env self.old) }
    {
        let ledger = self.ledger.for_view(alloc)?;
        let mut stack = Rows::new(alloc);
        stack.push(value)?;
        Ok(Outer {
            env: mem::replace(&mut self.env, env),
            ledger: mem::replace(&mut self.ledger, ledger),
            issued: mem::replace(&mut self.issued, Rows::new(alloc)),
            below: mem::replace(&mut self.stack, stack),
        })
    }
}
