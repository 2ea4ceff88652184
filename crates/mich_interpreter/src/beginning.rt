// A run of code from its beginning.
ghost use Rattle.std.specs.Prelude.{List, IfOk};
ghost use Rattle.rules_data.specs.types.Kind.{Kind};
ghost use Rattle.rules_code.specs.evaluation.Outcome.{Outcome};
ghost use Rattle.mich_interpreter.specs.View.{Beyond};
ghost use Rattle.mich_interpreter.specs.Begins.{Opens};
ghost use Rattle.mich_interpreter.specs.Runs.{IsEnd, KeepsEnd};
ghost use Rattle.mich_interpreter.specs.Sees.{Sees};

use crate::machine::{Ended, Machine, work};
use mich_base::{Memory, Rows};
use mich_check::cache::Bodies;
use mich_gas::Costs;
use mich_instr::Block;
use mich_state::State;
use mich_world::World;
use std::alloc::Global;

/// Runs typed code from a state, in a world that it sees: it ends as the evaluation of the nodes that the code is of says, with the same values, gas and
/// counts or with the same failure. It has no answer for a stack of the wrong type. Memory where there is no room for it (Michelson
/// reference, "Semantics").
pub fn run_code(
    alloc: Global,
    code: Block,
    state: State,
    costs: &Costs,
    world: &World,
    bodies: &mut Bodies,
) -> Result<Ended, Memory>
    requires { (x : Beyond) × (Z : List Kind) × (o : Outcome) × Opens x costs.now code state Z o × Sees world.now x }
    ensures ends { (x : Beyond) (Z : List Kind) (o : Outcome) → Opens x costs.now code state Z o → Sees world.now x → IfOk result (λ e. IsEnd e x Z o) }
    ensures keeps { IfOk result (λ e. KeepsEnd e state) }
{
    let m = Machine {
        state,
        block: code,
        at: 0,
        frames: Rows::new(alloc),
        depth: 1,
    };
    let ended = work(alloc, m, costs, world, bodies)?;
    Ok(ended)
}
