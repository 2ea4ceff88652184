// A run: its blocks, its frames and what they come to.
ghost use Rattle.std.specs.Prelude.{[], ◌∷◌, ◌++◌, ◌≡◌, ◌+◌, ◌^◌, ◌<◌, ℕ, List, length, IfOk, IfSome, MatchOption};
ghost use Rattle.rules_data.specs.types.Kind.{Kind};
ghost use Rattle.rules_code.specs.evaluation.Outcome.{Outcome};
ghost use Rattle.mich_instr.specs.View.{code};
ghost use Rattle.mich_interpreter.specs.View.{Beyond};
ghost use Rattle.mich_interpreter.specs.Ends.{ComesIn, CarriesIn, Waits, Resumes, Spends, Turns, KeepsAct};
ghost use Rattle.mich_state.specs.declared.state.State.{State as PlainState};
ghost use Rattle.mich_interpreter.specs.Sees.{Sees};
ghost use Rattle.mich_interpreter.specs.Callers.{InCall, SomeStart};
ghost use Rattle.mich_interpreter.specs.Went.{IsStepBy};
ghost use Rattle.mich_interpreter.specs.Runs.{StaysIn, StaysBehind, StaysBehindAct, StaysBehindTurn, IsBegun, IsSpent, IsPaidStep, IsSettled, HasLeft, with_below, with_rest, SomeRun, SomeEnd, IsEnd, KeepsStep, KeepsEnd, IsNoBlock, IsNoSequence};

use crate::act::{Act, Failed, View};
use crate::applying::act_apply;
use crate::branches::{act_if, act_if_cons, act_if_left, act_if_none};
use crate::callers::{enter, go_back, go_home};
use crate::calls::{act_exec, act_failwith, act_never};
use crate::creating::act_create;
use crate::dipping::act_dip;
use crate::direct::go_straight;
use crate::frame::Frame;
use crate::giving::{act_lambda, act_push, act_self};
use crate::iterating::{act_iter, next_each};
use crate::loops::{Turn, act_loop, act_loop_left, further_turn, next_left_turn, next_turn};
use crate::mapping::{act_map, next_made};
use crate::stack::{put_all, put_below};
use crate::straights::act_straight;
use crate::went::Went;
use mich_base::{BLOCK_LIMIT, Boxed, Memory, Rows};
use mich_check::cache::Bodies;
use mich_gas::Costs;
use mich_instr::{Block, Instr};
use mich_state::State;
use mich_world::World;
use std::alloc::Global;

// A run on its way: the block that runs with the place of its next instruction, and what is left to do behind it.
#[derive(Drop)]
pub(crate) struct Machine {
    pub(crate) state: State,
    pub(crate) block: Block,
    pub(crate) at: usize,
    pub(crate) frames: Rows<Frame>,
    pub(crate) depth: u32,
}

// What a step came to.
#[derive(Drop)]
pub(crate) enum Step {
    // Something that costs nothing.
    Free,
    // Something that was paid for.
    Paid,
    // A view opens, which was paid for.
    View(Boxed<View>),
    Done,
    Failed(Failed),
}

/// How a run ends: with its last state, and where it failed with the reason.
#[derive(Drop)]
pub enum Ended {
    Stack(State),
    Failed(State, Failed),
}

// An instruction, which isn't a sequence.
#[tactic(auto, using(crate::proofs::Keeping::acts_same, crate::proofs::Keeping::acts_group, crate::proofs::Keeping::same_keeps))]
fn perform(
    alloc: Global,
    m: &mut State,
    costs: &Costs,
    world: &World,
    bodies: &mut Bodies,
    instr: &Instr,
) -> Result<Act, Memory>
    requires charged { IsNoSequence instr.now }
    requires comes { ComesIn world.now (code instr.now) costs.now m.old }
    ensures acts { CarriesIn world.now (code instr.now) costs.now m.old m.new result }
    ensures less { IfOk result (λ a. Spends a m.old.meter m.new.meter) }
    ensures keeps { IfOk result (λ a. KeepsAct a m.old m.new) }
{
    match instr {
        Instr::If(first, second) => Ok(act_if(m, costs, first, second)?),
        Instr::IfNone(first, second) => Ok(act_if_none(m, costs, first, second)?),
        Instr::IfLeft(first, second) => Ok(act_if_left(m, costs, first, second)?),
        Instr::IfCons(first, second) => Ok(act_if_cons(alloc, m, costs, first, second)?),
        Instr::Loop(body) => Ok(act_loop(m, costs, body)?),
        Instr::LoopLeft(body) => Ok(act_loop_left(m, costs, body)?),
        Instr::Iter(body) => Ok(act_iter(alloc, m, costs, body)?),
        Instr::Map(body) => Ok(act_map(alloc, m, costs, body)?),
        Instr::Dip { count, body, .. } => Ok(act_dip(alloc, m, costs, *count, body)?),
        Instr::Exec { arg, ret } => Ok(act_exec(alloc, m, costs, bodies, arg, ret)?),
        Instr::Apply {
            captured,
            rest,
            ret,
        } => Ok(act_apply(alloc, m, costs, captured, rest, ret)?),
        Instr::Failwith(ty) => Ok(act_failwith(alloc, m, costs, ty)?),
        Instr::Lambda {
            recursive,
            arg,
            ret,
            body,
            code,
            ..
        } => Ok(act_lambda(alloc, m, costs, *recursive, arg, ret, body, code)?),
        Instr::Never => Ok(act_never(m, costs)?),
        Instr::Push {
            ty,
            literal,
            lambdas,
            ..
        } => Ok(act_push(alloc, m, costs, ty, literal, lambdas)?),
        Instr::SelfContract { entrypoint, .. } => Ok(act_self(alloc, m, costs, entrypoint)?),
        Instr::Straight(simple, _) => Ok(act_straight(alloc, m, costs, world, bodies, simple)?),
        Instr::CreateContract(script) => Ok(act_create(alloc, m, costs, script)?),
        Instr::Seq(_) => unreachable!(),
    }
}

// A frame that isn't the rest of a block, taken off.
#[tactic(auto, using(crate::proofs::Keeping::acts_same, crate::proofs::Keeping::same_keeps))]
fn unwind(alloc: Global, m: &mut State, costs: &Costs, frame: Frame) -> Result<Act, Memory>
    requires no_block { IsNoBlock frame }
    requires waits { Waits frame costs.now m.old }
    ensures acts { Resumes frame costs.now m.old m.new result }
    ensures gas { IfOk result (λ a. Turns a m.old.meter m.new.meter) }
    ensures keeps { IfOk result (λ a. KeepsAct a m.old m.new) }
{
    match frame {
        Frame::Turns(body) => Ok(next_turn(m, costs, body)?),
        Frame::LeftTurns(body) => Ok(next_left_turn(m, costs, body)?),
        Frame::Each(body, items) => Ok(next_each(alloc, m, costs, body, items)?),
        Frame::Making(body, making) => Ok(next_made(alloc, m, costs, body, making.into_value())?),
        Frame::Under(above) => {
            put_all(&mut m.stack, above)?;
            Ok(Act::On)
        }
        Frame::Call(below) => {
            put_below(&mut m.stack, below)?;
            Ok(Act::On)
        }
        Frame::Rest(_, _) => unreachable!(),
    }
}

// Puts a frame, if there is one, behind the others.
#[inline(always)]
fn put_frame(frames: &mut Rows<Frame>, below: Option<Frame>) -> Result<(), Memory>
    ensures { IfOk result (λ _. frames.new ≡ with_below frames.old below) }
{
    match below {
        Some(frame) => frames.push(frame),
        None => Ok(()),
    }
}

// Opens a block over a frame or none, where there aren't too many.
#[inline(always)]
fn begin(m: &mut Machine, below: Option<Frame>, body: Block) -> Result<bool, Memory>
    ensures begun { IfOk result (λ b. IsBegun b below body m.old.frames m.old m.new) }
    ensures state { m.new.state ≡ m.old.state }
{
    if m.depth >= BLOCK_LIMIT {
        return Ok(false);
    }
    put_frame(&mut m.frames, below)?;
    m.block = body;
    m.at = 0;
    m.depth += 1;
    Ok(true)
}

// The same, over the rest of the block that runs.
#[inline(always)]
fn begin_inside(m: &mut Machine, below: Option<Frame>, body: Block) -> Result<bool, Memory>
    ensures begun { IfOk result (λ b. IsBegun b below body (with_rest m.old) m.old m.new) }
    ensures state { m.new.state ≡ m.old.state }
{
    let outer = m.block.share()?;
    m.frames.push(Frame::Rest(outer, m.at))?;
    let begun = begin(m, below, body)?;
    Ok(begun)
}

// What has acted in the block that runs.
fn follow(m: &mut Machine, act: Act) -> Result<Step, Memory>
    ensures stays { StaysBehindAct act m.old m.new result }
    ensures spent { (n : ℕ) → Spends act n m.old.state.meter → IfOk result (λ s. IsPaidStep s n m.new.state.meter) }
    ensures state { m.new.state ≡ m.old.state }
    ensures keeps { (from : PlainState) → KeepsAct act from m.old.state → IfOk result (λ s. KeepsStep s from m.new.state) }
{
    match act {
        Act::On => Ok(Step::Paid),
        Act::Failed(why) => Ok(Step::Failed(why)),
        Act::View(view) => Ok(Step::View(view)),
        Act::Open(below, body) => {
            let begun = begin_inside(m, below, body)?;
            if begun {
                Ok(Step::Paid)
            } else {
                Ok(Step::Failed(Failed::DepthLimit))
            }
        }
    }
}

// The body of the LOOP whose frame is on top.
#[inline(always)]
fn turning(frames: &Rows<Frame>) -> Option<&Block>
    ensures { IfSome result (λ body. (below : List Frame) × (frames.now ≡ below ++ Frame.Turns body.now ∷ [])) }
{
    match frames.as_slice().last() {
        Some(Frame::Turns(body)) => Some(body),
        _ => None,
    }
}

// A further turn of the LOOP whose frame is on top, which stays there. Nothing is changed where there is none.
#[tactic(auto, using(crate::proofs::Keeping::same_keeps, crate::proofs::Keeping::keeps_state))]
#[inline(always)]
fn turn_again(m: &mut Machine, costs: &Costs) -> Result<Option<Step>, Memory>
    requires { SomeEnd costs.now m.old }
    ensures stays { StaysBehindTurn costs.now m.old m.new result }
    ensures spent { IfOk result (λ r. MatchOption r (m.new ≡ m.old) (λ s. HasLeft s m.old m.new)) }
    ensures keeps { IfOk result (λ r. IfSome r (λ s. KeepsStep s m.old.state m.new.state)) }
{
    let Some(body) = turning(&m.frames) else {
        return Ok(None);
    };
    match further_turn(&mut m.state, costs) {
        Turn::Over => Ok(None),
        Turn::Unpaid => Ok(Some(Step::Failed(Failed::OutOfGas))),
        Turn::Paid => {
            let code = body.share()?;
            let begun = begin(m, None, code)?;
            if begun {
                Ok(Some(Step::Paid))
            } else {
                Ok(Some(Step::Failed(Failed::DepthLimit)))
            }
        }
    }
}

// Behind its block: frames are taken off until a block goes on or opens.
#[tactic(auto, using(crate::proofs::Keeping::same_keeps, crate::proofs::Keeping::keeps_state, crate::proofs::Keeping::keeps_on))]
fn leave(alloc: Global, m: &mut Machine, costs: &Costs) -> Result<Step, Memory>
    requires { SomeEnd costs.now m.old }
    ensures stays { StaysBehind costs.now m.old m.new result }
    ensures spent { IfOk result (λ s. HasLeft s m.old m.new) }
    ensures keeps { IfOk result (λ s. KeepsStep s m.old.state m.new.state) }
{
    'frames: loop {
        match m.frames.pop() {
            None => return Ok(Step::Done),
            Some(top) => match top {
                Frame::Rest(block, at) => {
                    m.block = block;
                    m.at = at;
                    return Ok(Step::Free);
                }
                frame => match unwind(alloc, &mut m.state, costs, frame)? {
                    Act::On => {}
                    Act::Failed(why) => return Ok(Step::Failed(why)),
                    Act::View(_) => unreachable!(),
                    Act::Open(below, body) => {
                        let begun = begin(m, below, body)?;
                        return if begun {
                            Ok(Step::Paid)
                        } else {
                            Ok(Step::Failed(Failed::DepthLimit))
                        };
                    }
                },
            },
        }
    }
}

// The step of the run by how an instruction without bodies went.
#[inline(always)]
fn step_by(went: Went) -> Result<Step, Memory>
    ensures { IsStepBy went result }
{
    match went {
        Went::On => Ok(Step::Paid),
        Went::OutOfGas => Ok(Step::Failed(Failed::OutOfGas)),
        Went::IntegerLimit => Ok(Step::Failed(Failed::IntegerLimit)),
        Went::MutezOverflow => Ok(Step::Failed(Failed::MutezOverflow)),
        Went::ShiftLimit => Ok(Step::Failed(Failed::ShiftLimit)),
        Went::SizeLimit => Ok(Step::Failed(Failed::SizeLimit)),
        Went::Memory => Err(Memory),
    }
}

// The next instruction of the block, at a place within it.
#[tactic(auto, using(crate::proofs::Keeping::same_keeps, crate::proofs::Keeping::keeps_state, crate::proofs::Keeping::keeps_on))]
#[inline(always)]
fn advance_inside(
    alloc: Global,
    m: &mut Machine,
    costs: &Costs,
    world: &World,
    bodies: &mut Bodies,
) -> Result<Step, Memory>
    requires within { m.old.at < length m.old.block }
    requires fits { m.old.at + 1 < 2 ^ 64 }
    requires stands { SomeRun world.now costs.now m.old }
    ensures stays { StaysIn world.now costs.now m.old m.new result }
    ensures spent { IfOk result (λ s. IsSpent s m.old m.new) }
    ensures keeps { IfOk result (λ s. KeepsStep s m.old.state m.new.state) }
{
    let instr = m.block.get().at(m.at);
    if let Instr::Seq(inner) = instr {
        let inner = inner.share()?;
        m.at += 1;
        let begun = begin_inside(m, None, inner)?;
        if begun {
            Ok(Step::Free)
        } else {
            Ok(Step::Failed(Failed::DepthLimit))
        }
    } else if let Instr::Straight(simple, _) = instr
        && simple.in_step()
    {
        let went = go_straight(alloc, &mut m.state, costs, simple);
        m.at += 1;
        step_by(went)
    } else {
        let act = perform(alloc, &mut m.state, costs, world, bodies, instr)?;
        m.at += 1;
        let step = follow(m, act)?;
        Ok(step)
    }
}

// The next step.
#[tactic(auto, using(crate::proofs::Keeping::same_keeps, crate::proofs::Keeping::keeps_state, crate::proofs::Keeping::keeps_on))]
#[inline(always)]
fn advance(
    alloc: Global,
    m: &mut Machine,
    costs: &Costs,
    world: &World,
    bodies: &mut Bodies,
) -> Result<Step, Memory>
    requires { SomeRun world.now costs.now m.old }
    ensures stays { StaysIn world.now costs.now m.old m.new result }
    ensures spent { IfOk result (λ s. IsSpent s m.old m.new) }
    ensures keeps { IfOk result (λ s. KeepsStep s m.old.state m.new.state) }
{
    if m.at < m.block.get().len() {
        let step = advance_inside(alloc, m, costs, world, bodies)?;
        Ok(step)
    } else {
        m.depth -= 1;
        match turn_again(m, costs)? {
            Some(step) => Ok(step),
            None => {
                let step = leave(alloc, m, costs)?;
                Ok(step)
            }
        }
    }
}

// Steps up to one that was paid for, or an end.
#[tactic(auto, using(crate::proofs::Keeping::same_keeps, crate::proofs::Keeping::keeps_state, crate::proofs::Keeping::keeps_on))]
#[inline(always)]
fn settle(
    alloc: Global,
    m: &mut Machine,
    costs: &Costs,
    world: &World,
    bodies: &mut Bodies,
) -> Result<Step, Memory>
    requires { SomeRun world.now costs.now m.old }
    ensures stays { StaysIn world.now costs.now m.old m.new result }
    ensures less { IfOk result (λ s. IsSettled s m.old m.new) }
    ensures keeps { IfOk result (λ s. KeepsStep s m.old.state m.new.state) }
{
    'free: loop {
        match advance(alloc, m, costs, world, bodies)? {
            Step::Free => {}
            other => return Ok(other),
        }
    }
}

// Runs to the end.
#[tactic(auto, using(crate::proofs::Keeping::same_keeps, crate::proofs::Keeping::keeps_state, crate::proofs::Keeping::keeps_on))]
pub(crate) fn work(
    alloc: Global,
    m: Machine,
    costs: &Costs,
    world: &World,
    bodies: &mut Bodies,
) -> Result<Ended, Memory>
    requires { SomeStart world.now costs.now m }
    ensures ends { (x : Beyond) (Z : List Kind) (o : Outcome) → InCall x costs.now m [] Z o → Sees world.now x → IfOk result (λ e. IsEnd e x Z o) }
    ensures keeps { IfOk result (λ e. KeepsEnd e m.state) }
{
    let mut m = m;
    let mut callers = Rows::new(alloc);
    'paid: loop {
        match settle(alloc, &mut m, costs, world, bodies)? {
            Step::Free => unreachable!(),
            Step::Paid => {}
            Step::View(view) => {
                let entered = enter(alloc, &mut m, &mut callers, view)?;
                if !entered {
                    return Ok(Ended::Failed(go_home(m.state, callers), Failed::DepthLimit));
                }
            }
            Step::Done => match callers.pop() {
                Some(caller) => go_back(alloc, &mut m, caller)?,
                None => return Ok(Ended::Stack(m.state)),
            },
            Step::Failed(why) => return Ok(Ended::Failed(go_home(m.state, callers), why)),
        }
    }
}
