// What APPLY makes of a body, with its typed code.
ghost use Rattle.std.specs.Prelude.{◌≡◌, ℕ, false, IfOk, IfSome};
ghost use Rattle.rules_text.specs.nodes.Tree.{none};
ghost use Rattle.rules_data.specs.types.Kind.{lambda, pair};
ghost use Rattle.rules_data.specs.values.Canonical.{canonical};
ghost use Rattle.mich_base.specs.TypeView.{kind};
ghost use Rattle.mich_base.specs.View.{tree};
ghost use Rattle.mich_instr.specs.Body.{IsBody};
ghost use Rattle.mich_instr.specs.Code as made;
ghost use Rattle.mich_instr.specs.View.{code, codes};
ghost use Rattle.mich_term.specs.ValueView.{val};
ghost use Rattle.mich_interpreter.specs.Applied.{Captures, CapturesValue, call_codes, has_no_lambda, pair_code, push_code, pushing_codes, rec_code, swap_code};
ghost use Rattle.mich_interpreter.specs.Literals.{HoldsLiteral};

use mich_base::{App, Memory, Node, Nodes, Rows, Shared, Text, Texts, Ty, copy_node, copy_type};
use mich_control::pair_of;
use mich_data::value_node;
use mich_instr::{Block, Body, Instr};
use mich_overload::{PairRow, Simple, StackRow};
use mich_term::Value;
use mich_types::type_node;
use std::alloc::Global;

// Whether a type names no type of a lambda.
fn has_no_lambda(ty: &Ty) -> bool
    ensures { result ≡ has_no_lambda (kind ty.now) }
{
    match ty {
        Ty::Lambda(_, _) => false,
        Ty::Option(part) | Ty::List(part) | Ty::Set(part) => has_no_lambda(part.get()),
        Ty::Contract(_) | Ty::Ticket(_) => false,
        Ty::Or(first, second)
        | Ty::Pair(first, second)
        | Ty::Map(first, second)
        | Ty::BigMap(first, second) => has_no_lambda(first.get()) && has_no_lambda(second.get()),
        _ => true,
    }
}

// A body with its typed code, as one LAMBDA with no types written.
fn one_lambda(
    alloc: Global,
    arg: &Ty,
    ret: &Ty,
    recursive: bool,
    body: Shared<Node>,
    block: Block,
) -> Result<Rows<Instr>, Memory>
    ensures { IfOk result (λ is. codes is ≡ made.more (made.lambda recursive (kind arg.now) (kind ret.now) none (tree body) (codes block)) made.none) }
{
    let arg = copy_type(alloc, arg)?;
    let ret = copy_type(alloc, ret)?;
    let mut lambdas = Rows::new(alloc);
    lambdas.push(Instr::Lambda {
        recursive,
        arg,
        ret,
        written: Nodes::new(alloc),
        body,
        code: block,
    })?;
    Ok(lambdas)
}

// The lambda in a value that is one, with its typed code, where that is known.
fn held_lambda(
    alloc: Global,
    arg: &Ty,
    ret: &Ty,
    value: &Value,
) -> Result<Option<Rows<Instr>>, Memory>
    requires { CapturesValue (lambda (kind arg.now) (kind ret.now)) (val value.now) }
    ensures { IfOk result (λ o. IfSome o (λ is. (at : ℕ) → HoldsLiteral at (lambda (kind arg.now) (kind ret.now)) (canonical (val value.now)) (codes is))) }
{
    let Value::Lambda(body, recursive) = value else {
        return Ok(None);
    };
    let held = body.get();
    let Some(block) = held.code_at(arg, ret, *recursive)? else {
        return Ok(None);
    };
    let node = held.share_node()?;
    let lambdas = one_lambda(alloc, arg, ret, *recursive, node, block)?;
    Ok(Some(lambdas))
}

// The lambdas in a value of a pushable type, each with its typed code. None where that isn't known.
fn captured_lambdas(
    alloc: Global,
    captured: &Ty,
    value: &Value,
) -> Result<Option<Rows<Instr>>, Memory>
    requires { CapturesValue (kind captured.now) (val value.now) }
    ensures { IfOk result (λ o. IfSome o (λ is. (at : ℕ) → HoldsLiteral at (kind captured.now) (canonical (val value.now)) (codes is))) }
{
    if has_no_lambda(captured) {
        return Ok(Some(Rows::new(alloc)));
    }
    match captured {
        Ty::Lambda(arg, ret) => held_lambda(alloc, arg.get(), ret.get(), value),
        _ => Ok(None),
    }
}

fn push_instr(alloc: Global, ty: &Ty, literal: &Node, lambdas: Rows<Instr>) -> Result<Instr, Memory>
    ensures { IfOk result (λ i. code i ≡ push_code (kind ty.now) (tree literal.now) (codes lambdas)) }
{
    let written = type_node(alloc, ty)?;
    let literal = copy_node(alloc, literal)?;
    let ty = copy_type(alloc, ty)?;
    Ok(Instr::Push {
        ty,
        written,
        literal,
        lambdas,
    })
}

fn pair_instr(alloc: Global) -> Result<Instr, Memory>
    ensures { IfOk result (λ i. code i ≡ pair_code) }
{
    let name = Text::from_slice(alloc, b"PAIR")?;
    let annots = Texts::new(alloc);
    let args = Nodes::new(alloc);
    Ok(Instr::Straight(Simple::Pairs(PairRow::Pair(2)), App { name, annots, args }))
}

fn swap_instr(alloc: Global) -> Result<Instr, Memory>
    ensures { IfOk result (λ i. code i ≡ swap_code) }
{
    let name = Text::from_slice(alloc, b"SWAP")?;
    let annots = Texts::new(alloc);
    let args = Nodes::new(alloc);
    Ok(Instr::Straight(Simple::Stack(StackRow::Swap), App { name, annots, args }))
}

fn rec_instr(
    alloc: Global,
    arg: &Ty,
    ret: &Ty,
    body: Shared<Node>,
    old: Block,
) -> Result<Instr, Memory>
    ensures { IfOk result (λ i. code i ≡ rec_code (kind arg.now) (kind ret.now) (tree body) (codes old)) }
{
    let mut written = Nodes::new(alloc);
    written.push(type_node(alloc, arg)?)?;
    written.push(type_node(alloc, ret)?)?;
    let arg = copy_type(alloc, arg)?;
    let ret = copy_type(alloc, ret)?;
    Ok(Instr::Lambda {
        recursive: true,
        arg,
        ret,
        written,
        body,
        code: old,
    })
}

fn exec_instr(alloc: Global, arg: &Ty, ret: &Ty) -> Result<Instr, Memory>
    ensures { IfOk result (λ i. code i ≡ made.exec (kind arg.now) (kind ret.now)) }
{
    let arg = copy_type(alloc, arg)?;
    let ret = copy_type(alloc, ret)?;
    Ok(Instr::Exec { arg, ret })
}

// The typed code of what APPLY makes of a body with this typed code, by PUSH of what is captured. It copies no code.
fn made_code(
    alloc: Global,
    push: Instr,
    both: &Ty,
    ret: &Ty,
    body: Shared<Node>,
    recursive: bool,
    old: Block,
) -> Result<Block, Memory>
    ensures { IfOk result (λ is. codes is ≡ made.more (code push) (made.more pair_code (call_codes (kind both.now) (kind ret.now) (tree body) recursive (codes old)))) }
{
    let mut block = Rows::new(alloc);
    block.push(push)?;
    block.push(pair_instr(alloc)?)?;
    if recursive {
        block.push(rec_instr(alloc, both, ret, body, old)?)?;
        block.push(swap_instr(alloc)?)?;
        block.push(exec_instr(alloc, both, ret)?)?;
    } else {
        block.push(Instr::Seq(old))?;
    }
    Shared::new(alloc, block)
}

// This node as a body with its typed code.
fn typed_body(
    alloc: Global,
    arg: &Ty,
    ret: &Ty,
    node: Shared<Node>,
    code: Block,
) -> Result<Shared<Body>, Memory>
    requires { IsBody arg.now ret.now false node code }
    ensures { IfOk result (λ b. b ≡ node) }
{
    let arg = copy_type(alloc, arg)?;
    let ret = copy_type(alloc, ret)?;
    Body::typed(alloc, arg, ret, false, node, code)
}

// The typed code of what APPLY makes of a body with this typed code, by PUSH with these lambdas. It copies no code.
fn pushing_code(
    alloc: Global,
    captured: &Ty,
    both: &Ty,
    ret: &Ty,
    literal: &Node,
    body: &Body,
    recursive: bool,
    lambdas: Rows<Instr>,
    old: Block,
) -> Result<Block, Memory>
    ensures { IfOk result (λ is. codes is ≡ pushing_codes (kind captured.now) (tree literal.now) (codes lambdas) (kind both.now) (kind ret.now) (tree body.now) recursive (codes old)) }
{
    let below = body.share_node()?;
    let push = push_instr(alloc, captured, literal, lambdas)?;
    let code = made_code(alloc, push, both, ret, below, recursive, old)?;
    Ok(code)
}

// The same, where the lambdas in what is captured are known.
fn captured_code(
    alloc: Global,
    captured: &Ty,
    rest: &Ty,
    both: &Ty,
    ret: &Ty,
    value: &Value,
    literal: &Node,
    body: &Body,
    recursive: bool,
    old: Block,
    _made: &Node,
) -> Result<Option<Block>, Memory>
    requires captures { Captures (kind captured.now) (kind rest.now) (kind ret.now) (val value.now) (tree literal.now) (tree body.now) recursive (tree _made.now) }
    requires both { kind both.now ≡ pair (kind captured.now) (kind rest.now) }
    requires old { IsBody both.now ret.now recursive body.now old }
    ensures { IfOk result (λ o. IfSome o (λ code. IsBody rest.now ret.now false _made.now code)) }
{
    let found = captured_lambdas(alloc, captured, value)?;
    match found {
        Some(lambdas) => {
            let code = pushing_code(
                alloc, captured, both, ret, literal, body, recursive, lambdas, old,
            )?;
            Ok(Some(code))
        }
        None => Ok(None),
    }
}

// The same, where the typed code of the body is known.
fn applied_code(
    alloc: Global,
    captured: &Ty,
    rest: &Ty,
    ret: &Ty,
    value: &Value,
    literal: &Node,
    body: &Body,
    recursive: bool,
    _made: &Node,
) -> Result<Option<Block>, Memory>
    requires { Captures (kind captured.now) (kind rest.now) (kind ret.now) (val value.now) (tree literal.now) (tree body.now) recursive (tree _made.now) }
    ensures { IfOk result (λ o. IfSome o (λ code. IsBody rest.now ret.now false _made.now code)) }
{
    let both = pair_of(alloc, captured, rest)?;
    let found = body.code_at(&both, ret, recursive)?;
    match found {
        Some(old) => captured_code(
            alloc, captured, rest, &both, ret, value, literal, body, recursive, old, _made,
        ),
        None => Ok(None),
    }
}

// What APPLY makes of a body: this node, with its typed code where that is known.
pub(crate) fn made_body(
    alloc: Global,
    captured: &Ty,
    rest: &Ty,
    ret: &Ty,
    value: &Value,
    body: &Body,
    recursive: bool,
    made: Node,
) -> Result<Shared<Body>, Memory>
    requires { Captures (kind captured.now) (kind rest.now) (kind ret.now) (val value.now) (canonical (val value.now)) (tree body.now) recursive (tree made) }
    ensures { IfOk result (λ b. b ≡ made) }
{
    let literal = value_node(alloc, value)?;
    let found = applied_code(
        alloc, captured, rest, ret, value, &literal, body, recursive, &made,
    )?;
    let node = Shared::new(alloc, made)?;
    match found {
        Some(code) => typed_body(alloc, rest, ret, node, code),
        None => Body::plain(alloc, node),
    }
}
