// What kind of instruction a name is.
ghost use Rattle.std.specs.Prelude.{◌≡◌, Some};
ghost use Rattle.rules_text.specs.nodes.Primitives.{primitive_of_name};
ghost use Rattle.rules_code.specs.instructions.Forms.{form_of};
ghost use Rattle.mich_control.specs.View.{form};

use mich_base::{Primitive, Text, primitive_of_name};

/// What kind of instruction a name is: with its bodies, or by what it needs beside its arguments and the stack.
#[derive(Clone, Copy, Debug)]
pub enum Form {
    Straight,
    Transfer,
    Push,
    Dip,
    Lambda,
    LambdaRec,
    Bodiless(Bodiless),
    Branch(Branch),
    Loop(Loop),
    Map,
    SelfContract,
    CreateContract,
}

/// An instruction without arguments that has its own rule.
#[derive(Clone, Copy, Debug)]
pub enum Bodiless {
    Exec,
    Apply,
    Failwith,
    Never,
}

/// An instruction with two branches, by what it asks.
#[derive(Clone, Copy, Debug)]
pub enum Branch {
    Bool,
    None,
    Left,
    Cons,
}

/// An instruction with a body that is run again and again, by what it goes on by.
#[derive(Clone, Copy, Debug)]
pub enum Loop {
    Bool,
    Left,
    Parts,
}

/// What kind of instruction a name is; a name that is no primitive's is as one without bodies.
pub fn form_of_name(name: &Text) -> Form
    ensures { form result ≡ form_of (primitive_of_name name.now) }
{
    match primitive_of_name(name) {
        Some(primitive) => form_of(primitive),
        None => Form::Straight,
    }
}

fn form_of(primitive: Primitive) -> Form
    ensures { form result ≡ form_of (Some primitive) }
{
    match primitive {
        Primitive::OpTransferTokens => Form::Transfer,
        Primitive::OpPush => Form::Push,
        Primitive::OpDip => Form::Dip,
        Primitive::OpLambda => Form::Lambda,
        Primitive::OpLambdaRec => Form::LambdaRec,
        Primitive::OpExec => Form::Bodiless(Bodiless::Exec),
        Primitive::OpApply => Form::Bodiless(Bodiless::Apply),
        Primitive::OpIf => Form::Branch(Branch::Bool),
        Primitive::OpIfNone => Form::Branch(Branch::None),
        Primitive::OpIfLeft => Form::Branch(Branch::Left),
        Primitive::OpIfCons => Form::Branch(Branch::Cons),
        Primitive::OpLoop => Form::Loop(Loop::Bool),
        Primitive::OpLoopLeft => Form::Loop(Loop::Left),
        Primitive::OpIter => Form::Loop(Loop::Parts),
        Primitive::OpMap => Form::Map,
        Primitive::OpFailwith => Form::Bodiless(Bodiless::Failwith),
        Primitive::OpNever => Form::Bodiless(Bodiless::Never),
        Primitive::OpSelf => Form::SelfContract,
        Primitive::OpCreateContract => Form::CreateContract,
        _ => Form::Straight,
    }
}
