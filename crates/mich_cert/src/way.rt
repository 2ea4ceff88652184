// How the entries of an instruction are walked.
ghost use Rattle.std.specs.Prelude.{◌≡◌};
ghost use Rattle.mich_cert.specs.Ways.{bodiless_of, way_of};

use mich_base::Primitive;

// Two branches, the body of a loop, that of DIP or MAP, that of a lambda, a literal, a script, or nothing within.
#[derive(Clone, Copy, Debug)]
pub(crate) enum Way {
    Branch,
    Turn,
    Dip,
    Map,
    Lambda,
    LambdaRec,
    Push,
    Create,
    Bodiless,
}

// How those of an instruction are, by its name.
pub(crate) fn way_of(primitive: Primitive) -> Way
    ensures { result ≡ way_of primitive }
{
    match primitive {
        Primitive::OpIf | Primitive::OpIfNone | Primitive::OpIfLeft | Primitive::OpIfCons => {
            Way::Branch
        }
        Primitive::OpLoop | Primitive::OpLoopLeft | Primitive::OpIter => Way::Turn,
        Primitive::OpDip => Way::Dip,
        Primitive::OpMap => Way::Map,
        Primitive::OpLambda => Way::Lambda,
        Primitive::OpLambdaRec => Way::LambdaRec,
        Primitive::OpPush => Way::Push,
        Primitive::OpCreateContract => Way::Create,
        _ => Way::Bodiless,
    }
}

// An instruction with nothing within: one that has no place in a view, EXEC or APPLY, one that fails, SELF, or another.
#[derive(Clone, Copy, Debug)]
pub(crate) enum Bodiless {
    Transfer,
    Call,
    Fail,
    SelfContract,
    Straight,
}

pub(crate) fn bodiless_of(primitive: Primitive) -> Bodiless
    ensures { result ≡ bodiless_of primitive }
{
    match primitive {
        Primitive::OpTransferTokens => Bodiless::Transfer,
        Primitive::OpExec | Primitive::OpApply => Bodiless::Call,
        Primitive::OpFailwith | Primitive::OpNever => Bodiless::Fail,
        Primitive::OpSelf => Bodiless::SelfContract,
        _ => Bodiless::Straight,
    }
}
