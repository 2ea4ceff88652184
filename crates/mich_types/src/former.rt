// What the names of types make of their arguments.
ghost use Rattle.std.specs.Prelude.{◌≡◌};
ghost use Rattle.rules_data.specs.types.Reading.{former_of, former_of_name};
ghost use Rattle.mich_types.specs.View.{former};

use mich_base::{Primitive, Text, primitive_of_name};
use rules_data::types::{OneArgument, Simple, TwoArguments};

// What a name makes of its arguments.
#[derive(Clone, Copy, Debug)]
pub(crate) enum Former {
    Simple(Simple),
    Operation,
    One(OneArgument),
    Two(TwoArguments),
    Pair,
    NoType,
}

// What a name of a type makes of its arguments.
#[tactic(auto, unfolding(rules_data::specs::types::Reading::former_of_name))]
pub(crate) fn former_of_name(name: &Text) -> Former
    ensures { former result ≡ former_of_name name.now }
{
    match primitive_of_name(name) {
        Some(primitive) => former_of(primitive),
        None => Former::NoType,
    }
}

fn former_of(primitive: Primitive) -> Former
    ensures { former result ≡ former_of (Some primitive) }
{
    match primitive {
        Primitive::TypeUnit => Former::Simple(Simple::Unit),
        Primitive::TypeNever => Former::Simple(Simple::Never),
        Primitive::TypeBool => Former::Simple(Simple::Bool),
        Primitive::TypeInt => Former::Simple(Simple::Int),
        Primitive::TypeNat => Former::Simple(Simple::Nat),
        Primitive::TypeString => Former::Simple(Simple::String),
        Primitive::TypeBytes => Former::Simple(Simple::Bytes),
        Primitive::TypeMutez => Former::Simple(Simple::Mutez),
        Primitive::TypeTimestamp => Former::Simple(Simple::Timestamp),
        Primitive::TypeKey => Former::Simple(Simple::Key),
        Primitive::TypeKeyHash => Former::Simple(Simple::KeyHash),
        Primitive::TypeSignature => Former::Simple(Simple::Signature),
        Primitive::TypeChainId => Former::Simple(Simple::ChainId),
        Primitive::TypeAddress => Former::Simple(Simple::Address),
        Primitive::TypeOperation => Former::Operation,
        Primitive::TypeOption => Former::One(OneArgument::Option),
        Primitive::TypeList => Former::One(OneArgument::List),
        Primitive::TypeSet => Former::One(OneArgument::Set),
        Primitive::TypeContract => Former::One(OneArgument::Contract),
        Primitive::TypeTicket => Former::One(OneArgument::Ticket),
        Primitive::TypeOr => Former::Two(TwoArguments::Or),
        Primitive::TypeMap => Former::Two(TwoArguments::Map),
        Primitive::TypeBigMap => Former::Two(TwoArguments::BigMap),
        Primitive::TypeLambda => Former::Two(TwoArguments::Lambda),
        Primitive::TypePair => Former::Pair,
        _ => Former::NoType,
    }
}
