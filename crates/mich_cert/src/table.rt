// The table: for each instruction which stacks stand before and behind it.
ghost use Rattle.std.specs.Prelude.{◌≡◌};
ghost use Rattle.mich_cert.specs.Table as table;
ghost use Rattle.mich_cert.specs.View.{kinds, known_kinds};

use crate::words::{Known, Word, line, meets};
use mich_base::{Primitive, Ty};

const NOTHING: Known<'static> = Known {
    a: None,
    b: None,
    c: None,
};

// The order of the stack.
fn stack(primitive: Primitive, before: &[Ty], after: &[Ty]) -> bool
    ensures { result ≡ table.stack primitive (kinds before.now) (kinds after.now) }
{
    match primitive {
        Primitive::OpSwap => line(
            &[Word::A, Word::B],
            &[Word::B, Word::A],
            NOTHING,
            before,
            after,
        ),
        Primitive::OpUnit => line(&[], &[Word::Unit], NOTHING, before, after),
        Primitive::OpRename => line(&[Word::A], &[Word::A], NOTHING, before, after),
        _ => false,
    }
}

// Pairs, unions, options and lists.
fn parts(primitive: Primitive, before: &[Ty], after: &[Ty]) -> bool
    ensures { result ≡ table.parts primitive (kinds before.now) (kinds after.now) }
{
    match primitive {
        Primitive::OpCar => line(
            &[Word::Pair, Word::A, Word::B],
            &[Word::A],
            NOTHING,
            before,
            after,
        ),
        Primitive::OpCdr => line(
            &[Word::Pair, Word::A, Word::B],
            &[Word::B],
            NOTHING,
            before,
            after,
        ),
        Primitive::OpSome => line(&[Word::A], &[Word::Option, Word::A], NOTHING, before, after),
        Primitive::OpCons => line(
            &[Word::A, Word::List, Word::A],
            &[Word::List, Word::A],
            NOTHING,
            before,
            after,
        ),
        _ => false,
    }
}

// Sets, maps and big maps, and what has a size.
fn collections(primitive: Primitive, before: &[Ty], after: &[Ty]) -> bool
    ensures { result ≡ table.collections primitive (kinds before.now) (kinds after.now) }
{
    match primitive {
        Primitive::OpSize => line(&[Word::List, Word::A], &[Word::Nat], NOTHING, before, after)
            || line(&[Word::Set, Word::A], &[Word::Nat], NOTHING, before, after)
            || line(
                &[Word::Map, Word::A, Word::B],
                &[Word::Nat],
                NOTHING,
                before,
                after,
            )
            || line(&[Word::String], &[Word::Nat], NOTHING, before, after)
            || line(&[Word::Bytes], &[Word::Nat], NOTHING, before, after),
        Primitive::OpMem => line(
            &[Word::A, Word::Set, Word::A],
            &[Word::Bool],
            NOTHING,
            before,
            after,
        ) || line(
            &[Word::A, Word::Map, Word::A, Word::B],
            &[Word::Bool],
            NOTHING,
            before,
            after,
        ) || line(
            &[Word::A, Word::BigMap, Word::A, Word::B],
            &[Word::Bool],
            NOTHING,
            before,
            after,
        ),
        Primitive::OpGet => line(
            &[Word::A, Word::Map, Word::A, Word::DuplicableB],
            &[Word::Option, Word::B],
            NOTHING,
            before,
            after,
        ) || line(
            &[Word::A, Word::BigMap, Word::A, Word::DuplicableB],
            &[Word::Option, Word::B],
            NOTHING,
            before,
            after,
        ),
        Primitive::OpUpdate => line(
            &[Word::A, Word::Bool, Word::Set, Word::A],
            &[Word::Set, Word::A],
            NOTHING,
            before,
            after,
        ) || line(
            &[Word::A, Word::Option, Word::B, Word::Map, Word::A, Word::B],
            &[Word::Map, Word::A, Word::B],
            NOTHING,
            before,
            after,
        ) || line(
            &[
                Word::A,
                Word::Option,
                Word::B,
                Word::BigMap,
                Word::A,
                Word::B,
            ],
            &[Word::BigMap, Word::A, Word::B],
            NOTHING,
            before,
            after,
        ),
        Primitive::OpGetAndUpdate => line(
            &[Word::A, Word::Option, Word::B, Word::Map, Word::A, Word::B],
            &[Word::Option, Word::B, Word::Map, Word::A, Word::B],
            NOTHING,
            before,
            after,
        ) || line(
            &[
                Word::A,
                Word::Option,
                Word::B,
                Word::BigMap,
                Word::A,
                Word::B,
            ],
            &[Word::Option, Word::B, Word::BigMap, Word::A, Word::B],
            NOTHING,
            before,
            after,
        ),
        _ => false,
    }
}

// Arithmetic.
fn numbers(primitive: Primitive, before: &[Ty], after: &[Ty]) -> bool
    ensures { result ≡ table.numbers primitive (kinds before.now) (kinds after.now) }
{
    match primitive {
        Primitive::OpAdd => line(
            &[Word::Nat, Word::Nat],
            &[Word::Nat],
            NOTHING,
            before,
            after,
        ) || line(
            &[Word::Nat, Word::Int],
            &[Word::Int],
            NOTHING,
            before,
            after,
        ) || line(
            &[Word::Int, Word::Nat],
            &[Word::Int],
            NOTHING,
            before,
            after,
        ) || line(
            &[Word::Int, Word::Int],
            &[Word::Int],
            NOTHING,
            before,
            after,
        ) || line(
            &[Word::Timestamp, Word::Int],
            &[Word::Timestamp],
            NOTHING,
            before,
            after,
        ) || line(
            &[Word::Int, Word::Timestamp],
            &[Word::Timestamp],
            NOTHING,
            before,
            after,
        ) || line(
            &[Word::Mutez, Word::Mutez],
            &[Word::Mutez],
            NOTHING,
            before,
            after,
        ),
        Primitive::OpSub => line(
            &[Word::Nat, Word::Nat],
            &[Word::Int],
            NOTHING,
            before,
            after,
        ) || line(
            &[Word::Nat, Word::Int],
            &[Word::Int],
            NOTHING,
            before,
            after,
        ) || line(
            &[Word::Int, Word::Nat],
            &[Word::Int],
            NOTHING,
            before,
            after,
        ) || line(
            &[Word::Int, Word::Int],
            &[Word::Int],
            NOTHING,
            before,
            after,
        ) || line(
            &[Word::Timestamp, Word::Int],
            &[Word::Timestamp],
            NOTHING,
            before,
            after,
        ) || line(
            &[Word::Timestamp, Word::Timestamp],
            &[Word::Int],
            NOTHING,
            before,
            after,
        ),
        Primitive::OpSubMutez => line(
            &[Word::Mutez, Word::Mutez],
            &[Word::Option, Word::Mutez],
            NOTHING,
            before,
            after,
        ),
        Primitive::OpMul => line(
            &[Word::Nat, Word::Nat],
            &[Word::Nat],
            NOTHING,
            before,
            after,
        ) || line(
            &[Word::Nat, Word::Int],
            &[Word::Int],
            NOTHING,
            before,
            after,
        ) || line(
            &[Word::Int, Word::Nat],
            &[Word::Int],
            NOTHING,
            before,
            after,
        ) || line(
            &[Word::Int, Word::Int],
            &[Word::Int],
            NOTHING,
            before,
            after,
        ) || line(
            &[Word::Mutez, Word::Nat],
            &[Word::Mutez],
            NOTHING,
            before,
            after,
        ) || line(
            &[Word::Nat, Word::Mutez],
            &[Word::Mutez],
            NOTHING,
            before,
            after,
        ),
        Primitive::OpEdiv => line(
            &[Word::Nat, Word::Nat],
            &[Word::Option, Word::Pair, Word::Nat, Word::Nat],
            NOTHING,
            before,
            after,
        ) || line(
            &[Word::Nat, Word::Int],
            &[Word::Option, Word::Pair, Word::Int, Word::Nat],
            NOTHING,
            before,
            after,
        ) || line(
            &[Word::Int, Word::Nat],
            &[Word::Option, Word::Pair, Word::Int, Word::Nat],
            NOTHING,
            before,
            after,
        ) || line(
            &[Word::Int, Word::Int],
            &[Word::Option, Word::Pair, Word::Int, Word::Nat],
            NOTHING,
            before,
            after,
        ) || line(
            &[Word::Mutez, Word::Nat],
            &[Word::Option, Word::Pair, Word::Mutez, Word::Mutez],
            NOTHING,
            before,
            after,
        ) || line(
            &[Word::Mutez, Word::Mutez],
            &[Word::Option, Word::Pair, Word::Nat, Word::Mutez],
            NOTHING,
            before,
            after,
        ),
        Primitive::OpAbs => line(&[Word::Int], &[Word::Nat], NOTHING, before, after),
        Primitive::OpNeg => line(&[Word::Nat], &[Word::Int], NOTHING, before, after)
            || line(&[Word::Int], &[Word::Int], NOTHING, before, after),
        Primitive::OpInt => line(&[Word::Nat], &[Word::Int], NOTHING, before, after)
            || line(&[Word::Bytes], &[Word::Int], NOTHING, before, after),
        Primitive::OpNat => line(&[Word::Bytes], &[Word::Nat], NOTHING, before, after),
        Primitive::OpBytes => line(&[Word::Nat], &[Word::Bytes], NOTHING, before, after)
            || line(&[Word::Int], &[Word::Bytes], NOTHING, before, after),
        Primitive::OpIsnat => line(
            &[Word::Int],
            &[Word::Option, Word::Nat],
            NOTHING,
            before,
            after,
        ),
        Primitive::OpLsl => line(
            &[Word::Nat, Word::Nat],
            &[Word::Nat],
            NOTHING,
            before,
            after,
        ),
        Primitive::OpLsr => line(
            &[Word::Nat, Word::Nat],
            &[Word::Nat],
            NOTHING,
            before,
            after,
        ),
        _ => false,
    }
}

// Truth values and bits, and comparison.
fn logic(primitive: Primitive, before: &[Ty], after: &[Ty]) -> bool
    ensures { result ≡ table.logic primitive (kinds before.now) (kinds after.now) }
{
    match primitive {
        Primitive::OpAnd => line(
            &[Word::Bool, Word::Bool],
            &[Word::Bool],
            NOTHING,
            before,
            after,
        ) || line(
            &[Word::Nat, Word::Nat],
            &[Word::Nat],
            NOTHING,
            before,
            after,
        ) || line(
            &[Word::Int, Word::Nat],
            &[Word::Nat],
            NOTHING,
            before,
            after,
        ),
        Primitive::OpOr => line(
            &[Word::Bool, Word::Bool],
            &[Word::Bool],
            NOTHING,
            before,
            after,
        ) || line(
            &[Word::Nat, Word::Nat],
            &[Word::Nat],
            NOTHING,
            before,
            after,
        ),
        Primitive::OpXor => line(
            &[Word::Bool, Word::Bool],
            &[Word::Bool],
            NOTHING,
            before,
            after,
        ) || line(
            &[Word::Nat, Word::Nat],
            &[Word::Nat],
            NOTHING,
            before,
            after,
        ),
        Primitive::OpNot => line(&[Word::Bool], &[Word::Bool], NOTHING, before, after)
            || line(&[Word::Nat], &[Word::Int], NOTHING, before, after)
            || line(&[Word::Int], &[Word::Int], NOTHING, before, after),
        Primitive::OpCompare => line(
            &[Word::ComparableA, Word::A],
            &[Word::Int],
            NOTHING,
            before,
            after,
        ),
        Primitive::OpEq => line(&[Word::Int], &[Word::Bool], NOTHING, before, after),
        Primitive::OpNeq => line(&[Word::Int], &[Word::Bool], NOTHING, before, after),
        Primitive::OpLt => line(&[Word::Int], &[Word::Bool], NOTHING, before, after),
        Primitive::OpGt => line(&[Word::Int], &[Word::Bool], NOTHING, before, after),
        Primitive::OpLe => line(&[Word::Int], &[Word::Bool], NOTHING, before, after),
        Primitive::OpGe => line(&[Word::Int], &[Word::Bool], NOTHING, before, after),
        _ => false,
    }
}

// Strings and bytes, packing and hashes.
fn texts(primitive: Primitive, before: &[Ty], after: &[Ty]) -> bool
    ensures { result ≡ table.texts primitive (kinds before.now) (kinds after.now) }
{
    match primitive {
        Primitive::OpConcat => line(
            &[Word::String, Word::String],
            &[Word::String],
            NOTHING,
            before,
            after,
        ) || line(
            &[Word::Bytes, Word::Bytes],
            &[Word::Bytes],
            NOTHING,
            before,
            after,
        ) || line(
            &[Word::List, Word::String],
            &[Word::String],
            NOTHING,
            before,
            after,
        ) || line(
            &[Word::List, Word::Bytes],
            &[Word::Bytes],
            NOTHING,
            before,
            after,
        ),
        Primitive::OpSlice => line(
            &[Word::Nat, Word::Nat, Word::String],
            &[Word::Option, Word::String],
            NOTHING,
            before,
            after,
        ) || line(
            &[Word::Nat, Word::Nat, Word::Bytes],
            &[Word::Option, Word::Bytes],
            NOTHING,
            before,
            after,
        ),
        Primitive::OpPack => line(&[Word::PackableA], &[Word::Bytes], NOTHING, before, after),
        Primitive::OpBlake2b => line(&[Word::Bytes], &[Word::Bytes], NOTHING, before, after),
        Primitive::OpSha256 => line(&[Word::Bytes], &[Word::Bytes], NOTHING, before, after),
        Primitive::OpSha512 => line(&[Word::Bytes], &[Word::Bytes], NOTHING, before, after),
        Primitive::OpHashKey => line(&[Word::Key], &[Word::KeyHash], NOTHING, before, after),
        _ => false,
    }
}

// What surrounds a run.
fn surroundings(primitive: Primitive, before: &[Ty], after: &[Ty]) -> bool
    ensures { result ≡ table.surroundings primitive (kinds before.now) (kinds after.now) }
{
    match primitive {
        Primitive::OpAmount => line(&[], &[Word::Mutez], NOTHING, before, after),
        Primitive::OpBalance => line(&[], &[Word::Mutez], NOTHING, before, after),
        Primitive::OpSender => line(&[], &[Word::Address], NOTHING, before, after),
        Primitive::OpSource => line(&[], &[Word::Address], NOTHING, before, after),
        Primitive::OpSelfAddress => line(&[], &[Word::Address], NOTHING, before, after),
        Primitive::OpNow => line(&[], &[Word::Timestamp], NOTHING, before, after),
        Primitive::OpLevel => line(&[], &[Word::Nat], NOTHING, before, after),
        Primitive::OpChainId => line(&[], &[Word::ChainId], NOTHING, before, after),
        _ => false,
    }
}

// Contracts, operations and tickets; lambdas.
fn operations(primitive: Primitive, before: &[Ty], after: &[Ty]) -> bool
    ensures { result ≡ table.operations primitive (kinds before.now) (kinds after.now) }
{
    match primitive {
        Primitive::OpAddress => line(
            &[Word::Contract, Word::A],
            &[Word::Address],
            NOTHING,
            before,
            after,
        ),
        Primitive::OpImplicitAccount => line(
            &[Word::KeyHash],
            &[Word::Contract, Word::Unit],
            NOTHING,
            before,
            after,
        ),
        Primitive::OpTransferTokens => line(
            &[Word::A, Word::Mutez, Word::Contract, Word::A],
            &[Word::Operation],
            NOTHING,
            before,
            after,
        ),
        Primitive::OpEmit => line(
            &[Word::PushableA],
            &[Word::Operation],
            NOTHING,
            before,
            after,
        ),
        Primitive::OpTicket => line(
            &[Word::ComparableA, Word::Nat],
            &[Word::Option, Word::Ticket, Word::A],
            NOTHING,
            before,
            after,
        ),
        Primitive::OpReadTicket => line(
            &[Word::Ticket, Word::A],
            &[
                Word::Pair,
                Word::Address,
                Word::Pair,
                Word::A,
                Word::Nat,
                Word::Ticket,
                Word::A,
            ],
            NOTHING,
            before,
            after,
        ),
        Primitive::OpSplitTicket => line(
            &[Word::Ticket, Word::A, Word::Pair, Word::Nat, Word::Nat],
            &[
                Word::Option,
                Word::Pair,
                Word::Ticket,
                Word::A,
                Word::Ticket,
                Word::A,
            ],
            NOTHING,
            before,
            after,
        ),
        Primitive::OpJoinTickets => line(
            &[Word::Pair, Word::Ticket, Word::A, Word::Ticket, Word::A],
            &[Word::Option, Word::Ticket, Word::A],
            NOTHING,
            before,
            after,
        ),
        Primitive::OpExec => line(
            &[Word::A, Word::Lambda, Word::A, Word::B],
            &[Word::B],
            NOTHING,
            before,
            after,
        ),
        Primitive::OpApply => line(
            &[
                Word::PushableA,
                Word::Lambda,
                Word::Pair,
                Word::A,
                Word::B,
                Word::C,
            ],
            &[Word::Lambda, Word::B, Word::C],
            NOTHING,
            before,
            after,
        ),
        _ => false,
    }
}

// An instruction without arguments.
pub(crate) fn plain(primitive: Primitive, before: &[Ty], after: &[Ty]) -> bool
    ensures { result ≡ table.plain primitive (kinds before.now) (kinds after.now) }
{
    stack(primitive, before, after)
        || parts(primitive, before, after)
        || collections(primitive, before, after)
        || numbers(primitive, before, after)
        || logic(primitive, before, after)
        || texts(primitive, before, after)
        || surroundings(primitive, before, after)
        || operations(primitive, before, after)
}

// An instruction that one type is written in, or two: the open types of its line.
pub(crate) fn written(primitive: Primitive, known: Known<'_>, before: &[Ty], after: &[Ty]) -> bool
    ensures { result ≡ table.written primitive (known_kinds known.entry) (kinds before.now) (kinds after.now) }
{
    match primitive {
        Primitive::OpCast => line(&[Word::A], &[Word::A], known, before, after),
        Primitive::OpLeft => line(
            &[Word::B],
            &[Word::Or, Word::B, Word::A],
            known,
            before,
            after,
        ),
        Primitive::OpRight => line(
            &[Word::B],
            &[Word::Or, Word::A, Word::B],
            known,
            before,
            after,
        ),
        Primitive::OpNone => line(&[], &[Word::Option, Word::A], known, before, after),
        Primitive::OpNil => line(&[], &[Word::List, Word::A], known, before, after),
        Primitive::OpEmptySet => line(&[], &[Word::Set, Word::A], known, before, after),
        Primitive::OpEmptyMap => line(&[], &[Word::Map, Word::A, Word::B], known, before, after),
        Primitive::OpEmptyBigMap => line(
            &[],
            &[Word::BigMap, Word::A, Word::B],
            known,
            before,
            after,
        ),
        Primitive::OpUnpack => line(
            &[Word::Bytes],
            &[Word::Option, Word::A],
            known,
            before,
            after,
        ),
        Primitive::OpContract => line(
            &[Word::Address],
            &[Word::Option, Word::Contract, Word::A],
            known,
            before,
            after,
        ),
        Primitive::OpEmit => line(&[Word::PushableA], &[Word::Operation], known, before, after),
        Primitive::OpView => line(
            &[Word::B, Word::Address],
            &[Word::Option, Word::A],
            known,
            before,
            after,
        ),
        Primitive::OpPush => line(&[], &[Word::A], known, before, after),
        Primitive::OpLambda => line(&[], &[Word::Lambda, Word::A, Word::B], known, before, after),
        Primitive::OpLambdaRec => line(
            &[],
            &[Word::Lambda, Word::A, Word::B],
            known,
            before,
            after,
        ),
        Primitive::OpSelf => line(&[], &[Word::Contract, Word::A], known, before, after),
        Primitive::OpCreateContract => line(
            &[Word::Option, Word::KeyHash, Word::Mutez, Word::A],
            &[Word::Operation, Word::Address],
            known,
            before,
            after,
        ),
        _ => false,
    }
}

// With which stacks the two branches of an instruction begin.
pub(crate) fn branch_begins(primitive: Primitive, before: &[Ty], one: &[Ty], other: &[Ty]) -> bool
    ensures { result ≡ table.branch_begins primitive (kinds before.now) (kinds one.now) (kinds other.now) }
{
    match primitive {
        Primitive::OpIf => line(&[Word::Bool], &[], NOTHING, before, one)
            && line(&[Word::Bool], &[], NOTHING, before, other),
        Primitive::OpIfNone => line(&[Word::Option, Word::A], &[], NOTHING, before, one)
            && line(&[Word::Option, Word::A], &[Word::A], NOTHING, before, other),
        Primitive::OpIfLeft => line(
            &[Word::Or, Word::A, Word::B],
            &[Word::A],
            NOTHING,
            before,
            one,
        ) && line(
            &[Word::Or, Word::A, Word::B],
            &[Word::B],
            NOTHING,
            before,
            other,
        ),
        Primitive::OpIfCons => line(
            &[Word::List, Word::A],
            &[Word::A, Word::List, Word::A],
            NOTHING,
            before,
            one,
        ) && line(&[Word::List, Word::A], &[], NOTHING, before, other),
        _ => false,
    }
}

// With which stack the body of a loop begins.
pub(crate) fn begins(primitive: Primitive, before: &[Ty], begun: &[Ty]) -> bool
    ensures { result ≡ table.begins primitive (kinds before.now) (kinds begun.now) }
{
    match primitive {
        Primitive::OpLoop => line(&[Word::Bool], &[], NOTHING, before, begun),
        Primitive::OpLoopLeft => line(
            &[Word::Or, Word::A, Word::B],
            &[Word::A],
            NOTHING,
            before,
            begun,
        ),
        Primitive::OpIter => (line(&[Word::List, Word::A], &[Word::A], NOTHING, before, begun)
            || line(&[Word::Set, Word::A], &[Word::A], NOTHING, before, begun)
            || line(
                &[Word::Map, Word::A, Word::B],
                &[Word::Pair, Word::A, Word::B],
                NOTHING,
                before,
                begun,
            )),
        _ => false,
    }
}

// With which stack the body of a loop ends, where it does not fail.
pub(crate) fn ends(primitive: Primitive, before: &[Ty], ended: &[Ty]) -> bool
    ensures { result ≡ table.ends primitive (kinds before.now) (kinds ended.now) }
{
    match primitive {
        Primitive::OpLoop => line(&[], &[], NOTHING, before, ended),
        Primitive::OpLoopLeft => line(&[], &[], NOTHING, before, ended),
        Primitive::OpIter => line(&[Word::A], &[], NOTHING, before, ended),
        _ => false,
    }
}

// Which stack a loop leaves.
pub(crate) fn leaves(primitive: Primitive, before: &[Ty], after: &[Ty]) -> bool
    ensures { result ≡ table.leaves primitive (kinds before.now) (kinds after.now) }
{
    match primitive {
        Primitive::OpLoop => line(&[Word::Bool], &[], NOTHING, before, after),
        Primitive::OpLoopLeft => line(
            &[Word::Or, Word::A, Word::B],
            &[Word::B],
            NOTHING,
            before,
            after,
        ),
        Primitive::OpIter => line(&[Word::A], &[], NOTHING, before, after),
        _ => false,
    }
}

// MAP, by the stack before it, those that its body begins and ends with, and the one after it.
pub(crate) fn mapped(before: &[Ty], begun: &[Ty], ended: &[Ty], after: &[Ty]) -> bool
    ensures { result ≡ table.mapped (kinds before.now) (kinds begun.now) (kinds ended.now) (kinds after.now) }
{
    (line(&[Word::List, Word::A], &[Word::A], NOTHING, before, begun)
        && line(
            &[Word::List, Word::A],
            &[Word::List, Word::B],
            NOTHING,
            before,
            after,
        )
        && line(&[Word::A], &[Word::List, Word::A], NOTHING, ended, after))
        || (line(&[Word::Option, Word::A], &[Word::A], NOTHING, before, begun)
            && line(
                &[Word::Option, Word::A],
                &[Word::Option, Word::B],
                NOTHING,
                before,
                after,
            )
            && line(&[Word::A], &[Word::Option, Word::A], NOTHING, ended, after))
        || (line(
            &[Word::Map, Word::A, Word::B],
            &[Word::Pair, Word::A, Word::B],
            NOTHING,
            before,
            begun,
        ) && line(
            &[Word::Map, Word::A, Word::B],
            &[Word::Map, Word::A, Word::C],
            NOTHING,
            before,
            after,
        ) && line(
            &[Word::B],
            &[Word::Map, Word::A, Word::B],
            NOTHING,
            ended,
            after,
        ))
}

// Whether an instruction without arguments fails on a stack.
pub(crate) fn failing(primitive: Primitive, before: &[Ty]) -> bool
    ensures { result ≡ table.failing primitive (kinds before.now) }
{
    match primitive {
        Primitive::OpFailwith => meets(&[Word::PushableA], before, NOTHING).is_some(),
        Primitive::OpNever => meets(&[Word::Never], before, NOTHING).is_some(),
        _ => false,
    }
}
