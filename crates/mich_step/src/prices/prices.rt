// The kinds of cost of instructions without bodies.
ghost use Rattle.std.specs.Prelude.{◌≡◌};
ghost use Rattle.rules_code.specs.steps.Costs.{kind_of, stack_kind, pair_kind, union_kind, collection_kind, number_kind, logic_kind, text_kind, hash_kind, environment_kind, operation_kind, ticket_kind};
ghost use Rattle.mich_overload.specs.View.{straight, stack_row, pair_row, union_row, collection_row, number_row, logic_row, text_row, hash_row, environment_row, operation_row, ticket_row};

use mich_gas::Kind;
use mich_overload::{
    CollectionRow, EnvironmentRow, HashRow, LogicRow, NumberRow, OperationRow, PairRow, Simple,
    StackRow, TextRow, TicketRow, UnionRow,
};

fn stack_price(row: &StackRow) -> Kind
    ensures { result ≡ stack_kind (stack_row row.now) }
{
    match row {
        StackRow::Drop(_) => Kind::Drop,
        StackRow::Dup(_) => Kind::Dup,
        StackRow::Swap => Kind::Swap,
        StackRow::Dig(_) => Kind::Dig,
        StackRow::Dug(_) => Kind::Dug,
        StackRow::Unit => Kind::Unit,
        StackRow::Cast(_) => Kind::Cast,
        StackRow::Rename => Kind::Rename,
    }
}

/// The kind of one on pairs.
#[inline(always)]
pub fn pair_price(row: &PairRow) -> Kind
    ensures { result ≡ pair_kind (pair_row row.now) }
{
    match row {
        PairRow::Pair(_) => Kind::Pair,
        PairRow::Unpair(_) => Kind::Unpair,
        PairRow::Car => Kind::Car,
        PairRow::Cdr => Kind::Cdr,
        PairRow::GetPart(_) => Kind::Get,
        PairRow::UpdatePart(_) => Kind::Update,
    }
}

/// The kind of one on options and unions.
#[inline(always)]
pub fn union_price(row: &UnionRow) -> Kind
    ensures { result ≡ union_kind (union_row row.now) }
{
    match row {
        UnionRow::Left(_) => Kind::Left,
        UnionRow::Right(_) => Kind::Right,
        UnionRow::Some => Kind::Some,
        UnionRow::None(_) => Kind::None,
        UnionRow::Nil(_) => Kind::Nil,
        UnionRow::Cons => Kind::Cons,
    }
}

/// The kind of one on collections.
pub fn collection_price(row: &CollectionRow) -> Kind
    ensures { result ≡ collection_kind (collection_row row.now) }
{
    match row {
        CollectionRow::EmptySet(_) => Kind::EmptySet,
        CollectionRow::EmptyMap(_, _) => Kind::EmptyMap,
        CollectionRow::EmptyBigMap(_, _) => Kind::EmptyBigMap,
        CollectionRow::SizeList | CollectionRow::SizeSet | CollectionRow::SizeMap => Kind::Size,
        CollectionRow::MemSet | CollectionRow::MemMap | CollectionRow::MemBigMap => Kind::Mem,
        CollectionRow::GetMap | CollectionRow::GetBigMap => Kind::Get,
        CollectionRow::UpdateSet | CollectionRow::UpdateMap | CollectionRow::UpdateBigMap =>
            Kind::Update,
        CollectionRow::GetAndUpdateMap | CollectionRow::GetAndUpdateBigMap => Kind::GetAndUpdate,
    }
}

/// The kind of one on numbers.
#[inline(always)]
pub fn number_price(row: &NumberRow) -> Kind
    ensures { result ≡ number_kind (number_row row.now) }
{
    match row {
        NumberRow::AddNumbers | NumberRow::AddAmounts => Kind::Add,
        NumberRow::Sub => Kind::Sub,
        NumberRow::SubMutez => Kind::SubMutez,
        NumberRow::MulNumbers | NumberRow::MulAmounts => Kind::Mul,
        NumberRow::Ediv => Kind::Ediv,
        NumberRow::Abs => Kind::Abs,
        NumberRow::Neg => Kind::Neg,
        NumberRow::Int | NumberRow::BytesToInt => Kind::Int,
        NumberRow::Isnat => Kind::Isnat,
        NumberRow::Lsl => Kind::Lsl,
        NumberRow::Lsr => Kind::Lsr,
        NumberRow::NatToBytes | NumberRow::IntToBytes => Kind::Bytes,
        NumberRow::BytesToNat => Kind::Nat,
    }
}

/// The kind of one on truth values and comparisons.
#[inline(always)]
pub fn logic_price(row: &LogicRow) -> Kind
    ensures { result ≡ logic_kind (logic_row row.now) }
{
    match row {
        LogicRow::AndBools | LogicRow::AndNumbers => Kind::And,
        LogicRow::OrBools | LogicRow::OrNumbers => Kind::Or,
        LogicRow::XorBools | LogicRow::XorNumbers => Kind::Xor,
        LogicRow::NotBool | LogicRow::NotNumber => Kind::Not,
        LogicRow::Compare => Kind::Compare,
        LogicRow::Eq => Kind::Eq,
        LogicRow::Neq => Kind::Neq,
        LogicRow::Lt => Kind::Lt,
        LogicRow::Gt => Kind::Gt,
        LogicRow::Le => Kind::Le,
        LogicRow::Ge => Kind::Ge,
    }
}

fn text_price(row: &TextRow) -> Kind
    ensures { result ≡ text_kind (text_row row.now) }
{
    match row {
        TextRow::ConcatStrings
        | TextRow::ConcatBytes
        | TextRow::ConcatStringList
        | TextRow::ConcatBytesList => Kind::Concat,
        TextRow::SliceString | TextRow::SliceBytes => Kind::Slice,
        TextRow::SizeString | TextRow::SizeBytes => Kind::Size,
    }
}

/// The kind of one that packs, unpacks or hashes.
pub fn hash_price(row: &HashRow) -> Kind
    ensures { result ≡ hash_kind (hash_row row.now) }
{
    match row {
        HashRow::Pack => Kind::Pack,
        HashRow::Unpack(_) => Kind::Unpack,
        HashRow::Blake2b => Kind::Blake2b,
        HashRow::Sha256 => Kind::Sha256,
        HashRow::Sha512 => Kind::Sha512,
        HashRow::HashKey => Kind::HashKey,
    }
}

fn environment_price(row: &EnvironmentRow) -> Kind
    ensures { result ≡ environment_kind (environment_row row.now) }
{
    match row {
        EnvironmentRow::Amount => Kind::Amount,
        EnvironmentRow::Balance => Kind::Balance,
        EnvironmentRow::Sender => Kind::Sender,
        EnvironmentRow::Source => Kind::Source,
        EnvironmentRow::SelfAddress => Kind::SelfAddress,
        EnvironmentRow::Now => Kind::Now,
        EnvironmentRow::Level => Kind::Level,
        EnvironmentRow::ChainId => Kind::ChainId,
    }
}

fn operation_price(row: &OperationRow) -> Kind
    ensures { result ≡ operation_kind (operation_row row.now) }
{
    match row {
        OperationRow::Address => Kind::Address,
        OperationRow::ImplicitAccount => Kind::ImplicitAccount,
        OperationRow::Contract(_, _) => Kind::Contract,
        OperationRow::TransferTokens => Kind::TransferTokens,
        OperationRow::Emit(_, _) => Kind::Emit,
        OperationRow::View(_, _, _) => Kind::View,
    }
}

fn ticket_price(row: &TicketRow) -> Kind
    ensures { result ≡ ticket_kind (ticket_row row.now) }
{
    match row {
        TicketRow::Ticket(_) => Kind::Ticket,
        TicketRow::ReadTicket => Kind::ReadTicket,
        TicketRow::SplitTicket => Kind::SplitTicket,
        TicketRow::JoinTickets => Kind::JoinTickets,
    }
}

/// The kind that an instruction without bodies is charged as (this host's cost table).
pub fn price(instr: &Simple) -> Kind
    ensures { result ≡ kind_of (straight instr.now) }
{
    match instr {
        Simple::Stack(row) => stack_price(row),
        Simple::Pairs(row) => pair_price(row),
        Simple::Unions(row) => union_price(row),
        Simple::Collections(row) => collection_price(row),
        Simple::Numbers(row) => number_price(row),
        Simple::Logic(row) => logic_price(row),
        Simple::Texts(row) => text_price(row),
        Simple::Hashes(row) => hash_price(row),
        Simple::Environment(row) => environment_price(row),
        Simple::Operations(row) => operation_price(row),
        Simple::Tickets(row) => ticket_price(row),
    }
}
