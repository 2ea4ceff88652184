// Instructions without bodies, whose overload is chosen.
ghost use Rattle.std.specs.Prelude.{◌≡◌};
ghost use Rattle.mich_overload.specs.View.{collection_row, straight};
ghost use Rattle.mich_overload.specs.Steps.{in_step, is_on_big_map};

use mich_base::{Text, Ty};
use mich_forms::Entrypoint;

/// An instruction that has no bodies, with its overload chosen (Michelson reference, "Instructions"). What else of its operands
/// and arguments chooses the rule stands in it.
#[derive(Debug, Drop)]
pub enum Simple {
    Stack(StackRow),
    Pairs(PairRow),
    Unions(UnionRow),
    Collections(CollectionRow),
    Numbers(NumberRow),
    Logic(LogicRow),
    Texts(TextRow),
    Hashes(HashRow),
    Environment(EnvironmentRow),
    Operations(OperationRow),
    Tickets(TicketRow),
}

/// The order of the stack. DROP and DUP are DROP 1 and DUP 1.
#[derive(Debug, Drop)]
pub enum StackRow {
    Drop(u32),
    Dup(u32),
    Swap,
    Dig(u32),
    Dug(u32),
    Unit,
    Cast(Ty),
    Rename,
}

/// Pairs, and combs of pairs. PAIR and UNPAIR are PAIR 2 and UNPAIR 2.
#[derive(Debug, Drop)]
pub enum PairRow {
    Pair(u32),
    Unpair(u32),
    Car,
    Cdr,
    GetPart(u32),
    UpdatePart(u32),
}

/// Unions, options and lists. LEFT holds the right type, RIGHT the left one.
#[derive(Debug, Drop)]
pub enum UnionRow {
    Left(Ty),
    Right(Ty),
    Some,
    None(Ty),
    Nil(Ty),
    Cons,
}

/// Sets, maps and big maps, and the sizes of lists.
#[derive(Debug, Drop)]
pub enum CollectionRow {
    EmptySet(Ty),
    EmptyMap(Ty, Ty),
    EmptyBigMap(Ty, Ty),
    SizeList,
    SizeSet,
    SizeMap,
    MemSet,
    MemMap,
    MemBigMap,
    GetMap,
    GetBigMap,
    UpdateSet,
    UpdateMap,
    UpdateBigMap,
    GetAndUpdateMap,
    GetAndUpdateBigMap,
}

/// Arithmetic: numbers are int, nat and timestamp, amounts are mutez; and numbers as bytes.
#[derive(Debug, Drop)]
pub enum NumberRow {
    AddNumbers,
    AddAmounts,
    Sub,
    SubMutez,
    MulNumbers,
    MulAmounts,
    Ediv,
    Abs,
    Neg,
    Int,
    Isnat,
    Lsl,
    Lsr,
    NatToBytes,
    IntToBytes,
    BytesToNat,
    BytesToInt,
}

/// Truth values and bits, and comparison.
#[derive(Debug, Drop)]
pub enum LogicRow {
    AndBools,
    OrBools,
    XorBools,
    NotBool,
    AndNumbers,
    OrNumbers,
    XorNumbers,
    NotNumber,
    Compare,
    Eq,
    Neq,
    Lt,
    Gt,
    Le,
    Ge,
}

/// Strings and bytes.
#[derive(Debug, Drop)]
pub enum TextRow {
    ConcatStrings,
    ConcatBytes,
    ConcatStringList,
    ConcatBytesList,
    SliceString,
    SliceBytes,
    SizeString,
    SizeBytes,
}

/// Packing and hashes. UNPACK holds its type.
#[derive(Debug, Drop)]
pub enum HashRow {
    Pack,
    Unpack(Ty),
    Blake2b,
    Sha256,
    Sha512,
    HashKey,
}

/// What surrounds a run.
#[derive(Debug, Drop)]
pub enum EnvironmentRow {
    Amount,
    Balance,
    Sender,
    Source,
    SelfAddress,
    Now,
    Level,
    ChainId,
}

/// Contracts and operations. CONTRACT holds the entrypoint of its annotation, or `default`, and its type; EMIT its tag, which may be
/// empty, and the type of what it tells; VIEW its name and the types of its input and output.
#[derive(Debug, Drop)]
pub enum OperationRow {
    Address,
    ImplicitAccount,
    Contract(Entrypoint, Ty),
    TransferTokens,
    Emit(Text, Ty),
    View(Text, Ty, Ty),
}

/// Tickets. TICKET holds the type of the content.
#[derive(Debug, Drop)]
pub enum TicketRow {
    Ticket(Ty),
    ReadTicket,
    SplitTicket,
    JoinTickets,
}

impl Simple {
    /// Whether it asks for nothing but the stack, the tickets and what surrounds the run. The others pack, hash, look up or issue, or
    /// work on big maps.
    #[inline(always)]
    pub fn in_step(&self) -> bool
        ensures { result ≡ in_step (straight self.now) }
    {
        match self {
            Simple::Hashes(_) => false,
            Simple::Collections(row) => !row.is_on_big_map(),
            Simple::Operations(row) => matches!(
                row,
                OperationRow::Address | OperationRow::ImplicitAccount
            ),
            _ => true,
        }
    }
}

impl CollectionRow {
    // Whether it makes a big map or works on one.
    #[inline(always)]
    fn is_on_big_map(&self) -> bool
        ensures { result ≡ is_on_big_map (collection_row self.now) }
    {
        match self {
            CollectionRow::EmptyBigMap(_, _) => true,
            CollectionRow::MemBigMap | CollectionRow::GetBigMap => true,
            CollectionRow::UpdateBigMap | CollectionRow::GetAndUpdateBigMap => true,
            _ => false,
        }
    }
}
