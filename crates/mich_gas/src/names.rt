// The kinds of cost by name.
ghost use Rattle.std.specs.Prelude.{◌≡◌, map, option_map};
ghost use Rattle.std.specs.List.{find};
ghost use Rattle.std.specs.Str.{bytes_eq};
ghost use Rattle.mich_gas.specs.View.{seen_row};
ghost use Rattle.rules_data.specs.gas.Kinds.{kind_named};

use mich_base::Text;
use rules_data::gas::Kind;

/// Each kind beside its name, in the order of the bytes of the names.
pub(crate) static KINDS: [(&str, Kind); 98] = [
    ("ABS", Kind::Abs),
    ("ADD", Kind::Add),
    ("ADDRESS", Kind::Address),
    ("AMOUNT", Kind::Amount),
    ("AND", Kind::And),
    ("APPLY", Kind::Apply),
    ("BALANCE", Kind::Balance),
    ("BLAKE2B", Kind::Blake2b),
    ("BYTES", Kind::Bytes),
    ("CAR", Kind::Car),
    ("CAST", Kind::Cast),
    ("CDR", Kind::Cdr),
    ("CHAIN_ID", Kind::ChainId),
    ("COMPARE", Kind::Compare),
    ("CONCAT", Kind::Concat),
    ("CONS", Kind::Cons),
    ("CONTRACT", Kind::Contract),
    ("CREATE_CONTRACT", Kind::CreateContract),
    ("DIG", Kind::Dig),
    ("DIP", Kind::Dip),
    ("DROP", Kind::Drop),
    ("DUG", Kind::Dug),
    ("DUP", Kind::Dup),
    ("EDIV", Kind::Ediv),
    ("EMIT", Kind::Emit),
    ("EMPTY_BIG_MAP", Kind::EmptyBigMap),
    ("EMPTY_MAP", Kind::EmptyMap),
    ("EMPTY_SET", Kind::EmptySet),
    ("EQ", Kind::Eq),
    ("EXEC", Kind::Exec),
    ("Event", Kind::Event),
    ("FAILWITH", Kind::Failwith),
    ("GE", Kind::Ge),
    ("GET", Kind::Get),
    ("GET_AND_UPDATE", Kind::GetAndUpdate),
    ("GT", Kind::Gt),
    ("HASH_KEY", Kind::HashKey),
    ("IF", Kind::If),
    ("IF_CONS", Kind::IfCons),
    ("IF_LEFT", Kind::IfLeft),
    ("IF_NONE", Kind::IfNone),
    ("IMPLICIT_ACCOUNT", Kind::ImplicitAccount),
    ("INT", Kind::Int),
    ("ISNAT", Kind::Isnat),
    ("ITER", Kind::Iter),
    ("JOIN_TICKETS", Kind::JoinTickets),
    ("LAMBDA", Kind::Lambda),
    ("LAMBDA_REC", Kind::LambdaRec),
    ("LE", Kind::Le),
    ("LEFT", Kind::Left),
    ("LEVEL", Kind::Level),
    ("LOOP", Kind::Loop),
    ("LOOP_LEFT", Kind::LoopLeft),
    ("LSL", Kind::Lsl),
    ("LSR", Kind::Lsr),
    ("LT", Kind::Lt),
    ("MAP", Kind::Map),
    ("MEM", Kind::Mem),
    ("MUL", Kind::Mul),
    ("NAT", Kind::Nat),
    ("NEG", Kind::Neg),
    ("NEQ", Kind::Neq),
    ("NEVER", Kind::Never),
    ("NIL", Kind::Nil),
    ("NONE", Kind::None),
    ("NOT", Kind::Not),
    ("NOW", Kind::Now),
    ("OR", Kind::Or),
    ("Origination", Kind::Origination),
    ("PACK", Kind::Pack),
    ("PAIR", Kind::Pair),
    ("PUSH", Kind::Push),
    ("READ_TICKET", Kind::ReadTicket),
    ("RENAME", Kind::Rename),
    ("RIGHT", Kind::Right),
    ("SELF", Kind::SelfContract),
    ("SELF_ADDRESS", Kind::SelfAddress),
    ("SENDER", Kind::Sender),
    ("SHA256", Kind::Sha256),
    ("SHA512", Kind::Sha512),
    ("SIZE", Kind::Size),
    ("SLICE", Kind::Slice),
    ("SOME", Kind::Some),
    ("SOURCE", Kind::Source),
    ("SPLIT_TICKET", Kind::SplitTicket),
    ("SUB", Kind::Sub),
    ("SUB_MUTEZ", Kind::SubMutez),
    ("SWAP", Kind::Swap),
    ("TICKET", Kind::Ticket),
    ("TRANSFER_TOKENS", Kind::TransferTokens),
    ("Transfer", Kind::Transfer),
    ("Turn", Kind::Turn),
    ("UNIT", Kind::Unit),
    ("UNPACK", Kind::Unpack),
    ("UNPAIR", Kind::Unpair),
    ("UPDATE", Kind::Update),
    ("VIEW", Kind::View),
    ("XOR", Kind::Xor),
];

// The kind beside a name in a table.
fn kind_in(table: &[(&str, Kind)], name: &[u8]) -> Option<Kind>
    ensures { result ≡ option_map (λ e. e.1) (find (λ e. bytes_eq name.now e.0.now) table.now) }
{
    table
        .iter()
        .find(|row| name == row.0.as_bytes())
        .map(|row| row.1)
}

// The same, where clauses see the names as bytes.
fn kind_among(table: &[(&str, Kind)], name: &Text) -> Option<Kind>
    ensures { result ≡ option_map (λ e. e.1) (find (λ e. bytes_eq name.now e.0) (map seen_row table.now)) }
{
    kind_in(table, name.as_slice())
}

/// The kind that a name names, if it names one.
pub(crate) fn kind_of_name(name: &Text) -> Option<Kind>
    ensures { result ≡ kind_named name.now }
{
    kind_among(&KINDS, name)
}
