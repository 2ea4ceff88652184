// The primitives by name and by code.
ghost use Rattle.std.specs.Prelude.{◌≡◌, map, option_map, slice_get};
ghost use Rattle.rules_text.specs.nodes.Primitives.{name_of_code, code_of_name, primitive_of_code, primitive_of_name, code_of_primitive};
ghost use Rattle.mich_base.specs.ByLength.{is_name_of, code_among, codes_by_length, code_by_length};

use crate::text::Text;
use rules_text::nodes::Primitive;

// Each name stands at its code.
static NAMES: [&str; 157] = [
    "parameter",
    "storage",
    "code",
    "False",
    "Elt",
    "Left",
    "None",
    "Pair",
    "Right",
    "Some",
    "True",
    "Unit",
    "PACK",
    "UNPACK",
    "BLAKE2B",
    "SHA256",
    "SHA512",
    "ABS",
    "ADD",
    "AMOUNT",
    "AND",
    "BALANCE",
    "CAR",
    "CDR",
    "CHECK_SIGNATURE",
    "COMPARE",
    "CONCAT",
    "CONS",
    "CREATE_ACCOUNT",
    "CREATE_CONTRACT",
    "IMPLICIT_ACCOUNT",
    "DIP",
    "DROP",
    "DUP",
    "EDIV",
    "EMPTY_MAP",
    "EMPTY_SET",
    "EQ",
    "EXEC",
    "FAILWITH",
    "GE",
    "GET",
    "GT",
    "HASH_KEY",
    "IF",
    "IF_CONS",
    "IF_LEFT",
    "IF_NONE",
    "INT",
    "LAMBDA",
    "LE",
    "LEFT",
    "LOOP",
    "LSL",
    "LSR",
    "LT",
    "MAP",
    "MEM",
    "MUL",
    "NEG",
    "NEQ",
    "NIL",
    "NONE",
    "NOT",
    "NOW",
    "OR",
    "PAIR",
    "PUSH",
    "RIGHT",
    "SIZE",
    "SOME",
    "SOURCE",
    "SENDER",
    "SELF",
    "STEPS_TO_QUOTA",
    "SUB",
    "SWAP",
    "TRANSFER_TOKENS",
    "SET_DELEGATE",
    "UNIT",
    "UPDATE",
    "XOR",
    "ITER",
    "LOOP_LEFT",
    "ADDRESS",
    "CONTRACT",
    "ISNAT",
    "CAST",
    "RENAME",
    "bool",
    "contract",
    "int",
    "key",
    "key_hash",
    "lambda",
    "list",
    "map",
    "big_map",
    "nat",
    "option",
    "or",
    "pair",
    "set",
    "signature",
    "string",
    "bytes",
    "mutez",
    "timestamp",
    "unit",
    "operation",
    "address",
    "SLICE",
    "DIG",
    "DUG",
    "EMPTY_BIG_MAP",
    "APPLY",
    "chain_id",
    "CHAIN_ID",
    "LEVEL",
    "SELF_ADDRESS",
    "never",
    "NEVER",
    "UNPAIR",
    "VOTING_POWER",
    "TOTAL_VOTING_POWER",
    "KECCAK",
    "SHA3",
    "PAIRING_CHECK",
    "bls12_381_g1",
    "bls12_381_g2",
    "bls12_381_fr",
    "sapling_state",
    "sapling_transaction_deprecated",
    "SAPLING_EMPTY_STATE",
    "SAPLING_VERIFY_UPDATE",
    "ticket",
    "TICKET_DEPRECATED",
    "READ_TICKET",
    "SPLIT_TICKET",
    "JOIN_TICKETS",
    "GET_AND_UPDATE",
    "chest",
    "chest_key",
    "OPEN_CHEST",
    "VIEW",
    "view",
    "constant",
    "SUB_MUTEZ",
    "tx_rollup_l2_address",
    "MIN_BLOCK_TIME",
    "sapling_transaction",
    "EMIT",
    "Lambda_rec",
    "LAMBDA_REC",
    "TICKET",
    "BYTES",
    "NAT",
];

// Each primitive stands at its code.
static PRIMITIVES: [Primitive; 157] = [
    Primitive::SectionParameter,
    Primitive::SectionStorage,
    Primitive::SectionCode,
    Primitive::DataFalse,
    Primitive::DataElt,
    Primitive::DataLeft,
    Primitive::DataNone,
    Primitive::DataPair,
    Primitive::DataRight,
    Primitive::DataSome,
    Primitive::DataTrue,
    Primitive::DataUnit,
    Primitive::OpPack,
    Primitive::OpUnpack,
    Primitive::OpBlake2b,
    Primitive::OpSha256,
    Primitive::OpSha512,
    Primitive::OpAbs,
    Primitive::OpAdd,
    Primitive::OpAmount,
    Primitive::OpAnd,
    Primitive::OpBalance,
    Primitive::OpCar,
    Primitive::OpCdr,
    Primitive::OpCheckSignature,
    Primitive::OpCompare,
    Primitive::OpConcat,
    Primitive::OpCons,
    Primitive::OpCreateAccount,
    Primitive::OpCreateContract,
    Primitive::OpImplicitAccount,
    Primitive::OpDip,
    Primitive::OpDrop,
    Primitive::OpDup,
    Primitive::OpEdiv,
    Primitive::OpEmptyMap,
    Primitive::OpEmptySet,
    Primitive::OpEq,
    Primitive::OpExec,
    Primitive::OpFailwith,
    Primitive::OpGe,
    Primitive::OpGet,
    Primitive::OpGt,
    Primitive::OpHashKey,
    Primitive::OpIf,
    Primitive::OpIfCons,
    Primitive::OpIfLeft,
    Primitive::OpIfNone,
    Primitive::OpInt,
    Primitive::OpLambda,
    Primitive::OpLe,
    Primitive::OpLeft,
    Primitive::OpLoop,
    Primitive::OpLsl,
    Primitive::OpLsr,
    Primitive::OpLt,
    Primitive::OpMap,
    Primitive::OpMem,
    Primitive::OpMul,
    Primitive::OpNeg,
    Primitive::OpNeq,
    Primitive::OpNil,
    Primitive::OpNone,
    Primitive::OpNot,
    Primitive::OpNow,
    Primitive::OpOr,
    Primitive::OpPair,
    Primitive::OpPush,
    Primitive::OpRight,
    Primitive::OpSize,
    Primitive::OpSome,
    Primitive::OpSource,
    Primitive::OpSender,
    Primitive::OpSelf,
    Primitive::OpStepsToQuota,
    Primitive::OpSub,
    Primitive::OpSwap,
    Primitive::OpTransferTokens,
    Primitive::OpSetDelegate,
    Primitive::OpUnit,
    Primitive::OpUpdate,
    Primitive::OpXor,
    Primitive::OpIter,
    Primitive::OpLoopLeft,
    Primitive::OpAddress,
    Primitive::OpContract,
    Primitive::OpIsnat,
    Primitive::OpCast,
    Primitive::OpRename,
    Primitive::TypeBool,
    Primitive::TypeContract,
    Primitive::TypeInt,
    Primitive::TypeKey,
    Primitive::TypeKeyHash,
    Primitive::TypeLambda,
    Primitive::TypeList,
    Primitive::TypeMap,
    Primitive::TypeBigMap,
    Primitive::TypeNat,
    Primitive::TypeOption,
    Primitive::TypeOr,
    Primitive::TypePair,
    Primitive::TypeSet,
    Primitive::TypeSignature,
    Primitive::TypeString,
    Primitive::TypeBytes,
    Primitive::TypeMutez,
    Primitive::TypeTimestamp,
    Primitive::TypeUnit,
    Primitive::TypeOperation,
    Primitive::TypeAddress,
    Primitive::OpSlice,
    Primitive::OpDig,
    Primitive::OpDug,
    Primitive::OpEmptyBigMap,
    Primitive::OpApply,
    Primitive::TypeChainId,
    Primitive::OpChainId,
    Primitive::OpLevel,
    Primitive::OpSelfAddress,
    Primitive::TypeNever,
    Primitive::OpNever,
    Primitive::OpUnpair,
    Primitive::OpVotingPower,
    Primitive::OpTotalVotingPower,
    Primitive::OpKeccak,
    Primitive::OpSha3,
    Primitive::OpPairingCheck,
    Primitive::TypeBls12381G1,
    Primitive::TypeBls12381G2,
    Primitive::TypeBls12381Fr,
    Primitive::TypeSaplingState,
    Primitive::TypeSaplingTransactionDeprecated,
    Primitive::OpSaplingEmptyState,
    Primitive::OpSaplingVerifyUpdate,
    Primitive::TypeTicket,
    Primitive::OpTicketDeprecated,
    Primitive::OpReadTicket,
    Primitive::OpSplitTicket,
    Primitive::OpJoinTickets,
    Primitive::OpGetAndUpdate,
    Primitive::TypeChest,
    Primitive::TypeChestKey,
    Primitive::OpOpenChest,
    Primitive::OpView,
    Primitive::SectionView,
    Primitive::GlobalConstant,
    Primitive::OpSubMutez,
    Primitive::TypeTxRollupL2Address,
    Primitive::OpMinBlockTime,
    Primitive::TypeSaplingTransaction,
    Primitive::OpEmit,
    Primitive::DataLambdaRec,
    Primitive::OpLambdaRec,
    Primitive::OpTicket,
    Primitive::OpBytes,
    Primitive::OpNat,
];

// At each length the codes of the names that have it.
static CODES_BY_LENGTH: [&[u8]; 31] = [
    &[],
    &[],
    &[37, 40, 42, 44, 50, 55, 65, 100],
    &[
        4, 17, 18, 20, 22, 23, 31, 33, 41, 48, 53, 54, 56, 57, 58, 59, 60, 61, 63, 64, 75, 81, 91,
        92, 96, 98, 102, 112, 113, 156,
    ],
    &[
        2, 5, 6, 7, 9, 10, 11, 12, 27, 32, 34, 38, 51, 52, 62, 66, 67, 69, 70, 73, 76, 79, 82, 87,
        89, 95, 101, 108, 126, 144, 145, 151,
    ],
    &[3, 8, 68, 86, 105, 106, 111, 115, 118, 120, 121, 141, 155],
    &[
        13, 15, 16, 19, 26, 49, 71, 72, 80, 88, 94, 99, 104, 122, 125, 135, 154,
    ],
    &[1, 14, 21, 25, 45, 46, 47, 84, 97, 110],
    &[39, 43, 85, 90, 93, 116, 117, 146],
    &[0, 35, 36, 83, 103, 107, 109, 142, 147],
    &[143, 152, 153],
    &[137],
    &[78, 119, 123, 128, 129, 130, 138, 139],
    &[114, 127, 131],
    &[28, 74, 140, 149],
    &[24, 29, 77],
    &[30],
    &[136],
    &[124],
    &[133, 150],
    &[148],
    &[134],
    &[],
    &[],
    &[],
    &[],
    &[],
    &[],
    &[],
    &[],
    &[132],
];

fn text_at<'a>(table: &[&'a str], index: usize) -> Option<&'a str>
    ensures { option_map (λ s. s.now) result ≡ slice_get (map (λ s. s.now) table.now) index }
{
    table.get(index).copied()
}

fn codes_at<'a>(table: &[&'a [u8]], index: usize) -> Option<&'a [u8]>
    ensures { option_map (λ s. s.now) result ≡ slice_get (map (λ s. s.now) table.now) index }
{
    table.get(index).copied()
}

fn primitive_at(table: &[Primitive], index: usize) -> Option<Primitive>
    ensures { result ≡ slice_get table.now index }
{
    table.get(index).copied()
}

fn is_name_of(name: &Text, code: u8) -> bool
    ensures { result ≡ is_name_of name.now code }
{
    match prim_name(code) {
        Some(known) => name.as_slice() == known.as_bytes(),
        None => false,
    }
}

// The code of a name among these codes.
fn code_among(codes: &[u8], name: &Text) -> Option<u8>
    ensures { result ≡ code_among name.now codes.now }
{
    codes.iter().copied().find(|code| is_name_of(name, *code))
}

// The codes whose names have this length.
fn codes_of_length(length: usize) -> Option<&'static [u8]>
    ensures { option_map (λ s. s.now) result ≡ slice_get codes_by_length length }
{
    codes_at(&CODES_BY_LENGTH, length)
}

#[tactic(auto, unfolding(crate::specs::ByLength::code_by_length))]
fn code_by_length(name: &Text) -> Option<u8>
    ensures { result ≡ code_by_length name.now }
{
    match codes_of_length(name.len()) {
        Some(codes) => code_among(codes, name),
        None => None,
    }
}

/// The name of the primitive with this code, in the encoding of Micheline (Octez "data encoding").
/// None where the code is no primitive's.
pub fn prim_name(code: u8) -> Option<&'static str>
    ensures { option_map (λ s. s.now) result ≡ name_of_code code }
{
    text_at(&NAMES, code as usize)
}

/// The code of the primitive with this name, in the encoding of Micheline (Octez "data encoding").
/// None where the name is no primitive's.
#[tactic(auto, using(crate::proofs::ByLengthLaws::found_by_length))]
pub fn prim_code(name: &Text) -> Option<u8>
    ensures { result ≡ code_of_name name.now }
{
    code_by_length(name)
}

/// The primitive with this code. None where the code is no primitive's.
pub fn primitive_of_code(code: u8) -> Option<Primitive>
    ensures { result ≡ primitive_of_code code }
{
    primitive_at(&PRIMITIVES, code as usize)
}

/// The primitive with this name. None where the name is no primitive's.
#[tactic(auto, unfolding(rules_text::specs::nodes::Primitives::primitive_of_name))]
pub fn primitive_of_name(name: &Text) -> Option<Primitive>
    ensures { result ≡ primitive_of_name name.now }
{
    primitive_of_code(prim_code(name)?)
}

/// The code of a primitive in the encoding of Micheline: 0 to 156.
#[tactic(auto, unfolding(rules_text::specs::nodes::Primitives::code_of_primitive))]
pub fn code_of_primitive(primitive: Primitive) -> u8
    ensures { result ≡ code_of_primitive primitive }
{
    primitive as u8
}
