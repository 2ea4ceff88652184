// The text of a workload.
ghost use Rattle.std.specs.Prelude.{◌≡◌, ◌≤◌, ◌++◌, ℕ, IfOk, string_bytes};
ghost use Rattle.rules_files.specs.workload.Workload.{amount, beginning, call, calls, content, destination, next, scenario};

use mich_base::{Bytes, Memory};
use std::alloc::{AllocError, Global};

const FIRST_KEY_HASH: &str = "0x000000000000000000000000000000000000000001";

const SECOND_KEY_HASH: &str = "0x000000000000000000000000000000000000000002";

const SECOND_ACCOUNT: &str = "0x00000000000000000000000000000000000000000002";

const MAKER: &str = "0x01000000000000000100000000000000000000000000";

const KEEPER: &str = "0x01000000000000000100000001000000000000000000";

// It mints so many tickets of a content, and sends them to an address.
const MAKER_SCRIPT: &str =
    "{ parameter (pair address nat nat) ; storage unit ; code { CAR ; UNPAIR 3 ; CONTRACT (ticket nat) ; \
    IF_NONE { UNIT ; FAILWITH } {} ; DUG 2 ; TICKET ; IF_NONE { UNIT ; FAILWITH } {} ; PUSH mutez 0 ; SWAP ; TRANSFER_TOKENS ; \
    NIL operation ; SWAP ; CONS ; UNIT ; SWAP ; PAIR } }";

// It joins what it gets to what it has.
const KEEPER_SCRIPT: &str =
    "{ parameter (ticket nat) ; storage (option (ticket nat)) ; code { UNPAIR ; SWAP ; \
    IF_NONE {} { PAIR ; JOIN_TICKETS ; IF_NONE { UNIT ; FAILWITH } {} } ; SOME ; NIL operation ; PAIR } }";

// The chain, the accounts and the group that makes the contracts.
fn beginning(alloc: Global) -> Result<String, AllocError>
    ensures { IfOk result (λ s. string_bytes s ≡ beginning) }
{
    format!(in alloc;
        "Chain 0x00000001 1 0;\nAccount {FIRST_KEY_HASH} 1000000000;\nAccount {SECOND_KEY_HASH} 0;\nGroup {FIRST_KEY_HASH} {{ Originate 0 1 0 {MAKER_SCRIPT} Unit ; Originate 0 1 0 {KEEPER_SCRIPT} None }};\n"
    )
}

// The next number of the sequence.
fn next(x: u64) -> u64
    ensures { result ≡ next x }
{
    x.wrapping_mul(6364136223846793005)
        .wrapping_add(1442695040888963407)
}

// Where the tickets of a call go.
fn destination(x: u64) -> &'static str
    ensures { result.now ≡ destination x }
{
    if (x >> 33) % 2 == 1 {
        KEEPER
    } else {
        SECOND_ACCOUNT
    }
}

// The call by a number.
fn call(alloc: Global, x: u64) -> Result<String, AllocError>
    ensures { IfOk result (λ s. string_bytes s ≡ call x) }
{
    let destination = destination(x);
    let content = (x >> 34) % 2;
    let amount = (x >> 36) % 8;
    format!(in alloc;
        "Group {FIRST_KEY_HASH} {{ Call 1 1000 0 {MAKER} \"default\" (Pair {destination} {content} {amount}) }};\n"
    )
}

// Puts the call by a number behind the text.
fn put_call(alloc: Global, text: &mut Vec<u8>, x: u64) -> Result<(), AllocError>
    ensures { IfOk result (λ _. text.new.items ≡ text.old.items ++ call x) }
{
    text.extend_from_slice(call(alloc, x)?.as_bytes())
}

/// The statements of a workload of so many calls (this host's own): a contract mints tickets and sends them to an account, or to
/// another contract that keeps them. Memory where there is no room for it.
#[tactic(auto, using(crate::proofs::Calls::none_left))]
pub fn scenario(alloc: Global, calls: u32) -> Result<Bytes, Memory>
    requires { (1 ≤ calls) × (calls ≤ 100000) }
    ensures { IfOk result (λ text. text ≡ scenario calls) }
{
    let mut text = beginning(alloc)?.into_bytes();
    let mut x = 0;
    for _ in 0..calls {
        x = next(x);
        put_call(alloc, &mut text, x)?;
    }
    Bytes::from_vec(text)
}
