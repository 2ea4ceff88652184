// What packing, unpacking and hashing weigh.
ghost use Rattle.std.specs.Prelude.{◌≡◌};
ghost use Rattle.rules_code.specs.instructions.Straight as i;
ghost use Rattle.rules_code.specs.steps.Costs.{hash_weight};
ghost use Rattle.mich_overload.specs.View.{hash_row};
ghost use Rattle.mich_term.specs.Weights.{capped};
ghost use Rattle.mich_stack.specs.Views.{Sight, values};
ghost use Rattle.mich_store_steps.specs.hashes.Operands.{HasOperand};

use mich_base::Rows;
use mich_overload::HashRow;
use mich_pack::packed_len;
use mich_stack::split_top;
use mich_term::Value;

// The bytes that the value on top is packed as.
fn packed_weight(stack: &Rows<Value>) -> u64
    requires { (big : Sight) × HasOperand i.pack (values big stack.now) }
    ensures { (big : Sight) → result ≡ capped (hash_weight i.pack (values big stack.now)) }
{
    match split_top(stack.as_slice()) {
        Some((value, _)) => packed_len(value),
        None => 0,
    }
}

// The bytes on top.
fn bytes_weight(stack: &Rows<Value>) -> u64
    requires { (big : Sight) × HasOperand i.blake2b (values big stack.now) }
    ensures { (big : Sight) → result ≡ capped (hash_weight i.blake2b (values big stack.now)) }
{
    match split_top(stack.as_slice()) {
        Some((Value::Bytes(bytes), _)) => bytes.len() as u64,
        _ => unreachable!(),
    }
}

/// What PACK, UNPACK or a hash weighs on a stack, up to 2^64-1: the bytes that PACK gives, past the limit too, and the bytes on top
/// for the others; HASH_KEY weighs nothing (this host's cost table).
pub fn hash_weight(row: &HashRow, stack: &Rows<Value>) -> u64
    requires { (big : Sight) × HasOperand (hash_row row.now) (values big stack.now) }
    ensures { (big : Sight) → result ≡ capped (hash_weight (hash_row row.now) (values big stack.now)) }
{
    match row {
        HashRow::Pack => packed_weight(stack),
        HashRow::HashKey => 0,
        _ => bytes_weight(stack),
    }
}
