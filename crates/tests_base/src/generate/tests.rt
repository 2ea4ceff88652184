// The text of a small workload.
use mich_base::Memory;
use mich_generate::scenario;
use std::alloc::Global;
use std::test::Fail;

const BEGINNING: &str =
    "Chain 0x00000001 1 0;\nAccount 0x000000000000000000000000000000000000000001 1000000000;\n";

const CALL: &str =
    "Group 0x000000000000000000000000000000000000000001 { Call 1 1000 0 0x01000000000000000100000000000000000000000000 \"default\" (Pair 0x01000000000000000100000001000000000000000000 1 7) };\n";

fn is_framed(alloc: Global, begins: &str, ends: &str) -> Result<bool, Memory> {
    let text = scenario(alloc, 1)?;
    let bytes = text.as_slice();
    Ok(bytes.starts_with(begins.as_bytes()) && bytes.ends_with(ends.as_bytes()))
}

// The first number is 1442695040888963407: divided by 2^33 it is odd, and so it is by 2^34; by 2^36 it is 7 modulo 8.
#[test]
fn a_workload_of_one_call(rt: HostRuntime) -> Result<(), Fail> {
    assert!(rt; is_framed(rt.alloc(), BEGINNING, CALL)?);
    Ok(())
}
