// Workloads: their summaries, words that are none, and writes that fail.
use crate::support::{USAGE, no_file, numbers, two};
use mich_base::Memory;
use mich_io::MemSink;
use mich_replay::mich;
use std::alloc::Global;
use std::test::Fail;

// Whether `generate` of a number ends with this status and writes this, into a sink in which these calls fail.
fn is_generated(
    alloc: Global,
    number: &str,
    writes_fail: &[u64],
    status: u8,
    written: &str,
) -> Result<bool, Memory> {
    let words = two(alloc, "generate", number)?;
    let mut files = no_file(alloc, number)?;
    let mut out = MemSink::new(alloc, numbers(alloc, writes_fail)?);
    let found = mich(alloc, &words, &mut files, &mut out);
    Ok(found == status && out.as_slice() == written.as_bytes())
}

// Fails with the first number for which a status ends with something else.
fn are_generated(
    alloc: Global,
    status: u8,
    rows: &[(&'static str, &'static str)],
) -> Result<(), Fail> {
    for (number, written) in rows {
        if !is_generated(alloc, number, &[], status, written)? {
            return Err(Fail::new(number));
        }
    }
    Ok(())
}

// A number of calls, and their summary.
static SUMMARIES: [(&str, &str); 5] = [
    ("1", "Summary 1 1 0 1000000000 7 0 7\n"),
    ("001", "Summary 1 1 0 1000000000 7 0 7\n"),
    ("2", "Summary 2 2 0 1000000000 8 0 8\n"),
    ("3", "Summary 3 2 1 1000000000 8 0 8\n"),
    ("2000", "Summary 2000 1323 677 1000000000 5132 0 5132\n"),
];

#[test]
fn workloads_are_summed_up(rt: HostRuntime) -> Result<(), Fail> {
    are_generated(rt.alloc(), 0, &SUMMARIES)
}

#[test]
fn a_summary_that_is_not_written(rt: HostRuntime) -> Result<(), Fail> {
    assert!(rt; is_generated(rt.alloc(), "1", &[0], 4, "")?);
    Ok(())
}

// No number of a workload.
static OTHERS: [(&str, &str); 9] = [
    ("", USAGE),
    ("0", USAGE),
    ("000000", USAGE),
    ("100001", USAGE),
    ("0000001", USAGE),
    ("1a", USAGE),
    ("-1", USAGE),
    ("+1", USAGE),
    ("1 ", USAGE),
];

#[test]
fn numbers_that_are_no_workload(rt: HostRuntime) -> Result<(), Fail> {
    are_generated(rt.alloc(), 1, &OTHERS)
}
