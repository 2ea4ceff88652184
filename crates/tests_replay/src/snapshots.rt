// Snapshots that are written, and files that go on from them.
ghost use Rattle.std.specs.Prelude.{◌≡◌, ◌∷◌, [], IfOk, codes};

use crate::support::{call, numbers, run};
use crate::tickets::TICKETS_ARE_SENT;
use mich_base::{Bytes, Memory, Rows, Text, Texts};
use mich_io::{MemFiles, MemSink};
use mich_replay::mich;
use std::alloc::Global;
use std::test::Fail;

// What the second account gives back, and what is written of it behind the call with the fee 10 and the amount 1.
const SECOND: &str =
    "Group 0x000000000000000000000000000000000000000002 { Call 0 100 1 0x00000000000000000000000000000000000000000001 \"default\" Unit }";

const RESUMED: &str =
    "Group 2 { Applied 1 { Transfer 0x00000000000000000000000000000000000000000002 0x00000000000000000000000000000000000000000001 1 Unit \
        {} } }\n\
        Account 0x000000000000000000000000000000000000000001 990 {}\n\
        Account 0x000000000000000000000000000000000000000002 0 {}\n\
        Fees 10\n\
        Supply 1000\n";

// The paths of a snapshot and of the file behind it.
fn both(alloc: Global) -> Result<Texts, Memory>
    ensures { IfOk result (λ t. t ≡ codes "s" ∷ codes "f" ∷ []) }
{
    let mut texts = Texts::new(alloc);
    texts.push(Text::from_slice(alloc, b"s")?)?;
    texts.push(Text::from_slice(alloc, b"f")?)?;
    Ok(texts)
}

// The words `resume s f`.
fn words(alloc: Global) -> Result<Texts, Memory>
    ensures { IfOk result (λ t. t ≡ codes "resume" ∷ codes "s" ∷ codes "f" ∷ []) }
{
    let mut texts = Texts::new(alloc);
    texts.push(Text::from_slice(alloc, b"resume")?)?;
    texts.push(Text::from_slice(alloc, b"s")?)?;
    texts.push(Text::from_slice(alloc, b"f")?)?;
    Ok(texts)
}

// Resumes a snapshot with a file of this text, which may be missing.
fn resume(alloc: Global, snapshot: &[u8], second: Option<&str>) -> Result<(u8, MemSink), Memory> {
    let mut held = Rows::new(alloc);
    held.push((
        Text::from_slice(alloc, b"s")?,
        Bytes::from_slice(alloc, snapshot)?,
    ))?;
    if let Some(second) = second {
        let content = Bytes::from_slice(alloc, second.as_bytes())?;
        held.push((Text::from_slice(alloc, b"f")?, content))?;
    }
    let words = words(alloc)?;
    let mut files = MemFiles::new(both(alloc)?, held, numbers(alloc, &[])?);
    let mut out = MemSink::new(alloc, numbers(alloc, &[])?);
    let status = mich(alloc, &words, &mut files, &mut out);
    Ok((status, out))
}

// Whether that ends with this status, and writes this.
fn resumes(
    alloc: Global,
    snapshot: &[u8],
    second: Option<&str>,
    status: u8,
    written: &str,
) -> Result<bool, Memory> {
    let (found, out) = resume(alloc, snapshot, second)?;
    Ok(found == status && out.as_slice() == written.as_bytes())
}

// The snapshot of a file.
fn snapshot(alloc: Global, text: &str) -> Result<MemSink, Fail> {
    let (status, out) = run(alloc, "snapshot", text, &[], &[])?;
    if status != 0 {
        return Err(Fail::new("no snapshot"));
    }
    Ok(out)
}

// The snapshot of the call with the fee 10 and the amount 1.
fn transfer(alloc: Global) -> Result<MemSink, Fail> {
    let file = call(alloc, 10, 1)?;
    snapshot(alloc, file.as_str())
}

#[test]
fn files_go_on(rt: HostRuntime) -> Result<(), Fail> {
    let alloc = rt.alloc();
    let saved = transfer(alloc)?;
    if !resumes(alloc, saved.as_slice(), Some(SECOND), 0, RESUMED)? {
        return Err(Fail::new("a group behind a snapshot"));
    }
    if !resumes(
        alloc,
        saved.as_slice(),
        Some("; Block"),
        2,
        "Refused Unexpected 0\n",
    )? {
        return Err(Fail::new("a fault behind a snapshot"));
    }
    Ok(())
}

// The last byte is missing, within the count of tickets; or the first one is another. The file behind isn't read.
#[test]
fn damaged_snapshots(rt: HostRuntime) -> Result<(), Fail> {
    let alloc = rt.alloc();
    let saved = transfer(alloc)?;
    if let Some((_, front)) = saved.as_slice().split_last()
        && !resumes(alloc, front, None, 2, "Refused BadForm 933\n")?
    {
        return Err(Fail::new("without the last byte"));
    }
    let mut other = saved.as_slice().to_vec(alloc)?;
    if let Some(first) = other.first_mut() {
        *first = b'm';
    }
    if !resumes(alloc, other.as_slice(), None, 2, "Refused BadForm 0\n")? {
        return Err(Fail::new("another first byte"));
    }
    Ok(())
}

// A state with tickets is written as before, where nothing stands behind the snapshot.
#[test]
fn tickets_come_back(rt: HostRuntime) -> Result<(), Fail> {
    let alloc = rt.alloc();
    let saved = snapshot(alloc, TICKETS_ARE_SENT)?;
    let (_, told) = run(alloc, "replay", TICKETS_ARE_SENT, &[], &[])?;
    let (status, state) = resume(alloc, saved.as_slice(), Some(""))?;
    if status != 0 || state.as_slice().is_empty() || !told.as_slice().ends_with(state.as_slice()) {
        return Err(Fail::new("tickets"));
    }
    Ok(())
}

// The file behind a snapshot isn't there, or a file has no snapshot.
#[test]
fn missing(rt: HostRuntime) -> Result<(), Fail> {
    let alloc = rt.alloc();
    let saved = transfer(alloc)?;
    if !resumes(alloc, saved.as_slice(), None, 3, "")? {
        return Err(Fail::new("no file"));
    }
    let (status, out) = run(alloc, "snapshot", "", &[], &[])?;
    if status != 2 || out.as_slice() != b"Refused BadOrder 0\n".as_slice() {
        return Err(Fail::new("no statement"));
    }
    Ok(())
}
