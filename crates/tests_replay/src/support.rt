// Commands over files in memory: their words, runs of them, and what they are to answer.
ghost use Rattle.std.specs.Prelude.{◌≡◌, IfOk, ◌∷◌, [], None, Some};
ghost use Rattle.rules_text.specs.streams.Known.{content_in};

use mich_base::{Bytes, Memory, Rows, Text, Texts};
use mich_io::{Files, FilesFault, MemFiles, MemSink, Sink, SinkFault};
use mich_replay::mich;
use std::alloc::Global;
use std::test::Fail;

pub(crate) const USAGE: &str =
    "usage: mich replay|check|encode|decode|pack|snapshot|certify|verify|audit FILE, or mich resume SNAP FILE, or mich generate N\n";

pub(crate) fn one(alloc: Global, word: &str) -> Result<Texts, Memory>
    ensures { IfOk result (λ t. t ≡ word.now ∷ []) }
{
    let mut texts = Texts::new(alloc);
    texts.push(Text::from_slice(alloc, word.as_bytes())?)?;
    Ok(texts)
}

pub(crate) fn two(alloc: Global, verb: &str, word: &str) -> Result<Texts, Memory>
    ensures { IfOk result (λ t. t ≡ verb.now ∷ word.now ∷ []) }
{
    let mut texts = one(alloc, verb)?;
    texts.push(Text::from_slice(alloc, word.as_bytes())?)?;
    Ok(texts)
}

pub(crate) fn numbers(alloc: Global, numbers: &[u64]) -> Result<Rows<u64>, Memory> {
    let mut rows = Rows::new(alloc);
    for number in numbers {
        rows.push(*number)?;
    }
    Ok(rows)
}

// A file of a name and this text, in which these calls fail.
pub(crate) fn file_in_memory(
    alloc: Global,
    name: &str,
    text: &str,
    reads_fail: &[u64],
) -> Result<MemFiles, Memory>
    ensures { IfOk result (λ f. f.lent ≡ name.now ∷ []) }
{
    let mut held = Rows::new(alloc);
    let content = Bytes::from_slice(alloc, text.as_bytes())?;
    held.push((Text::from_slice(alloc, name.as_bytes())?, content))?;
    Ok(MemFiles::new(one(alloc, name)?, held, numbers(alloc, reads_fail)?))
}

// No file, but the right to one of this name.
pub(crate) fn no_file(alloc: Global, name: &str) -> Result<MemFiles, Memory>
    ensures { IfOk result (λ f. f.lent ≡ name.now ∷ []) }
{
    Ok(MemFiles::new(one(alloc, name)?, Rows::new(alloc), Rows::new(alloc)))
}

// Runs a command over a file of this text, in which these calls fail, into a sink.
pub(crate) fn run_into<K: Sink>(
    alloc: Global,
    verb: &str,
    text: &str,
    reads_fail: &[u64],
    out: &mut K,
) -> Result<u8, Memory> {
    let words = two(alloc, verb, "f")?;
    let mut files = file_in_memory(alloc, "f", text, reads_fail)?;
    Ok(mich(alloc, &words, &mut files, out))
}

// The same, into a sink in memory, in which these calls fail.
pub(crate) fn run(
    alloc: Global,
    verb: &str,
    text: &str,
    reads_fail: &[u64],
    writes_fail: &[u64],
) -> Result<(u8, MemSink), Memory> {
    let mut out = MemSink::new(alloc, numbers(alloc, writes_fail)?);
    let status = run_into(alloc, verb, text, reads_fail, &mut out)?;
    Ok((status, out))
}

// Whether a command over a file of this text, in which these calls fail, into a sink in which these fail, ends with this status,
// and writes this.
pub(crate) fn ends(
    alloc: Global,
    verb: &str,
    text: &str,
    (read, write): (&[u64], &[u64]),
    status: u8,
    written: &str,
) -> Result<bool, Memory> {
    let (found, out) = run(alloc, verb, text, read, write)?;
    Ok(found == status && out.as_slice() == written.as_bytes())
}

// The same where no call fails.
pub(crate) fn is_answered(
    alloc: Global,
    verb: &str,
    text: &str,
    status: u8,
    written: &str,
) -> Result<bool, Memory> {
    ends(alloc, verb, text, (&[], &[]), status, written)
}

// A file, the status, and what is written.
pub(crate) type Row = (&'static str, u8, &'static str);

// Fails with the first file that a command answers otherwise.
pub(crate) fn all_are_answered(alloc: Global, verb: &str, rows: &[Row]) -> Result<(), Fail> {
    for (file, status, written) in rows {
        if !is_answered(alloc, verb, file, *status, written)? {
            return Err(Fail::new(*file));
        }
    }
    Ok(())
}

// The same of files that are all answered with one status.
pub(crate) fn all_end_with(
    alloc: Global,
    verb: &str,
    status: u8,
    rows: &[(&'static str, &'static str)],
) -> Result<(), Fail> {
    for (file, written) in rows {
        if !is_answered(alloc, verb, file, status, written)? {
            return Err(Fail::new(*file));
        }
    }
    Ok(())
}

// The first lines, one after another.
pub(crate) fn text(alloc: Global, lines: &[&str], count: usize) -> Result<String, Memory> {
    let mut text = String::new(alloc);
    for line in lines.iter().take(count) {
        text.push_str(line)?;
    }
    Ok(text)
}

// A file of two accounts and one call with this fee and amount.
pub(crate) fn call(alloc: Global, fee: u64, amount: u64) -> Result<String, Memory> {
    Ok(format!(in alloc;
        "Chain 0x7a06a770 1 0; Account 0x000000000000000000000000000000000000000001 1000; Account \
            0x000000000000000000000000000000000000000002 0; Group 0x000000000000000000000000000000000000000001 {{ Call {fee} 100 {amount} \
            0x00000000000000000000000000000000000000000002 \"default\" Unit }};"
    )?)
}

// What is written of the call with the fee 10 and the amount 1.
pub(crate) const TRANSFER: [&str; 5] = [
    "Group 1 { Applied 1 { Transfer 0x00000000000000000000000000000000000000000001 0x00000000000000000000000000000000000000000002 1 Unit \
        {} } }\n",
    "Account 0x000000000000000000000000000000000000000001 989 {}\n",
    "Account 0x000000000000000000000000000000000000000002 1 {}\n",
    "Fees 10\n",
    "Supply 1000\n",
];

// Whether the call with the fee 10 and the amount 1 ends so, with this status and so many lines.
pub(crate) fn breaks_off(
    alloc: Global,
    fails: (&[u64], &[u64]),
    status: u8,
    count: usize,
) -> Result<bool, Memory> {
    let file = call(alloc, 10, 1)?;
    let lines = text(alloc, &TRANSFER, count)?;
    ends(
        alloc,
        "replay",
        file.as_str(),
        fails,
        status,
        lines.as_str(),
    )
}

// Takes one byte a write.
#[derive(Drop)]
pub(crate) struct SlowSink {
    pub(crate) inner: MemSink,
}

impl Sink for SlowSink {
    ghost written = { λ s. Some s.inner.bytes };

    ghost handed = { λ _. None };

    ghost faults = { λ s. s.inner.faults };

    fn write(&mut self, bytes: &[u8]) -> Result<usize, SinkFault> {
        let count = bytes.len().min(1);
        self.inner.write(bytes.split_at(count).0)
    }
}

// A sink that takes one byte a write, and in which these calls fail.
pub(crate) fn slow_sink(alloc: Global, fails: &[u64]) -> Result<SlowSink, Memory> {
    Ok(SlowSink {
        inner: MemSink::new(alloc, numbers(alloc, fails)?),
    })
}

// Gives one byte a read.
#[derive(Drop)]
pub(crate) struct SlowFiles {
    pub(crate) inner: MemFiles,
}

impl Files for SlowFiles {
    ghost content = { λ s path. content_in s.inner.files path };

    ghost left = { λ s. s.inner.left };

    ghost lent = { λ s. s.inner.lent };

    ghost faults = { λ s. s.inner.faults };

    fn start(&mut self, path: &str) -> Result<(), FilesFault> {
        self.inner.start(path)
    }

    fn read(&mut self, buf: &mut [u8]) -> Result<usize, FilesFault> {
        let count = buf.len().min(1);
        self.inner.read(&mut buf[..count])
    }
}

// Whether `replay` of a file whose bytes come one a read ends with this status, and writes this.
pub(crate) fn is_answered_slowly(
    alloc: Global,
    text: &str,
    status: u8,
    written: &str,
) -> Result<bool, Memory> {
    let words = two(alloc, "replay", "f")?;
    let inner = file_in_memory(alloc, "f", text, &[])?;
    let mut files = SlowFiles { inner };
    let mut out = MemSink::new(alloc, Rows::new(alloc));
    let found = mich(alloc, &words, &mut files, &mut out);
    Ok(found == status && out.as_slice() == written.as_bytes())
}
