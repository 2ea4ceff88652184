// The program: the words of the command line, the files of the system and its standard output.
#![tactic(auto)]

ghost use Rattle.std.specs.Prelude.{◌≡◌, List, ℕ, drop, IfOk};

use mich_base::{Memory, Text, Texts};
use mich_io::{HostFiles, HostSink};
use mich_replay::mich;
use std::alloc::Global;
use std::process::ExitCode;
use std::rt::Env;
use std::{env, io};

// The words behind the program's name, or none where one isn't text.
fn read_words<R: Env + AllocGlobal>(rt: &R) -> Result<Texts, Memory> {
    let mut words = Texts::new(rt.alloc());
    match env::args(rt) {
        Ok(args) => {
            for word in args.skip(1) {
                words.push(Text::from_vec(word.into_bytes())?)?;
            }
        }
        Err(e) => {
            if e.kind() == io::ErrorKind::OutOfMemory {
                return Err(Memory);
            }
        }
    }
    Ok(words)
}

fn copied(alloc: Global, words: &[Text]) -> Result<Texts, Memory>
    ensures { IfOk result (λ copy. copy ≡ words.now) }
{
    let mut copy = Texts::new(alloc);
    'words: for word in words {
        copy.push(word.copy(alloc)?)?;
    }
    Ok(copy)
}

// A copy of the words behind the first.
fn copied_behind(alloc: Global, words: &Texts) -> Result<Texts, Memory>
    ensures { IfOk result (λ lent. lent ≡ drop 1 words.now) }
{
    match words.as_slice().split_first() {
        Some((_, rest)) => copied(alloc, rest),
        None => Ok(Texts::new(alloc)),
    }
}

fn run(rt: HostRuntime) -> Result<u8, Memory> {
    let alloc = rt.alloc();
    let words = read_words(&rt)?;
    let lent = copied_behind(alloc, &words)?;
    let mut files = HostFiles::new(rt, lent);
    let mut out = HostSink::new(rt);
    Ok(mich(alloc, &words, &mut files, &mut out))
}

fn main(rt: HostRuntime) -> ExitCode {
    match run(rt) {
        Ok(status) => ExitCode::from(status),
        Err(_) => ExitCode::from(5),
    }
}
