//! Looking for the `;` that may end a statement, before the statement is read.
ghost use Rattle.std.specs.Prelude.{◌≡◌, ◌+◌, ◌∷◌, ◌^◌, ◌<◌, ◌≤◌, List, ℕ, length, true, false};
ghost use Rattle.std.specs.List.{prefix_len};
ghost use Rattle.mich_text.specs.pieces.Marks.{is_plain, is_inner, run_of, mode_after, depth_after, is_sign, started, since_after, levels_of};
ghost use Rattle.mich_text.specs.pieces.Scans.{ahead, begun, IsBounded, IsScanned};

/// Where in a text a byte stands.
#[derive(Clone, Copy, Debug)]
pub enum Mode {
    /// In a token that isn't a string, or between tokens.
    Outside,
    /// Behind a `/`.
    Slash,
    /// In a comment up to the line's end.
    Line,
    /// In block comments, of which so many are open, behind this byte; 0 where it can't be a part of a sign.
    Block(usize, u8),
    Text,
    /// Behind a backslash in a string.
    Escape,
}

/// What was seen of a text from the beginning of a statement on.
#[derive(Clone, Copy, Debug)]
pub struct Scan {
    pub mode: Mode,
    /// How many brackets are open.
    pub depth: usize,
    /// How many bytes were seen from the statement's first one on.
    pub since: usize,
    /// Whether the last byte is a `;` outside of all brackets.
    pub found: bool,
    pub seen: usize,
}

fn mode_after(mode: Mode, byte: u8) -> Mode
    requires { levels_of mode + 1 < 2 ^ 64 }
    ensures { result ≡ mode_after mode byte }
{
    match mode {
        Mode::Outside => match byte {
            b'"' => Mode::Text,
            b'#' => Mode::Line,
            b'/' => Mode::Slash,
            _ => Mode::Outside,
        },
        Mode::Slash => match byte {
            b'*' => Mode::Block(1, 0),
            _ => Mode::Outside,
        },
        Mode::Line => match byte {
            b'\n' => Mode::Outside,
            _ => Mode::Line,
        },
        Mode::Block(levels, previous) => {
            if previous == b'/' && byte == b'*' {
                Mode::Block(levels + 1, 0)
            } else if previous == b'*' && byte == b'/' {
                if levels == 1 {
                    Mode::Outside
                } else {
                    Mode::Block(levels.saturating_sub(1), 0)
                }
            } else {
                Mode::Block(levels, byte)
            }
        }
        Mode::Text => match byte {
            b'"' => Mode::Outside,
            b'\\' => Mode::Escape,
            _ => Mode::Text,
        },
        Mode::Escape => Mode::Text,
    }
}

fn depth_after(mode: Mode, depth: usize, byte: u8) -> usize
    requires { depth + 1 < 2 ^ 64 }
    ensures { result ≡ depth_after mode depth byte }
{
    match mode {
        Mode::Outside => match byte {
            b'{' | b'(' => depth + 1,
            b'}' | b')' => depth.saturating_sub(1),
            _ => depth,
        },
        _ => depth,
    }
}

fn is_sign(mode: Mode, depth: usize, byte: u8) -> bool
    ensures { result ≡ is_sign mode depth byte }
{
    match mode {
        Mode::Outside => byte == b';' && depth == 0,
        _ => false,
    }
}

// Whether outside of strings and comments a byte changes neither where the next one stands nor how many brackets are open, and is no `;`.
fn is_plain(byte: u8) -> bool
    ensures { result ≡ is_plain byte }
{
    !matches!(byte, b'"' | b'#' | b'/' | b'{' | b'(' | b'}' | b')' | b';')
}

// Whether a byte of a string neither ends it nor escapes the next one.
fn is_inner(byte: u8) -> bool
    ensures { result ≡ is_inner byte }
{
    !matches!(byte, b'"' | b'\\')
}

#[tactic(auto, using(crate::proofs::tokens::Strings::prefix_laws))]
fn plain_len(bytes: &[u8]) -> usize
    ensures is { result ≡ prefix_len is_plain bytes.now }
    ensures within { result ≤ length bytes.now }
{
    bytes.iter().take_while(|byte| is_plain(**byte)).count()
}

#[tactic(auto, using(crate::proofs::tokens::Strings::prefix_laws))]
fn inner_len(bytes: &[u8]) -> usize
    ensures is { result ≡ prefix_len is_inner bytes.now }
    ensures within { result ≤ length bytes.now }
{
    bytes.iter().take_while(|byte| is_inner(**byte)).count()
}

// How many bytes at the front change nothing of where the next one stands.
fn run_len(mode: Mode, bytes: &[u8]) -> usize
    ensures is { result ≡ run_of mode bytes.now }
    ensures within { result ≤ length bytes.now }
{
    match mode {
        Mode::Outside => plain_len(bytes),
        Mode::Text => inner_len(bytes),
        _ => 0,
    }
}

/// How many bytes of the statement were seen, where with this one its first byte is known.
fn started(mode: Mode, byte: u8) -> usize
    ensures { result ≡ started mode byte }
{
    match mode {
        Mode::Outside => match byte {
            b' ' | b'\t' | b'\n' | b'\r' | b'#' | b'/' => 0,
            _ => 1,
        },
        Mode::Slash => match byte {
            b'*' => 0,
            _ => 2,
        },
        _ => 0,
    }
}

fn since_after(mode: Mode, since: usize, byte: u8) -> usize
    requires { since + 1 < 2 ^ 64 }
    ensures { result ≡ since_after mode since byte }
{
    if since == 0 {
        started(mode, byte)
    } else {
        since + 1
    }
}

impl Scan {
    /// Nothing was seen.
    pub(crate) fn new() -> Scan
        ensures { (held : List ℕ) → IsScanned held result }
    {
        Scan {
            mode: Mode::Outside,
            depth: 0,
            since: 0,
            found: false,
            seen: 0,
        }
    }

    // Goes past the bytes that change nothing, where the statement has begun.
    fn past_run(self, held: &[u8]) -> Scan
        requires scanned { IsScanned held.now self }
        requires found { self.found ≡ false }
        ensures scanned { IsScanned held.now result }
        ensures found { result.found ≡ false }
        ensures on { self.seen ≤ result.seen }
    {
        if self.since == 0 {
            return self;
        }
        let count = run_len(self.mode, &held[self.seen..]);
        Scan {
            since: self.since + count,
            seen: self.seen + count,
            ..self
        }
    }

    fn after(self, byte: u8) -> Scan
        requires found { self.found ≡ false }
        requires bounded { IsBounded self }
        requires room { self.seen + 2 < 2 ^ 64 }
        ensures ahead { (rest : List ℕ) → ahead self (byte ∷ rest) ≡ ahead result rest }
        ensures begun { (rest : List ℕ) → begun self (byte ∷ rest) ≡ begun result rest }
        ensures bounded { IsBounded result }
        ensures seen { result.seen ≡ self.seen + 1 }
    {
        Scan {
            mode: mode_after(self.mode, byte),
            depth: depth_after(self.mode, self.depth, byte),
            since: since_after(self.mode, self.since, byte),
            found: is_sign(self.mode, self.depth, byte),
            seen: self.seen + 1,
        }
    }

    /// Looks on, up to the first `;` outside of all brackets.
    pub(crate) fn look(self, held: &[u8]) -> Scan
        requires { IsScanned held.now self }
        ensures scanned { IsScanned held.now result }
        ensures done { result.found ≡ false → result.seen ≡ length held.now }
    {
        let mut scan = self;
        'bytes: while !scan.found && scan.seen < held.len() {
            scan = scan.past_run(held);
            if scan.seen < held.len() {
                scan = scan.after(held[scan.seen]);
            }
        }
        scan
    }
}
