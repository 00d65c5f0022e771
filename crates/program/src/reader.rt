// The reader of a program file's hunks, one word a step.
ghost use Rattle.std.specs.Prelude.{◌≡◌, ℕ, ◌+◌, ◌*◌, ◌%◌, ◌<◌, ◌≤◌, Ok, length, eqb};
ghost use Rattle.program.specs.Types as type;
ghost use Rattle.answers.specs.Tests.{pick};
ghost use Rattle.program.specs.Header.{total_of, space_of};
ghost use Rattle.program.specs.Reader.{resume, body_of, begin_of, length_of, part_of, end_of};
ghost use Rattle.program.specs.Reader.{numbered, count_of, number_of, offset_of, symbol_of, step_of, start};
ghost use Rattle.program.specs.Cursors.{CursorFits};
ghost use Rattle.program.specs.Runs.{moded_of, skip_at, stored_at, Leads};

use crate::header::{size, total};
use answers::Fault;

// Types of blocks.
pub(crate) const NAME: u32 = 0x3E8;

const CODE: u32 = 0x3E9;

const DATA: u32 = 0x3EA;

const BSS: u32 = 0x3EB;

const RELOCATION: u32 = 0x3EC;

const SYMBOLS: u32 = 0x3F0;

const DEBUG: u32 = 0x3F1;

const END: u32 = 0x3F2;

// What comes after words that are skipped.
#[derive(Clone, Copy, Debug)]
pub enum After {
    Body,
    Symbol,
    Part,
}

// What the next word is.
#[derive(Clone, Copy, Debug)]
pub enum Mode {
    // A hunk begins: a name block, or the body.
    Begin,
    NameLength,
    // The body's type, after a name.
    Body,
    // How many words the body has, of this type.
    Length(u32),
    // The stored word of this number.
    Stored(u32),
    // The type of a further block, or the hunk's end.
    Part,
    // How many offsets a group has, or 0 after the last group.
    Count,
    // The group's hunk number; so many offsets follow after the first.
    Number(u32),
    // An offset; so many follow it, all for this hunk.
    Offset(u32, u32),
    // A symbol's type and length, or 0 after the last symbol.
    Symbol,
    DebugLength,
    // A word that says nothing here; so many follow it, and then this.
    Skip(u32, After),
    // Nothing: the last hunk has ended.
    End,
}

// Where the reader is: the hunk, its first byte in memory, and how many words it stores.
#[derive(Clone, Copy, Debug)]
pub struct Cursor {
    pub mode: Mode,
    pub hunk: u32,
    pub place: usize,
    pub stored: u32,
}

// Where the first hunk begins.
pub fn begin() -> Cursor
    ensures { result ≡ start }
{
    Cursor {
        mode: Mode::Begin,
        hunk: 0,
        place: 0,
        stored: 0,
    }
}

impl Cursor {
    // The same hunk, with another word to come.
    fn with(self, mode: Mode) -> Cursor
        ensures { result ≡ moded_of self mode }
    {
        Cursor { mode, ..self }
    }
}

fn resumed(a: After) -> Mode
    ensures { result ≡ resume a }
{
    match a {
        After::Body => Mode::Body,
        After::Symbol => Mode::Symbol,
        After::Part => Mode::Part,
    }
}

// Before n words that are passed over.
fn skip_at(c: Cursor, n: u32, a: After) -> Cursor
    ensures { result ≡ skip_at c n a }
{
    if n == 0 {
        return c.with(resumed(a));
    }
    c.with(Mode::Skip(n - 1, a))
}

// Code, data or bss.
fn body(c: Cursor, w: u32) -> Result<Cursor, Fault>
    ensures { numbered result ≡ body_of c w }
{
    match w {
        CODE | DATA | BSS => Ok(c.with(Mode::Length(w))),
        _ => Err(Fault::MisplacedBlock),
    }
}

// Before the stored word i, or after the last.
pub fn stored_at(c: Cursor, i: u32) -> Cursor
    ensures { result ≡ stored_at c i }
{
    if i == c.stored {
        return c.with(Mode::Part);
    }
    c.with(Mode::Stored(i))
}

// How many of w words a body of this type stores.
fn kept(kind: u32, w: u32) -> u32
    ensures { result ≡ pick (eqb kind type.bss) 0 w }
{
    if kind == BSS { 0 } else { w }
}

// How many words the body has: at most as many as the hunk's size.
fn body_length(file: &[u8], c: Cursor, kind: u32, w: u32) -> Result<Cursor, Fault>
    requires { 24 + 4 * c.hunk ≤ length file.now }
    ensures { numbered result ≡ length_of (space_of file.now) c kind w }
{
    if size(file, c.hunk) < w {
        return Err(Fault::BodyLength);
    }
    let d = Cursor {
        mode: Mode::Part,
        stored: kept(kind, w),
        ..c
    };
    Ok(stored_at(d, 0))
}

// The hunk's end: on to the next hunk, or to the end of the file.
fn hunk_end(file: &[u8], c: Cursor) -> Cursor
    requires { (24 + 4 * c.hunk ≤ length file.now) × (c.hunk < 64) × (c.place ≤ 4294967296) }
    ensures { Ok result ≡ end_of (total_of file.now) (space_of file.now) c }
{
    let hunk = c.hunk + 1;
    Cursor {
        mode: if hunk == total(file) {
            Mode::End
        } else {
            Mode::Begin
        },
        hunk,
        place: c.place + 4 * size(file, c.hunk) as usize,
        stored: 0,
    }
}

// Relocations, symbols, debug words or the hunk's end.
fn part(file: &[u8], c: Cursor, w: u32) -> Result<Cursor, Fault>
    requires { (24 + 4 * c.hunk ≤ length file.now) × (c.hunk < 64) × (c.place ≤ 4294967296) }
    ensures { numbered result ≡ part_of (total_of file.now) (space_of file.now) c w }
{
    match w {
        RELOCATION => Ok(c.with(Mode::Count)),
        SYMBOLS => Ok(c.with(Mode::Symbol)),
        DEBUG => Ok(c.with(Mode::DebugLength)),
        END => Ok(hunk_end(file, c)),
        _ => Err(Fault::MisplacedBlock),
    }
}

fn count(c: Cursor, w: u32) -> Cursor
    ensures { Ok result ≡ count_of c w }
{
    if w == 0 {
        return c.with(Mode::Part);
    }
    c.with(Mode::Number(w - 1))
}

fn number(file: &[u8], c: Cursor, n: u32, w: u32) -> Result<Cursor, Fault>
    requires { 12 ≤ length file.now }
    ensures { numbered result ≡ number_of (total_of file.now) c n w }
{
    if w < total(file) {
        return Ok(c.with(Mode::Offset(n, w)));
    }
    Err(Fault::BadTarget)
}

// An even offset of a word that the hunk stores.
fn offset(c: Cursor, n: u32, k: u32, w: u32) -> Result<Cursor, Fault>
    ensures { numbered result ≡ offset_of c n k w }
{
    if w % 2 != 0 {
        return Err(Fault::BadTarget);
    }
    let bytes = 4 * c.stored as u64;
    if bytes < w as u64 + 4 {
        return Err(Fault::BadTarget);
    }
    if n != 0 {
        return Ok(c.with(Mode::Offset(n - 1, k)));
    }
    Ok(c.with(Mode::Count))
}

// The type byte is 0; the name's words and one value follow.
fn symbol(c: Cursor, w: u32) -> Result<Cursor, Fault>
    ensures { numbered result ≡ symbol_of c w }
{
    if w == 0 {
        return Ok(c.with(Mode::Part));
    }
    if 0x1000000 <= w {
        return Err(Fault::SymbolType);
    }
    Ok(c.with(Mode::Skip(w, After::Symbol)))
}

// A hunk's first word.
fn first(c: Cursor, w: u32) -> Result<Cursor, Fault>
    ensures { numbered result ≡ begin_of c w }
{
    if w == NAME {
        return Ok(c.with(Mode::NameLength));
    }
    body(c, w)
}

// The reader takes the word w. Inlined, since a call for each word takes twice as long.
#[inline(always)]
#[tactic(auto, using(crate::proofs::Choices::choices), unfolding(crate::specs::Reader::step_of))]
pub fn step(file: &[u8], c: Cursor, w: u32) -> Result<Cursor, Fault>
    requires { CursorFits file.now c }
    ensures { numbered result ≡ step_of (total_of file.now) (space_of file.now) c w }
{
    match c.mode {
        Mode::Begin => first(c, w),
        Mode::NameLength => Ok(skip_at(c, w, After::Body)),
        Mode::Body => body(c, w),
        Mode::Length(kind) => body_length(file, c, kind, w),
        Mode::Stored(i) => Ok(stored_at(c, i + 1)),
        Mode::Part => part(file, c, w),
        Mode::Count => Ok(count(c, w)),
        Mode::Number(n) => number(file, c, n, w),
        Mode::Offset(n, k) => offset(c, n, k, w),
        Mode::Symbol => symbol(c, w),
        Mode::DebugLength => Ok(skip_at(c, w, After::Part)),
        Mode::Skip(n, a) => Ok(skip_at(c, n, a)),
        Mode::End => Err(Fault::TrailingWords),
    }
}

// A byte of the file, and the cursor there.
#[derive(Clone, Copy, Debug)]
pub struct Spot {
    pub cursor: Cursor,
    pub at: usize,
}

// After the words from `at` on that the reader takes whatever they are: words that are stored or passed over, as many
// as there are. No stored word follows them, unless the file ends there.
pub fn past(file: &[u8], c: Cursor, at: usize) -> Spot
    requires { (CursorFits file.now c) × (length file.now % 4 ≡ 0) × (at % 4 ≡ 0) }
    ensures leads { Leads file.now c at result.cursor result.at }
    ensures all { (i : ℕ) → result.cursor.mode ≡ Mode.Stored i → length file.now ≤ result.at }
{
    if file.len() <= at {
        return Spot { cursor: c, at };
    }
    let left = (file.len() - at) / 4;
    match c.mode {
        Mode::Stored(i) => {
            let n = left.min((c.stored - i) as usize);
            Spot {
                cursor: stored_at(c, i + n as u32),
                at: at + 4 * n,
            }
        }
        Mode::Skip(l, a) => {
            let n = left.min(l as usize + 1);
            Spot {
                cursor: skip_at(c, (l as usize + 1 - n) as u32, a),
                at: at + 4 * n,
            }
        }
        _ => Spot { cursor: c, at },
    }
}
