// The suite: each stored script is run through `lines`, as the script program does, and every byte of its output is
// compared with what is stored. data/NAME.script holds the script and data/NAME.output what an independent second
// program wrote for it. A line is written for each name. This file is proved safe and to end, and `==` compares
// exactly; that its loop hands each line over in order is for the reader to see.
#![tactic(auto)]

ghost use Rattle.console.specs.Counts.{IsPrefixLen};

use lines::Script;
use std::fmt::{self, Display, Formatter};
use std::fs;
use std::io::{self, ErrorKind, Read};
use std::rt::Files;

// The names of the stored scripts.
static NAMES: [&str; 29] = [
    "examples",
    "rows",
    "bad-lines",
    "share-zero",
    "share-one",
    "share-thousand",
    "sum-thousand",
    "sum-over",
    "largest-zero",
    "largest-over",
    "even",
    "camera",
    "leaps",
    "ties",
    "full",
    "reopened",
    "refused",
    "damaged",
    "limits",
    "bursts",
    "idle",
    "numbers",
    "single",
    "edges",
    "exact",
    "halves",
    "worsened",
    "flow-nine",
    "turns",
];

// What the comparison found.
#[derive(Drop)]
enum Found {
    // Every line's output is as stored: the number of lines.
    Stored(usize),
    // The output of this line, counted from 1, is not as stored.
    Differs(usize),
    // More is stored than the script's lines write.
    More(usize),
}

impl Display for Found {
    fn fmt<W: fmt::Write>(&self, f: &mut Formatter<W>) -> fmt::Result {
        match self {
            Found::Stored(lines) => write!(f, "{lines} lines, as stored"),
            Found::Differs(line) => write!(f, "line {line} is not as stored"),
            Found::More(lines) => write!(f, "more is stored than {lines} lines write"),
        }
    }
}

// Reads into the buffer, and gives how many bytes came, whether or not a read failed behind them.
fn count_read(reader: &mut impl Read, input: &mut [u8]) -> usize
    ensures { IsPrefixLen result input.new }
{
    console::read_input(reader, input).unwrap_or_else(|stopped| stopped.count)
}

// Whether the next bytes that are stored are these.
fn next_stored(stored: &mut impl Read, out: &[u8]) -> bool {
    let mut expected = [0u8; 160];
    let n = out.len();
    if 160 < n {
        return false;
    }
    let got = count_read(stored, &mut expected[..n]);
    got == n && out == &expected[..n]
}

// Whether more is stored.
fn more_stored(stored: &mut impl Read) -> bool {
    count_read(stored, &mut [0u8; 1]) != 0
}

// Each line of the script, in order, up to the first whose output is not as stored.
fn run(input: &[u8], stored: &mut impl Read, lengths: &mut [u16], handles: &mut [u32]) -> Found {
    let mut script: Script = lines::start();
    let mut out = [0u8; 160];
    let mut count = 0;
    for (before, line) in input.split_inclusive(|byte| *byte == b'\n').enumerate() {
        let line = line.strip_suffix(b"\n").unwrap_or(line);
        let stepped = script.step(line, lengths, handles, &mut out);
        count = before + 1;
        if !next_stored(stored, &out[..stepped.written]) {
            return Found::Differs(count);
        }
        script = stepped.next;
    }
    if more_stored(stored) {
        return Found::More(count);
    }
    Found::Stored(count)
}

// The first 65,536 bytes of the script, with fresh memories.
fn compare(script: &mut impl Read, stored: &mut impl Read) -> Found {
    let mut input = [0u8; 65536];
    let count = count_read(script, &mut input);
    let mut lengths = [0u16; 4096];
    let mut handles = [0u32; 4096];
    run(&input[..count], stored, &mut lengths, &mut handles)
}

// A file of data/, by its name and ending, which are put together in 64 bytes: nothing here allocates.
fn open<R: Files>(rt: &R, name: &str, ending: &[u8]) -> io::Result<R::File> {
    let mut path = [0u8; 64];
    let used = lines::collect(&mut path, 0, name.as_bytes());
    let end = lines::collect(&mut path, used, ending);
    let path = str::from_utf8(&path[..end]).map_err(|_| ErrorKind::InvalidInput)?;
    fs::open(rt, path)
}

fn one(rt: &(impl Files + Print), name: &str) -> io::Result<()> {
    rt.write_all(name.as_bytes())?;
    print!(rt; ": ")?;
    let script = open(rt, name, b".script");
    let stored = open(rt, name, b".output");
    let Ok(mut script) = script else {
        return println!(rt; "no script");
    };
    let Ok(mut stored) = stored else {
        return println!(rt; "no output");
    };
    println!(rt; "{}", compare(&mut script, &mut stored))
}

fn main(rt: HostRuntime) -> io::Result<()> {
    for name in NAMES {
        one(&rt, name)?;
    }
    Ok(())
}
