// The program `logwrite`: a script of calls (document 01, "The script program") on standard input, of any length, and
// the blocks of its log (document 02 d) on standard output. What a line says is `lines`, the calls and what they log
// are `cardlog`, and the bytes of a block are `card`, all proved to the letter. This file is proved safe and to end: it
// counts the pieces that it reads, and the count stays below 2^64 - 1, which is more than any input has.
// What no proof says, since no contract can say what standard input gives and standard output takes, is that it hands
// over each line in order and once, that an opening that is done ends the log so far, and that an entry goes into the
// block, and a block to standard output, as `feed` of `cardlog` has it: that this is the log is `fed_all` there. A line
// of more than 34 bytes is bad whatever it says (`long_bad` of `lines`), so of a longer line the first 64 bytes are kept
// and say the same.
#![tactic(auto)]

use arrayvec::ArrayVec;
use card::Block;
use entries::Entry;
use lines::{Line, NO_HEADER, Script};
use reply::Called;
use std::fmt::{self, Display, Formatter};
use std::io::Read;
use std::mem;
use uplink::Record;

// What a script has done so far, with the two memories.
#[derive(Drop)]
struct Logger {
    script: Script,
    // The block that is being filled.
    block: Block,
    lengths: [u16; 4096],
    handles: [u32; 4096],
}

// Why the log does not go on.
#[derive(Drop)]
enum Failed {
    Input,
    Output,
    // The writer of blocks refused one.
    Refused,
    // The block that is full has the last number that there is.
    LastNumber,
}

impl Display for Failed {
    fn fmt<W: fmt::Write>(&self, f: &mut Formatter<W>) -> fmt::Result {
        f.write_str(match self {
            Failed::Input => "standard input failed",
            Failed::Output => "standard output failed",
            Failed::Refused => "a block was refused",
            Failed::LastNumber => "no block has the next number",
        })
    }
}

// Says on standard error why the log does not go on.
fn tell(rt: &impl Eprint, failed: Failed) {
    let _ = eprintln!(rt; "logwrite: {failed}");
}

// Writes a block that has an entry.
fn save(rt: &impl Print, block: Block) -> Result<(), Failed> {
    if block.count == 0 {
        return Ok(());
    }
    let mut bytes = [0u8; 512];
    card::write_block(block, &mut bytes).map_err(|_| Failed::Refused)?;
    rt.write_all(&bytes).map_err(|_| Failed::Output)
}

impl Logger {
    // Before the first line of a script.
    fn new() -> Logger {
        Logger {
            script: lines::start(),
            block: cardlog::begun(0),
            lengths: [0; 4096],
            handles: [0; 4096],
        }
    }

    // What a call logs goes into the block; a block that is full is written first, and the next one begun. Where there is
    // no next one, and the full one was not written either, both are told.
    fn note(&mut self, rt: &(impl Print + Eprint), entry: Option<Entry>) -> Result<(), Failed> {
        let Some(entry) = entry else {
            return Ok(());
        };
        if self.block.count >= 31 {
            let saved = save(rt, self.block);
            let Some(number) = self.block.number.checked_add(1) else {
                if let Err(failed) = saved {
                    tell(rt, failed);
                }
                return Err(Failed::LastNumber);
            };
            saved?;
            self.block = cardlog::begun(number);
        }
        self.block = cardlog::added(self.block, entry);
        Ok(())
    }

    // The rows so far are opened, and stay. Where that is done the log so far ends, and another begins.
    fn open(&mut self, rt: &impl Print) -> Result<(), Failed> {
        let script = &mut self.script;
        let Called { next, reply } = Record::opening(
            &script.shares,
            &script.largest,
            NO_HEADER,
            &mut self.lengths,
            &mut self.handles,
        );
        script.held = next;
        if reply.is_ok() {
            save(rt, self.block)?;
            self.block = cardlog::begun(0);
        }
        Ok(())
    }

    fn arrive(
        &mut self,
        rt: &(impl Print + Eprint),
        flow: u32,
        bytes: u32,
        handle: u32,
    ) -> Result<(), Failed> {
        let held = self.script.held;
        let logged = cardlog::arrival(
            held,
            flow,
            bytes,
            handle,
            &mut self.lengths,
            &mut self.handles,
        );
        self.script.held = logged.called.next;
        self.note(rt, logged.entry)
    }

    fn pick(&mut self, rt: &(impl Print + Eprint)) -> Result<(), Failed> {
        let held = self.script.held;
        let logged = cardlog::pick(held, &mut self.lengths, &mut self.handles);
        self.script.held = logged.called.next;
        self.note(rt, logged.entry)
    }

    // A row of the table, or a bad line: no call is made, and what the script program would write is let go.
    fn add(&mut self, line: &[u8]) {
        let mut out = [0; 160];
        let script = mem::replace(&mut self.script, lines::start());
        self.script = script
            .step(line, &mut self.lengths, &mut self.handles, &mut out)
            .next;
    }

    // One line of a script.
    fn step(&mut self, rt: &(impl Print + Eprint), line: &[u8]) -> Result<(), Failed> {
        match lines::read(line) {
            Some(Line::Opening) => self.open(rt),
            Some(
                Line::Arrival {
                    flow,
                    length,
                    handle,
                },
            ) => self.arrive(rt, flow, length, handle),
            Some(Line::Pick) => self.pick(rt),
            Some(Line::Row { .. }) | None => {
                self.add(line);
                Ok(())
            }
        }
    }

    // All lines that end in this piece of the input. What stands behind the last of them is kept in `line`, as much as
    // there is room for.
    fn feed(
        &mut self,
        rt: &(impl Print + Eprint),
        piece: &[u8],
        line: &mut ArrayVec<u8, 64>,
    ) -> Result<(), Failed> {
        for part in piece.split_inclusive(|byte| *byte == b'\n') {
            let ended = part.strip_suffix(b"\n");
            let _ = line.extend(ended.unwrap_or(part).iter().copied());
            if ended.is_some() {
                self.step(rt, line)?;
                line.clear();
            }
        }
        Ok(())
    }
}

// The whole input, a piece at a time. Its end ends the last line, and the block that is not full is written.
fn log(rt: &(impl Print + Eprint), input: &mut impl Read) -> Result<(), Failed> {
    let mut logger = Logger::new();
    let mut line = ArrayVec::new();
    let mut piece = [0; 65536];
    for _ in 0..u64::MAX {
        let count = console::read_input(input, &mut piece).map_err(|_| Failed::Input)?;
        logger.feed(rt, &piece[..count], &mut line)?;
        if count < 65536 {
            logger.step(rt, &line)?;
            return save(rt, logger.block);
        }
    }
    Ok(())
}

fn main(rt: HostRuntime) {
    if let Err(failed) = log(&rt, &mut rt.stdin()) {
        tell(&rt, failed);
    }
}
