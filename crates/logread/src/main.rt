// The program `logread`: the blocks of a log card (document 02 d) on standard input, of any length, and their entries
// as lines on standard output. What a block says and whether it is refused is `card`, and the lines are `listing`, both
// proved to the letter. This file is proved safe and to end: it counts the blocks, and the count stays below 2^64 - 1,
// which is more than any input has. What no proof says, since no contract can say what standard input gives and standard
// output takes, is that it hands over the 512 bytes of each block in order, then a rest of fewer, and writes what it is
// given, once each.
#![tactic(auto)]

use std::io::Write;

fn main(rt: HostRuntime) {
    let mut stdin = rt.stdin();
    let mut stdout = rt.stdout();
    let mut bytes = [0u8; 512];
    let mut out = [0u8; 4160];
    for place in 0..u64::MAX {
        let Ok(count) = console::read_input(&mut stdin, &mut bytes) else {
            let _ = eprintln!(rt; "logread: standard input failed");
            return;
        };
        if count == 0 {
            return;
        }
        let reading = card::read_block(&bytes[..count]);
        let written = listing::write_reading(place, reading, &mut out);
        if stdout.write_all(&out[..written]).is_err() {
            let _ = eprintln!(rt; "logread: standard output failed");
            return;
        }
        if count < 512 {
            return;
        }
    }
}
