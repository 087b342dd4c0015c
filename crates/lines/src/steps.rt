// A script's step: the state and a line to the next state and the output line.
ghost use Rattle.std.specs.Prelude.{◌≡◌, List, ℕ, replicate};
ghost use Rattle.lines.specs.Step.{Gives, script_state, start_by};
ghost use Rattle.lines.specs.Step.{bad_step, row_step, opening_by, arrival_by, pick_by, step_by};

use crate::reading::read;
use crate::writing::{write_arrival, write_bad, write_opening, write_pick};
use crate::{Engine, Line, Script, Stepped};
use arrayvec::ArrayVec;

// The script before its first line: a blank record and no rows.
pub fn start<E: Engine>() -> Script<E>
    ensures { script_state result (replicate 4096 0) (replicate 4096 0) ≡ start_by E.rules }
{
    Script {
        held: E::blank(),
        shares: ArrayVec::new(),
        largest: ArrayVec::new(),
    }
}

// A script's packets carry no header.
pub const NO_HEADER: u32 = 0;

impl<E: Engine> Script<E> {
    // A bad line changes nothing.
    fn refuse(self, out: &mut [u8; 160]) -> Stepped<E>
        ensures { (lengths handles : List ℕ) → Gives result lengths handles out.new
            (bad_step (script_state self lengths handles)) }
    {
        Stepped {
            next: self,
            written: write_bad(out),
        }
    }

    // A row goes behind the table's last one; after the 65th the line is bad.
    fn add_row(mut self, share: u32, largest: u32, out: &mut [u8; 160]) -> Stepped<E>
        ensures { (lengths handles : List ℕ) → Gives result lengths handles out.new
            (row_step (script_state self lengths handles) share largest) }
    {
        if self.shares.is_full() {
            return self.refuse(out);
        }
        self.shares.push(share);
        self.largest.push(largest);
        Stepped {
            next: self,
            written: 0,
        }
    }

    // The rows so far are opened, and stay.
    #[tactic(auto, unfolding(crate::specs::Step::opening_by))]
    fn open(mut self, lengths: &mut [u16], handles: &mut [u32], out: &mut [u8; 160]) -> Stepped<E>
        ensures { Gives result lengths.new handles.new out.new
            (opening_by E.rules (script_state self lengths.old handles.old)) }
    {
        let opened = E::opening(&self.shares, &self.largest, NO_HEADER, lengths, handles);
        self.held = opened.next;
        Stepped {
            next: self,
            written: write_opening(out, opened.reply),
        }
    }

    // A packet comes to a flow.
    #[tactic(auto, unfolding(crate::specs::Step::arrival_by))]
    fn arrive(
        mut self,
        flow: u32,
        length: u32,
        handle: u32,
        lengths: &mut [u16],
        handles: &mut [u32],
        out: &mut [u8; 160],
    ) -> Stepped<E>
        ensures { Gives result lengths.new handles.new out.new
            (arrival_by E.rules (script_state self lengths.old handles.old) flow length handle) }
    {
        let arrived = self.held.arrival(flow, length, handle, lengths, handles);
        self.held = arrived.next;
        Stepped {
            next: self,
            written: write_arrival(out, arrived.reply),
        }
    }

    // The next packet is asked for.
    #[tactic(auto, unfolding(crate::specs::Step::pick_by))]
    fn pick(mut self, lengths: &mut [u16], handles: &mut [u32], out: &mut [u8; 160]) -> Stepped<E>
        ensures { Gives result lengths.new handles.new out.new
            (pick_by E.rules (script_state self lengths.old handles.old)) }
    {
        let picked = self.held.pick(lengths, handles);
        self.held = picked.next;
        Stepped {
            next: self,
            written: write_pick(out, picked.reply),
        }
    }

    // One line of a script.
    #[tactic(auto, unfolding(crate::specs::Step::step_by))]
    pub fn step(
        self,
        line: &[u8],
        lengths: &mut [u16],
        handles: &mut [u32],
        out: &mut [u8; 160],
    ) -> Stepped<E>
        ensures exact { Gives result lengths.new handles.new out.new
            (step_by E.rules (script_state self lengths.old handles.old) line.now) }
    {
        match read(line) {
            Some(Line::Row { share, largest }) => self.add_row(share, largest, out),
            Some(Line::Opening) => self.open(lengths, handles, out),
            Some(
                Line::Arrival {
                    flow,
                    length,
                    handle,
                },
            ) => self.arrive(flow, length, handle, lengths, handles, out),
            Some(Line::Pick) => self.pick(lengths, handles, out),
            None => self.refuse(out),
        }
    }
}
