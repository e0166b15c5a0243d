// The lines of a chunk of input, one after the other, on a record, tape lines and wires that are lent.
// What they print goes to places of a slice that the caller lends: there is no heap.
ghost use Rattle.std.specs.Prelude.{◌≡◌, ◌+◌, ◌*◌, ◌≤◌, ◌<◌, drop, length};
ghost use Rattle.line.specs.Printed.{Wrote};
ghost use Rattle.session.specs.Kept.{SameLent, standing_on, state_on};
ghost use Rattle.session.specs.Outputs.{taken, turned};
ghost use Rattle.session.specs.Standings.{Advanced, after_bytes, after_end, after_last, printed_at, printed_by, printed_last};

use crate::records::SoundRecord;
use crate::replies::{DECLINED, Reply};
use crate::tapes::TapeLines;
use line::{Command, Reading, print_line, take_line};

// 01: "Reading stops after line 1,000,000".
pub const LAST_LINE: u64 = 1_000_000;

// No line prints more bytes.
pub const MOST_PRINTED: usize = 105;

// A job on a record, tape lines and wires that are lent, the wires of any length; how many lines there were, and what was read of the next.
#[derive(Drop)]
pub struct LentJob<'a> {
    pub record: &'a mut SoundRecord,
    pub tapes: &'a mut TapeLines,
    pub c0: &'a mut [u64],
    pub c1: &'a mut [u64],
    pub c2: &'a mut [u64],
    pub lines: u64,
    pub reading: Reading,
}

impl LentJob<'_> {
    // What a line does, and what it is answered. One `match`: each command takes other fields and another part of what is lent.
    pub fn take_command(&mut self, command: Command) -> Option<Reply>
        ensures is { turned (state_on self.new) result ≡ taken (state_on self.old) command }
        ensures same { SameLent self.old self.new }
        ensures lines { self.new.lines ≡ self.old.lines }
        ensures reading { self.new.reading ≡ self.old.reading }
    {
        match command {
            Command::Masks { t0, t1, t2 } => self.tapes.add_masks(t0, t1, t2),
            Command::Dealer { item } => self.tapes.add_item(item),
            Command::Order(o) => Some(
                self.record
                    .give_order(o, self.tapes, self.c0, self.c1, self.c2),
            ),
            Command::Unreadable => Some(DECLINED),
        }
    }

    // The end of a line: does what it says, prints the reply at `at`, and answers the place after it.
    fn end_line(&mut self, out: &mut [u8], at: usize) -> usize
        requires room { at + MOST_PRINTED ≤ length out.old }
        ensures is { standing_on self.new ≡ after_end (standing_on self.old) }
        ensures same { SameLent self.old self.new }
        ensures writes { Wrote at (printed_at (standing_on self.old)) out.old out.new result }
        ensures short { result ≤ at + MOST_PRINTED }
    {
        let command = self.reading.command();
        self.reading = Reading::start();
        if LAST_LINE <= self.lines {
            return at;
        }
        self.lines += 1;
        match self.take_command(command) {
            None => at,
            Some(reply) => print_line(
                out,
                at,
                self.lines,
                reply.refusal,
                reply.value,
                self.record.masks_at(),
                self.record.channels_at(),
            ),
        }
    }

    // One line of the chunk from byte i on, or the rest of the chunk where no line ends in it.
    // Answers the byte that comes next, and the place after what was printed.
    fn take_one(&mut self, buf: &[u8], i: usize, out: &mut [u8], at: usize) -> (usize, usize)
        requires inside { i < length buf.now }
        requires room { at + MOST_PRINTED ≤ length out.old }
        ensures is { Advanced (standing_on self.old) (drop i buf.now) (standing_on self.new) (drop result.0 buf.now) at out.old out.new result.1 }
        ensures same { SameLent self.old self.new }
        ensures further { i < result.0 }
        ensures within { result.0 ≤ length buf.now }
        ensures short { result.1 + MOST_PRINTED * i ≤ at + MOST_PRINTED * result.0 }
    {
        let taken = take_line(buf, i, self.reading);
        let stop = taken.at;
        self.reading = taken.reading;
        if buf.len() <= stop {
            return (stop, at);
        }
        (stop + 1, self.end_line(out, at))
    }

    // A chunk of input: what it prints stands at the start of `out`, as long as the answer.
    pub fn feed(&mut self, buf: &[u8], out: &mut [u8]) -> usize
        requires room { MOST_PRINTED * length buf.now ≤ length out.old }
        ensures is { standing_on self.new ≡ after_bytes (standing_on self.old) buf.now }
        ensures same { SameLent self.old self.new }
        ensures writes { Wrote 0 (printed_by (standing_on self.old) buf.now) out.old out.new result }
        ensures within { result ≤ length out.new }
    {
        let mut i = 0;
        let mut at = 0;
        // The index moves on by lines, whose ends are found as they are read.
        while i < buf.len() {
            (i, at) = self.take_one(buf, i, out, at);
        }
        at
    }

    // The end of input: a line of which a byte was seen ends here.
    pub fn finish(&mut self, out: &mut [u8]) -> usize
        requires room { MOST_PRINTED ≤ length out.old }
        ensures is { standing_on self.new ≡ after_last (standing_on self.old) }
        ensures same { SameLent self.old self.new }
        ensures writes { Wrote 0 (printed_last (standing_on self.old)) out.old out.new result }
        ensures within { result ≤ length out.new }
    {
        if self.reading.seen {
            return self.end_line(out, 0);
        }
        0
    }
}
