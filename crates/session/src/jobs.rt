// A job in memory of its own.
ghost use Rattle.std.specs.Prelude.{◌≡◌, ◌*◌, ◌≤◌, length, ltb};
ghost use Rattle.line.specs.Printed.{Wrote};
ghost use Rattle.machine.specs.Registers.{million};
ghost use Rattle.session.specs.Kept.{standing_of};
ghost use Rattle.session.specs.Standings.{after_bytes, after_last, begun, printed_by, printed_last};

use crate::lent::{LAST_LINE, LentJob, MOST_PRINTED};
use crate::states::Kept;
use line::Reading;

// A job: what the lines so far left, how many there were, and what was read of the next.
#[derive(Drop)]
pub struct Job {
    pub kept: Kept,
    pub lines: u64,
    pub reading: Reading,
}

impl Job {
    // No byte yet. No derived Default: tapes with ghost fields have none, and a reading begins with fields.
    pub fn new() -> Job
        ensures { standing_of result ≡ begun }
    {
        Job {
            kept: Kept::new(),
            lines: 0,
            reading: Reading::start(),
        }
    }

    // Whether another line would be read.
    pub fn reads_on(&self) -> bool
        ensures { result ≡ ltb (standing_of self.now).lines million }
    {
        self.lines < LAST_LINE
    }

    // A chunk of input: what it prints stands at the start of `out`, as long as the answer. The job's parts are lent, and come back.
    // Here, in `finish` and in `Kept::take_command` they are named one by one: a function that answers such a loan would have to say
    // of each part that it comes back.
    pub fn feed(&mut self, buf: &[u8], out: &mut [u8]) -> usize
        requires room { MOST_PRINTED * length buf.now ≤ length out.old }
        ensures is { standing_of self.new ≡ after_bytes (standing_of self.old) buf.now }
        ensures writes { Wrote 0 (printed_by (standing_of self.old) buf.now) out.old out.new result }
        ensures within { result ≤ length out.new }
    {
        let lent = &mut LentJob {
            record: &mut self.kept.record,
            tapes: &mut self.kept.tapes,
            c0: &mut self.kept.c0,
            c1: &mut self.kept.c1,
            c2: &mut self.kept.c2,
            lines: self.lines,
            reading: self.reading,
        };
        let at = lent.feed(buf, out);
        self.lines = lent.lines;
        self.reading = lent.reading;
        at
    }

    // The end of input: a line of which a byte was seen ends here.
    pub fn finish(&mut self, out: &mut [u8]) -> usize
        requires room { MOST_PRINTED ≤ length out.old }
        ensures is { standing_of self.new ≡ after_last (standing_of self.old) }
        ensures writes { Wrote 0 (printed_last (standing_of self.old)) out.old out.new result }
        ensures within { result ≤ length out.new }
    {
        let lent = &mut LentJob {
            record: &mut self.kept.record,
            tapes: &mut self.kept.tapes,
            c0: &mut self.kept.c0,
            c1: &mut self.kept.c1,
            c2: &mut self.kept.c2,
            lines: self.lines,
            reading: self.reading,
        };
        let at = lent.finish(out);
        self.lines = lent.lines;
        self.reading = lent.reading;
        at
    }
}
