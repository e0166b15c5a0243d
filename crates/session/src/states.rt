// What the lines of a job leave, in memory of its own.
ghost use Rattle.std.specs.Prelude.{◌≡◌};
ghost use Rattle.session.specs.Kept.{state_of};
ghost use Rattle.session.specs.Outputs.{started, taken, turned};

use crate::lent::LentJob;
use crate::records::SoundRecord;
use crate::replies::Reply;
use crate::tapes::TapeLines;
use line::{Command, Reading};

// 01: "wires of 1,024 words".
const WIRE: usize = 1024;

// The record, the tape lines taken and the wires, in fixed memory.
#[derive(Drop)]
pub struct Kept {
    pub record: SoundRecord,
    pub tapes: TapeLines,
    pub c0: [u64; WIRE],
    pub c1: [u64; WIRE],
    pub c2: [u64; WIRE],
}

impl Kept {
    // Before the first line. No derived Default: tapes with ghost fields have none.
    pub fn new() -> Kept
        ensures { state_of result ≡ started }
    {
        Kept {
            record: SoundRecord::empty(),
            tapes: TapeLines::new(),
            c0: [0; WIRE],
            c1: [0; WIRE],
            c2: [0; WIRE],
        }
    }

    // What a line does, and what it is answered: for a caller that has commands and no lines.
    pub fn take_command(&mut self, command: Command) -> Option<Reply>
        ensures { turned (state_of self.new) result ≡ taken (state_of self.old) command }
    {
        let lent = &mut LentJob {
            record: &mut self.record,
            tapes: &mut self.tapes,
            c0: &mut self.c0,
            c1: &mut self.c1,
            c2: &mut self.c2,
            lines: 0,
            reading: Reading::start(),
        };
        lent.take_command(command)
    }
}
