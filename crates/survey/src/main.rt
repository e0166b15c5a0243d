// The job program: lines on standard input, a printed line for each order on standard output.
#![tactic(auto)]

mod chunks;

ghost use Rattle.std.specs.Prelude.{◌≡◌, ◌≤◌, length};
ghost use Rattle.session.specs.Kept.{standing_of};
ghost use Rattle.session.specs.Standings.{begun};
ghost use Rattle.survey.specs.Chunks.{Ran, Reached, Took};

use chunks::{Failure, counted, goes_on};
use session::{Job, MOST_PRINTED};
use std::io::Read;

// How many bytes are read at once.
const CHUNK: usize = 2496;

// A job, a chunk of its input, and what that prints.
#[derive(Drop)]
struct Program {
    job: Job,
    buf: [u8; CHUNK],
    out: [u8; MOST_PRINTED * CHUNK],
}

impl Program {
    // Reads once, and writes what the lines of it print.
    fn take_chunk(&mut self, rt: HostRuntime) -> Result<usize, Failure>
        ensures took { Took (standing_of self.old.job) (standing_of self.new.job) result self.new.buf self.old.out self.new.out }
        ensures room { length self.new.buf ≡ CHUNK }
    {
        let read = rt.stdin().read(&mut self.buf);
        streams::tell_unread(rt, b"survey: standard input", &read);
        let n = counted(read)?;
        let at = self.job.feed(&self.buf[..n], &mut self.out);
        if !self.write_out(rt, at) {
            return Err(Failure::Unwritten(n));
        }
        Ok(n)
    }

    // Writes what was printed, so many bytes.
    fn write_out(&self, rt: HostRuntime, at: usize) -> bool
        requires { at ≤ length self.now.out }
    {
        streams::write(rt, b"survey: standard output", &self.out[..at])
    }

    // All chunks. A proved loop has to end, so it counts its turns, to a number that no run reaches.
    fn take_input(&mut self, rt: HostRuntime) -> Result<usize, Failure>
        requires { standing_of self.old.job ≡ begun }
        ensures { Reached (standing_of self.new.job) result self.new.buf }
    {
        let mut last = Ok(0);
        for _ in 0..u64::MAX {
            last = self.take_chunk(rt);
            if !goes_on(last, &self.job) {
                return last;
            }
        }
        last
    }

    // A whole job: all chunks, then the end of input, if all before it could be read and written. Tested and not taken apart by `?`:
    // what is answered is the last chunk's answer, whole.
    fn run(&mut self, rt: HostRuntime) -> Result<usize, Failure>
        requires { standing_of self.old.job ≡ begun }
        ensures { Ran (standing_of self.new.job) result self.new.buf self.new.out }
    {
        let last = self.take_input(rt);
        if last.is_err() {
            return last;
        }
        let at = self.job.finish(&mut self.out);
        self.write_out(rt, at);
        last
    }
}

fn main(rt: HostRuntime) {
    let mut program = Program {
        job: Job::new(),
        buf: [0; CHUNK],
        out: [0; MOST_PRINTED * CHUNK],
    };
    let _ = program.run(rt);
}
