// What a chunk of input was answered: how many bytes of it were read, or what failed.
ghost use Rattle.std.specs.Prelude.{Err, IfErr, IfOk, Ok, OnErr, ◌≡◌};
ghost use Rattle.session.specs.Kept.{standing_of};
ghost use Rattle.survey.specs.Chunks.{goes_on};
ghost use Rattle.survey.specs.declared.chunks.Failure.TheVariants.{Unread};

use session::Job;
use std::io;

// What the system could not do: read a chunk, or write what so many bytes of it print.
#[derive(Clone, Copy)]
pub enum Failure {
    Unread,
    Unwritten(usize),
}

// A read that failed.
impl From<io::Error> for Failure {
    ghost from_gives = { λ _ failure. failure ≡ Unread };

    fn from(_: io::Error) -> Failure {
        Failure::Unread
    }
}

// What a read answered: how many bytes it brought, or that it failed.
pub fn counted(read: io::Result<usize>) -> Result<usize, Failure>
    ensures brought { IfOk read (λ n. result ≡ Ok n) }
    ensures failed { OnErr read (result ≡ Err Unread) }
    ensures unread { IfErr result (λ f. f ≡ Unread) }
{
    Ok(read?)
}

// Whether there is another chunk to read.
pub fn goes_on(last: Result<usize, Failure>, job: &Job) -> bool
    ensures { result ≡ goes_on last (standing_of job.now).lines }
{
    match last {
        Ok(n) => (0 < n) & job.reads_on(),
        Err(_) => false,
    }
}
