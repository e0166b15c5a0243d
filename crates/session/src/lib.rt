// A job, line by line: what each line does, and what is printed.
#![tactic(auto)]

mod jobs;
mod lent;
mod records;
mod replies;
mod states;
mod tapes;

pub use jobs::Job;
pub use lent::{LAST_LINE, LentJob, MOST_PRINTED};
pub use records::SoundRecord;
pub use replies::Reply;
pub use states::Kept;
pub use tapes::TapeLines;
