// What the program can be asked for, and what it answers to other arguments.
use crate::kinds::Kind;
use std::error::Error;
use std::fmt;

// A count of lines of a kind for a ring code, which stays a number, since a tape is prepared for one.
#[derive(Clone, Copy)]
pub struct Asked {
    pub code: u64,
    pub count: u64,
    pub kind: Kind,
}

// The first argument that will not do.
#[derive(Clone, Copy, Debug, PartialEq, Eq)]
pub enum BadArgument {
    Ring,
    Count,
    Kind,
}

impl fmt::Display for BadArgument {
    fn fmt<W: fmt::Write>(&self, f: &mut fmt::Formatter<W>) -> fmt::Result {
        match self {
            BadArgument::Ring => write!(f, "RING is 13, 31 or 61, or 1 for bits"),
            BadArgument::Count => write!(f, "COUNT is a decimal of at most 512"),
            BadArgument::Kind => write!(f, "the kind of line is masks or dealer"),
        }
    }
}

impl Error for BadArgument {}
