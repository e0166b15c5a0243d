// Standard input and output: a call that fails is told by a line on standard error, with the system's reason.
#![tactic(auto)]

use arrayvec::ArrayString;
use std::fmt::Write;
use std::io;
use std::io::{Error, ErrorKind, Print};

// Tells a read that failed.
pub fn tell_unread(rt: HostRuntime, name: &[u8], got: &io::Result<usize>) {
    if let Err(error) = got {
        fail(rt, name, error);
    }
}

// Writes all of the bytes to standard output, and answers whether it could. A pipe that nobody reads any more is not told.
// That is all that a caller asks: the error is told here, so it answers a bool and no Result.
pub fn write(rt: HostRuntime, name: &[u8], bytes: &[u8]) -> bool {
    let Err(error) = rt.stdout().write_all(bytes) else {
        return true;
    };
    if error.kind() != ErrorKind::BrokenPipe {
        fail(rt, name, &error);
    }
    false
}

// Writes a line to standard error: what failed, as the caller names it, a colon and the reason.
fn fail(rt: HostRuntime, name: &[u8], error: &Error) {
    let mut text = ArrayString::<128>::new();
    let _ = write!(text, "{error}");
    let errors = rt.stderr();
    let _ = errors.write_all(name);
    let _ = errors.write_all(b": ");
    let _ = errors.println(without_number(text.as_str()));
}

// An error's text without the system's number, which stands at its end.
fn without_number(text: &str) -> &str {
    text.split_once(" (os error ")
        .map_or(text, |(reason, _)| reason)
}
