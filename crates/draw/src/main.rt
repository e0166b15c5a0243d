// Prints tape lines for a job: `draw RING COUNT masks` or `draw RING COUNT dealer`, from raw bytes on standard input.
#![tactic(auto)]

ghost use Rattle.std.specs.Prelude.{◌≤◌, IfOk, length};

use drawing::Asked;
use std::env::{Env, FillError};
use std::fmt::Display;
use std::io;
use std::io::{Print, Read};

fn main(rt: HostRuntime) {
    if !is_given(&rt, 3) || is_given(&rt, 4) {
        say(
            rt,
            "usage: draw RING COUNT masks|dealer, with raw bytes on standard input",
        );
        return;
    }
    let mut ring = [0u8; 32];
    let mut count = [0u8; 32];
    let mut kind = [0u8; 32];
    let ring = argument(&rt, 1, &mut ring);
    let count = argument(&rt, 2, &mut count);
    let kind = argument(&rt, 3, &mut kind);
    // Each way prints once, and what it prints is of another type: no function to choose.
    match drawing::ask(ring, count, kind) {
        Ok(asked) => print_lines(rt, asked),
        Err(bad) => say(rt, bad),
    }
}

// Whether the program was started with an argument i.
fn is_given(rt: &impl Env, i: usize) -> bool {
    let mut first = [0u8; 1];
    !matches!(rt.arg(i, &mut first), Err(FillError::NotPresent))
}

// Argument i, in its buffer. One that is longer than the buffer counts as empty, and will not do.
fn argument<'a>(rt: &impl Env, i: usize, buf: &'a mut [u8]) -> &'a [u8] {
    let n = rt.arg(i, buf).unwrap_or(0);
    &buf[..n]
}

fn say(rt: HostRuntime, what: impl Display + Drop) {
    let _ = eprintln!(rt; "draw: {what}");
}

// Reads until the run is full or the input ends, and answers how many bytes: n moves on by what each read gave.
fn read_raw(rt: HostRuntime, raw: &mut [u8]) -> io::Result<usize>
    ensures { IfOk result (λ n. n ≤ length raw.new) }
{
    let mut n = 0;
    while n < raw.len() {
        let more = rt.stdin().read(&mut raw[n..])?;
        if more == 0 {
            break;
        }
        n += more;
    }
    Ok(n)
}

// Reads as many raw bytes as there are, at most 65,536, and prints all lines or none.
fn print_lines(rt: HostRuntime, asked: Asked)
    requires { asked.count ≤ 512 }
{
    let mut bytes = [0u8; 65536];
    let mut out = [0u8; 65536];
    let got = read_raw(rt, &mut bytes);
    streams::tell_unread(rt, b"draw: standard input", &got);
    let Ok(count) = got else {
        return;
    };
    let raw = &bytes[0..count];
    // At most 512, so the cast loses nothing: TryFrom would add a failure that never comes.
    match drawing::draw(asked.code, asked.count as usize, asked.kind, raw, &mut out) {
        Ok(length) => {
            streams::write(rt, b"draw: standard output", &out[0..length]);
        }
        // The ring code is one that there is, so a refusal says that the raw words ran out.
        Err(_) => say(rt, "too few raw bytes on standard input"),
    }
}
