// Standard input and standard output. A call that was interrupted, or that would have to wait, is made again.
ghost use Rattle.std.specs.Prelude.{◌≡◌, ◌<◌, ◌≤◌, IfOk, ⊤, length};
ghost use Rattle.std.specs.ControlFlow.{MatchControlFlow};
ghost use Rattle.report.specs.Text.{program_text};

use std::io::{ErrorKind, Read, Stdin, Stdout, Write};
use std::ops::ControlFlow;
use std::{io, thread};

// How often a call is made at most: for days.
const TURNS: u64 = 1000000000000;

// Whether the call that just failed may be made again; another thread runs first.
fn may_retry(error: &io::Error) -> bool {
    match error.kind() {
        ErrorKind::Interrupted => true,
        ErrorKind::WouldBlock => {
            thread::yield_now();
            true
        }
        _ => false,
    }
}

// One read into the room from `done` on: how far it is filled then, and a break where that is all. A read that fails leaves
// nothing: an input that is not whole is no deck.
fn read_more(stdin: &mut Stdin, room: &mut [u8], done: usize) -> ControlFlow<usize, usize>
    requires { done ≤ length room.old }
    ensures { MatchControlFlow result (λ n. n ≤ length room.old) (λ n. n ≤ length room.old) }
{
    match stdin.read(&mut room[done..]) {
        Ok(0) => ControlFlow::Break(done),
        Ok(n) => ControlFlow::Continue(done + n),
        Err(error) => {
            if may_retry(&error) {
                ControlFlow::Continue(done)
            } else {
                ControlFlow::Break(0)
            }
        }
    }
}

fn read_count(stdin: &mut Stdin, room: &mut [u8]) -> usize
    ensures { result ≤ length room.old }
{
    let mut done = 0;
    for _ in 0..TURNS {
        match read_more(stdin, room, done) {
            ControlFlow::Continue(n) => done = n,
            ControlFlow::Break(n) => return n,
        }
    }
    0
}

// Reads until the room is full or the input ends, and answers the part of the room that was read; an empty one where a
// read fails. The room takes a byte more than the longest deck, so that a longer input is seen to be one.
pub fn read_input(mut stdin: Stdin, room: &mut [u8]) -> &mut [u8]
    requires { 65536 < length room.old }
{
    let n = read_count(&mut stdin, room);
    &mut room[..n]
}

// One write of the text from `done` on: how far it is written then, and a break where that is all.
fn write_more(stdout: &mut Stdout, text: &[u8], done: usize) -> io::Result<ControlFlow<(), usize>>
    requires { done ≤ length text.now }
    ensures { IfOk result (λ moved. MatchControlFlow moved (λ n. n ≤ length text.now) (λ _. ⊤)) }
{
    let rest = &text[done..];
    if rest.len() == 0 {
        return Ok(ControlFlow::Break(()));
    }
    match stdout.write(rest) {
        Ok(0) => Ok(ControlFlow::Break(())),
        Ok(n) => Ok(ControlFlow::Continue(done + n)),
        Err(error) => {
            if may_retry(&error) {
                Ok(ControlFlow::Continue(done))
            } else {
                Err(error)
            }
        }
    }
}

// Writes all of the text, which is that of the input.
pub fn write_text(mut stdout: Stdout, input: &[u8], text: &[u8]) -> io::Result<()>
    requires { text.now ≡ program_text input.now }
{
    let mut done = 0;
    for _ in 0..TURNS {
        match write_more(&mut stdout, text, done)? {
            ControlFlow::Continue(n) => done = n,
            ControlFlow::Break(()) => return Ok(()),
        }
    }
    Ok(())
}
