#![tactic(auto)]

// Answers a request list (docs/REPLAY.md): the file that its argument names, or standard input where there is none. The list is read in
// pieces and no line is kept, so neither has a longest. What cannot be read or printed is said on standard error.
mod device;
mod session;

use lists::print::Failure;
use session::Session;
use std::env::FillError;
use std::io::{Error, ErrorKind, Read, Stdout};
use std::rt::Env;
use std::{fs, str};

// Answers a whole list. What came of it is printed before the next read, which may have to wait.
fn answer<'a>(to: Stdout, list: &mut impl Read, name: &'a str) -> Result<(), Failure<'a>> {
    let mut session = Session::new(to);
    let mut piece = [0u8; 4096];
    // A proved loop has to end, and nothing says that a list does: no run comes to the last of these turns.
    for _ in 0..u64::MAX {
        match list.read(&mut piece) {
            Ok(0) => break,
            Ok(n) => session.read(&piece[..n]).map_err(Failure::of_output)?,
            Err(error) => return Err(Failure { what: name, error }),
        }
    }
    session.end().map_err(Failure::of_output)
}

// The name of the list that the argument names, read into the path, or none where there is no argument.
fn named<'a>(
    env: &impl Env,
    path: &'a mut [u8; 4096],
) -> Result<Option<&'a str>, Failure<'static>> {
    let given = env.arg(1, path);
    if let Err(FillError::NotPresent) = given {
        return Ok(None);
    }
    if !matches!(env.arg(2, &mut []), Err(FillError::NotPresent)) {
        return Err(complaint("replay", "one file at most"));
    }
    let what = "replay: the name of the list";
    let Ok(n) = given else {
        return Err(complaint(what, "File name too long"));
    };
    match str::from_utf8(&path[..n]) {
        Ok(name) => Ok(Some(name)),
        Err(_) => Err(complaint(what, "not UTF-8")),
    }
}

fn complaint<'a>(what: &'a str, reason: &str) -> Failure<'a> {
    Failure {
        what,
        error: Error::new(ErrorKind::InvalidInput, reason),
    }
}

fn run<'a>(rt: &HostRuntime, path: &'a mut [u8; 4096]) -> Result<(), Failure<'a>> {
    let Some(name) = named(rt, path)? else {
        return answer(rt.stdout(), &mut rt.stdin(), "standard input");
    };
    let mut list = fs::open(rt, name).map_err(|error| Failure { what: name, error })?;
    answer(rt.stdout(), &mut list, name)
}

fn main(rt: HostRuntime) {
    let mut path = [0u8; 4096];
    if let Err(failure) = run(&rt, &mut path) {
        let _ = eprintln!(rt; "{failure}");
    }
}
