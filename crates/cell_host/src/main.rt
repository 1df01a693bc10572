//! The program `cellhost`: the real objects outside, and the top call over them.
#![tactic(auto)]

mod answer;
mod command;
#[cfg(test)]
mod document_tests;
mod host;
mod input;
#[cfg(test)]
mod put_tests;
mod replay;
#[cfg(test)]
mod replay_tests;
mod serving;
mod status;
#[cfg(test)]
mod test_calls;
#[cfg(test)]
mod test_files;
#[cfg(test)]
mod test_streams;
#[cfg(test)]
mod tests;
#[cfg(test)]
mod wire_tests;

use host::{host_once, tell};
use host_edge::{StdSink, StdSource, SystemClock};
use status::Status;
use std::process::ExitCode;
use std::{env, io};

// The words behind the program's name.
fn words_given(rt: &HostRuntime) -> io::Result<Vec<String>> {
    let words: Vec<String> = env::args(rt)?.skip(1).collect(rt.alloc())?;
    Ok(words)
}

// Does what the words ask for.
fn run(rt: HostRuntime, words: &[String]) -> io::Result<u8> {
    let alloc = rt.alloc();
    let words: Vec<&str> = words.iter().map(|word| word.as_str()).collect(alloc)?;
    let mut source = StdSource::new(rt.stdin());
    let mut out = StdSink::new(rt.stdout());
    let mut err = StdSink::new(rt.stderr());
    let mut clock = SystemClock::new(rt);
    Ok(host_once(alloc, &words, &mut source, &mut out, &mut err, &mut clock))
}

fn main(rt: HostRuntime) -> ExitCode {
    let mut err = StdSink::new(rt.stderr());
    let ended = match words_given(&rt) {
        Ok(words) => run(rt, &words),
        Err(error) => Err(error),
    };
    let status = match ended {
        Ok(status) => status,
        Err(error) => tell(&mut err, Status::without_words(&error)),
    };
    ExitCode::from(status)
}
