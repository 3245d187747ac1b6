// The command line of the case solver: one command, or a batch of them from standard input.
#![tactic(auto)]

use std::env;
use std::io::{BufRead, BufReader};
use std::process::ExitCode;
use wording::{Complaint, Reply, Said};

mod command;
mod domain;
mod listing;
mod programs;
mod unlisted;

use command::{Output, answer};

fn main(rt: HostRuntime) -> anyhow::Result<ExitCode> {
    let mut arguments = Vec::new(rt.alloc());
    for argument in env::args(&rt)?.skip(1) {
        arguments.push(argument)?;
    }
    let mut words = Vec::new(rt.alloc());
    for argument in &arguments {
        words.push(argument.as_str())?;
    }
    run(&rt, words.as_slice())
}

// Runs one command; `batch`, which only the command line has, answers the lines of standard input.
fn run(rt: &HostRuntime, words: &[&str]) -> anyhow::Result<ExitCode> {
    match words {
        [] => {
            let outcome = Ok(Said::Help);
            single(rt, Output::Reply(Reply { outcome }))
        }
        ["batch"] => batch(rt),
        ["batch", surplus, ..] => {
            let outcome = Err(Complaint::TooManyWords(surplus).into());
            single(rt, Output::Reply(Reply { outcome }))
        }
        _ => single(rt, answer(rt.alloc(), words)?),
    }
}

// Prints an answer; a refusal or an error goes to standard error, and ends the program with status 1.
fn single(rt: &HostRuntime, output: Output<'_>) -> anyhow::Result<ExitCode> {
    match output {
        Output::Reply(reply) if reply.is_failure() => {
            rt.eprintln(reply)?;
            Ok(ExitCode::FAILURE)
        }
        Output::Reply(reply) => {
            rt.println(reply)?;
            Ok(ExitCode::SUCCESS)
        }
        Output::Listing(text) => {
            rt.println(text)?;
            Ok(ExitCode::SUCCESS)
        }
    }
}

// Answers each line of standard input, until it ends.
fn batch(rt: &HostRuntime) -> anyhow::Result<ExitCode> {
    for line in BufReader::new(rt.alloc(), rt.stdin())?.lines(rt.alloc()) {
        let line = line?;
        let mut words = Vec::new(rt.alloc());
        for word in line.as_str().split_ascii_whitespace() {
            words.push(word)?;
        }
        match answer(rt.alloc(), words.as_slice())? {
            Output::Reply(reply) => rt.println(reply)?,
            Output::Listing(text) => rt.println(text)?,
        }
    }
    Ok(ExitCode::SUCCESS)
}
