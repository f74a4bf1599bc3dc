//! `build` reads a document on standard input and writes a line for each of its requests; `generate N` writes a line that
//! sums up N requests of its own; `read D` reads a text in the dialect D and writes a line with the text of its tree; `audit D` reads a schema
//! and texts and writes a line for each text, with the tables and columns that it uses; `guard` reads a document with a tenant and writes a
//! line for each of its requests, restricted to the tenant's rows; `tenant` reads one with policies and writes a line for each of its
//! requests, guarded by them; `session` reads documents, one on each line, and answers each before it reads the next.
#![tactic(auto)]

use sql_tool_run::{Status, run};
use sql_tool_stream::{StdSink, StdSource};
use sql_tool_talk::{Streams, ending, is_session, talk};
use std::env;
use std::io::ErrorKind;
use std::process::ExitCode;

fn main(rt: HostRuntime) -> ExitCode {
    let status = run_over_standard_streams(&rt);
    if status != Status::Done {
        let _ = eprintln!(rt; "{}", status.name());
    }
    ExitCode::from(status.code())
}

fn run_over_standard_streams(rt: &HostRuntime) -> Status {
    let arguments = match env::args(rt) {
        Ok(arguments) => arguments,
        Err(error) if error.kind() == ErrorKind::OutOfMemory => return Status::NoMemory,
        // A word that is no text is no command.
        Err(_) => return Status::Usage,
    };
    let Ok(words) = arguments.skip(1).collect(rt.alloc()) else {
        return Status::NoMemory;
    };
    let words: Vec<String> = words;
    if is_session(&words) {
        let mut streams = Streams::new(StdSource::new(rt), StdSink::new(rt));
        return ending(talk(rt.alloc(), &mut streams));
    }
    run(
        rt.alloc(),
        &words,
        &mut StdSource::new(rt),
        &mut StdSink::new(rt),
    )
}

#[cfg(test)]
mod every_call;
#[cfg(test)]
mod hostile;
#[cfg(test)]
mod tests;
