//! Pelsroey: a checker of proof certificates for focused sequent calculi.
#![tactic(auto)]

mod answer;
mod built_in;
mod command;
mod commands;
mod laws;
mod reading;
mod run;
mod source;
mod status;
mod text;
mod words;

use fpc_base::real::{StdFiles, StdSink};
use run::run;
use std::alloc::Global;
use std::process::ExitCode;
use std::rt::Env;
use std::{env, io};
use words::Words;

/// The program's arguments without its name, or the status where they can't be had: 5 where the
/// system gives none as text, 8 where there is no memory for them.
fn words_of<R: Env + AllocGlobal>(rt: &R, alloc: Global) -> Result<Words, u8> {
    let arguments = match env::args(rt) {
        Ok(arguments) => arguments,
        Err(error) => match error.kind() {
            io::ErrorKind::OutOfMemory => return Err(8),
            _ => return Err(5),
        },
    };
    let mut words = Words::new(alloc);
    for argument in arguments.skip(1) {
        if words.push(argument).is_err() {
            return Err(8);
        }
    }
    Ok(words)
}

fn main(rt: HostRuntime) -> ExitCode {
    let alloc = rt.alloc();
    match words_of(&rt, alloc) {
        Ok(words) => {
            let mut files = StdFiles::new(&rt);
            let mut out = StdSink::new(io::writer(&rt));
            ExitCode::from(run(alloc, &words, &mut files, &mut out).code)
        }
        Err(code) => ExitCode::from(code),
    }
}
