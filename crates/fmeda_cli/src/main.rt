// The program: words, files and standard output are those of the system.
#![tactic(auto)]

mod help;

use crate::help::HELP;
use claim_counter::Waiting;
use fm_shelf::real::{FileShelf, OutSink};
use fmeda_top::program::program;
use std::process::ExitCode;
use std::{env, io};
use worker_gate::NoGate;

/// The exit status where the system doesn't give the words.
const NO_WORDS: u8 = 22;

/// The exit status where the words are no command.
const NO_COMMAND: u8 = 2;

// The words of the command line, the program's name first.
fn words(rt: &HostRuntime) -> io::Result<Vec<String>> {
    let mut words = Vec::new(rt.alloc());
    for word in env::args(rt)? {
        words.push(word)?;
    }
    Ok(words)
}

fn main(rt: HostRuntime) -> ExitCode {
    let Ok(words) = words(&rt) else {
        return ExitCode::from(NO_WORDS);
    };
    let (shelf, out) = (FileShelf::new(&rt), OutSink::new(&rt));
    let turn = Waiting::new(&rt);
    let exited = program(
        &rt,
        &turn,
        rt.alloc(),
        words.as_slice(),
        shelf,
        out,
        &NoGate,
    );
    if exited.code == NO_COMMAND {
        // Nobody is told where even this can't be written.
        let _told = rt.eprintln(HELP);
    }
    ExitCode::from(exited.code)
}
