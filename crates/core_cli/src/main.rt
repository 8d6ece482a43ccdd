//! The program: it hands the words of the command line, the files and the standard output to the top call, and ends
//! with its status.
#![tactic(auto)]

use core_io::{FileShelf, OutSink};
use core_top::core_call;
use std::alloc::AllocError;
use std::process::ExitCode;
use std::{env, io};

/// The status where memory runs out before the top call.
const WANT_OF_MEMORY: u8 = 8;

/// The status where the words cannot be had for another reason. The top call never answers it.
const NO_WORDS: u8 = 13;

/// The words after the program's name.
fn words(rt: &HostRuntime) -> io::Result<Vec<String>> {
    let mut all = Vec::new(rt.alloc());
    for word in env::args(rt)?.skip(1) {
        match all.push(word) {
            Ok(()) => {}
            Err(e) => return Err(io::Error::from(AllocError::from(e))),
        }
    }
    Ok(all)
}

fn main(rt: HostRuntime) -> ExitCode {
    match words(&rt) {
        Ok(words) => {
            let mut shelf = FileShelf::make(rt);
            let mut sink = OutSink::make(rt.stdout());
            ExitCode::from(core_call(rt.alloc(), &words, &mut shelf, &mut sink))
        }
        Err(e) if e.kind() == io::ErrorKind::OutOfMemory => ExitCode::from(WANT_OF_MEMORY),
        Err(_) => ExitCode::from(NO_WORDS),
    }
}
