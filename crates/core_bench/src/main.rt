//! Times what its words name: `core_bench fractions`, or for a file that is a case `core_bench reading CASE`,
//! `core_bench margin CASE` or `core_bench pivots KIND CASE`, or `core_bench demo` for the margin of the demo case of 32
//! futures and `core_bench widest` for the widest number of its run, or `core_bench book CASE CERT` for a case and a
//! certificate of it. It prints nothing without words.
#![tactic(auto)]

mod books;
mod clock;
mod file;
mod margin;
mod pivots;
mod reading;
mod timing;
mod widest;

use anyhow::{Result, bail};
use core_gen::demo_case;
use core_io::{FileShelf, Shelf};
use std::env;
use std::time::CpuClock;

fn main(rt: HostRuntime) -> Result<()> {
    let words: Vec<String> = env::args(&rt)?.collect(rt.alloc())?;
    let mut shelf = FileShelf::make(rt);
    time(&rt, &mut shelf, &words)
}

// Times what the words name, of which the first is the program's own name.
fn time<R: Print + AllocGlobal + CpuClock, S: Shelf>(
    rt: &R,
    shelf: &mut S,
    words: &[String],
) -> Result<()> {
    match words {
        [_] => Ok(()),
        [_, name] if name.as_str() == "fractions" => timing::run(rt),
        [_, name, file] if name.as_str() == "reading" => reading::run(rt, shelf, file.as_str()),
        [_, name] if name.as_str() == "demo" => margin::run(rt, &demo_case(rt.alloc(), 32)?),
        [_, name] if name.as_str() == "widest" => widest::run(rt, &demo_case(rt.alloc(), 32)?),
        [_, name, file] if name.as_str() == "margin" => {
            margin::run(rt, &file::file_bytes(rt.alloc(), shelf, file.as_str())?)
        }
        [_, name, kind, file] if name.as_str() == "pivots" => {
            pivots::run(rt, shelf, kind.as_str(), file.as_str())
        }
        [_, name, case, cert] if name.as_str() == "book" => {
            books::run(rt, shelf, case.as_str(), cert.as_str())
        }
        _ => bail!("the words are not those of a measurement"),
    }
}
