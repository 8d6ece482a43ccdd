// Reading a case, beside a plain pass over the same bytes.
ghost use Rattle.std.specs.Prelude.{◌≤◌, length};

use crate::clock::spent;
use crate::file::file_bytes;
use anyhow::{Result, bail};
use core_case::read_case;
use core_io::Shelf;
use csv::{ByteRecord, ReaderBuilder};
use std::alloc::Global;
use std::time::CpuClock;

/// Prints how many nanoseconds a plain pass of the crate `csv` over the bytes of a case takes, and how many the reading
/// of the case.
pub fn run<R: Print + AllocGlobal + CpuClock, S: Shelf>(
    rt: &R,
    shelf: &mut S,
    name: &str,
) -> Result<()> {
    let bytes = file_bytes(rt.alloc(), shelf, name)?;
    let start = rt.thread_cpu_time()?;
    let fields = count_fields(rt.alloc(), &bytes)?;
    let middle = rt.thread_cpu_time()?;
    let lines = count_lines(rt.alloc(), &bytes)?;
    let end = rt.thread_cpu_time()?;
    let plain = spent(start, middle, fields as u128);
    let case = spent(middle, end, lines as u128);
    rt.println("csv,case")?;
    rt.println(format_args!("{plain},{case}"))?;
    Ok(())
}

// The fields of all records, which a plain pass reads one after the other into the same memory.
fn count_fields(alloc: Global, bytes: &[u8]) -> Result<usize> {
    let mut reader = ReaderBuilder::new()
        .has_headers(false)
        .flexible(true)
        .from_reader(alloc, bytes);
    let mut row = ByteRecord::new(alloc);
    let mut count = 0usize;
    for _ in 0..u64::MAX {
        match reader.read_byte_record(&mut row) {
            Ok(true) => count = count.saturating_add(row.len()),
            Ok(false) => break,
            Err(_) => bail!("the plain pass failed"),
        }
    }
    Ok(count)
}

// The lines of the case, which is read and let go.
fn count_lines(alloc: Global, bytes: &[u8]) -> Result<usize>
    requires { length bytes.now ≤ 4194304 }
{
    match read_case(alloc, bytes) {
        Ok(case) => Ok(case.lines()),
        Err(_) => bail!("no case was read"),
    }
}
