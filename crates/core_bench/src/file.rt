// The bytes of a file.
ghost use Rattle.std.specs.Prelude.{◌≤◌, length, IfOk};

use anyhow::{Result, bail};
use core_io::{Shelf, read_all};
use std::alloc::Global;

// The most bytes that a case has, and the most of a file that is read here.
const MOST: u64 = 4_194_304;

/// The bytes of a file that has as many as a case may have at most.
pub fn file_bytes<S: Shelf>(alloc: Global, shelf: &mut S, name: &str) -> Result<Vec<u8>>
    ensures { IfOk result (λ bytes. length bytes.items ≤ 4194304) }
{
    match read_all(alloc, shelf, name, MOST) {
        Ok(bytes) => Ok(bytes),
        Err(_) => bail!("the file cannot be read"),
    }
}
