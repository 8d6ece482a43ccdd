//! Shelves of named bytes and sinks of bytes, each with a count of its faults: in memory, over files and over
//! the standard output.
#![tactic(auto)]

ghost use Rattle.std.specs.Prelude.{◌≡◌, ◌^◌, ◌-◌, ◌<◌, ◌≤◌, length, take, IfOk, OnOk, OnErr, IfSome};
ghost use Rattle.core_io.specs.Causes.{GivesIfTold};
ghost use Rattle.core_io.specs.Passed.{passed};
ghost use Rattle.core_io.specs.States.{ShelfState, SinkState, KeepsBytes, KeepsCounts, KeepsCount, ReadFailed, WriteFailed};
ghost use Rattle.core_io.specs.States.{Gave, ReadWhole, ReadMore, Writes, WritesPart};

use std::alloc::Global;

mod calls;
mod log;
mod memory_shelf;
mod memory_sink;
mod system;

pub use memory_shelf::MemShelf;
pub use memory_sink::MemSink;
pub use system::{FileShelf, OutSink};

/// A call that failed, and whose fault was counted.
#[derive(Clone, Copy, Debug, PartialEq, Eq)]
pub struct Failed;

/// Why a shelf gave nothing.
#[derive(Clone, Copy, Debug, PartialEq, Eq)]
pub enum ShelfFault {
    /// A counted fault of the name that was asked.
    Failed,
    /// Memory ran out.
    NoMemory,
}

/// Why the bytes under a name were not read whole.
#[derive(Clone, Copy, Debug, PartialEq, Eq)]
pub enum ReadAll {
    /// A read failed, which the shelf counted under that name.
    Fault,
    /// There are more bytes than were asked for.
    Long,
    /// Memory ran out.
    NoMemory,
}

/// Bytes by name, with a count of the faults of each name.
pub trait Shelf {
    /// The bytes under each name, where the shelf tells them, what its reads gave, in order, and how many reads of
    /// each name have failed.
    ghost state: { Self → ShelfState };

    /// Reads bytes of a name from place `at` on, counted from 0, and answers how many it put at the head of `into`.
    /// It fails only with a counted fault of this name. Where memory runs out, `into` may hold anything.
    fn read(&mut self, name: &str, at: u64, into: &mut [u8]) -> Result<usize, ShelfFault>
        ensures kept { KeepsBytes (state self.old) (state self.new) }
        ensures counts { KeepsCounts (state self.old) (state self.new) }
        ensures fits { IfOk result (λ n. n ≤ length into.new) }
        ensures gave { IfOk result (λ n. Gave (state self.old) (state self.new)
            (passed name.now at into.new n)) }
        ensures failed { OnErr result ((state self.new).reads ≡ (state self.old).reads) }
        ensures gives { IfOk result (λ n. GivesIfTold ((state self.old).told name.now) at n
            into.new) }
        ensures cause { result ≡ Err ShelfFault.Failed
            → ReadFailed (state self.old) (state self.new) name.now };
}

/// A place where bytes are written one after the other, with a count of its faults.
pub trait Sink {
    /// The bytes that its writes took, in order, and how many writes have failed.
    ghost state: { Self → SinkState };

    /// Writes bytes from the head of the piece and answers how many, at least one where the piece has any.
    /// It fails only with a counted fault, and then nothing is written.
    fn write(&mut self, piece: &[u8]) -> Result<usize, Failed>
        ensures fits { IfOk result (λ n. n ≤ length piece.now) }
        ensures some { IfOk result (λ n. 0 < length piece.now → 0 < n) }
        ensures appends { IfOk result (λ n. Writes (state self.old) (state self.new)
            (take n piece.now)) }
        ensures unchanged { OnErr result ((state self.new).held ≡ (state self.old).held) }
        ensures counts { KeepsCount (state self.old) (state self.new) }
        ensures cause { OnErr result (WriteFailed (state self.old) (state self.new)) };
}

/// The bytes under the name, at most `most` of them: what its own reads gave, from the head of the file on, until one
/// gave none. Long says that they gave more: it is answered once `most` + 1 bytes were read. Fault comes only from a
/// counted fault of this name.
pub fn read_all<S: Shelf>(
    alloc: Global,
    shelf: &mut S,
    name: &str,
    most: u64,
) -> Result<Vec<u8>, ReadAll>
    requires { most < 2 ^ 64 - 1 }

    // What was read, and no other bytes.
    ensures bytes { IfOk result (λ v. ReadWhole (S.state shelf.old) (S.state shelf.new) name.now
        v.items) }
    ensures at_most { IfOk result (λ v. length v.items ≤ most) }
    ensures long { result ≡ Err ReadAll.Long
        → ReadMore (S.state shelf.old) (S.state shelf.new) name.now most }

    // Where the shelf tells the bytes under the name, it is those.
    ensures bytes_told { IfOk result (λ v. IfSome ((S.state shelf.old).told name.now)
        (λ bytes. v.items ≡ bytes)) }
    ensures long_told { result ≡ Err ReadAll.Long → IfSome ((S.state shelf.old).told name.now)
        (λ bytes. most < length bytes) }

    // Only a fault of this name is answered as one, and a read changes no bytes.
    ensures fault { result ≡ Err ReadAll.Fault
        → ReadFailed (S.state shelf.old) (S.state shelf.new) name.now }
    ensures kept { KeepsBytes (S.state shelf.old) (S.state shelf.new) }
    ensures counts { KeepsCounts (S.state shelf.old) (S.state shelf.new) }
{
    let mut all = Vec::new(alloc);
    let mut buffer = [0u8; 4096];
    while all.len() as u64 <= most {
        let at = all.len() as u64;
        let want = (most + 1 - at).min(4096) as usize;
        match shelf.read(name, at, &mut buffer[..want]) {
            Err(ShelfFault::Failed) => return Err(ReadAll::Fault),
            Err(ShelfFault::NoMemory) => return Err(ReadAll::NoMemory),
            Ok(0) => return Ok(all),
            Ok(n) => match all.extend_from_slice(&buffer[..n]) {
                Ok(()) => {}
                Err(_) => return Err(ReadAll::NoMemory),
            },
        }
    }
    Err(ReadAll::Long)
}

/// Writes the whole text. Where a write fails, a part of the text from its head may have been written, and never
/// all of it. Takes no memory.
pub fn write_all<K: Sink>(sink: &mut K, text: &[u8]) -> Result<(), Failed>
    ensures appends { OnOk result (Writes (K.state sink.old) (K.state sink.new) text.now) }
    ensures part { OnErr result (WritesPart (K.state sink.old) (K.state sink.new) text.now) }
    ensures cause { OnErr result (WriteFailed (K.state sink.old) (K.state sink.new)) }
    ensures counts { KeepsCount (K.state sink.old) (K.state sink.new) }
{
    let mut done = 0;
    while done < text.len() {
        done += sink.write(&text[done..])?;
    }
    Ok(())
}
