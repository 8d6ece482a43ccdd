// A shelf over real files and a sink over the standard output: what the calls of the system gave and took.
ghost use Rattle.std.specs.Prelude.{List, [], ℕ, None, ◌<◌, ◌≤◌, ◌≡◌, ◌≢◌, IfOk, OnOk, OnErr, length, take};
ghost use Rattle.core_io.specs.Causes.{next_count};
ghost use Rattle.core_io.specs.Passed.{passed};
ghost use Rattle.core_io.specs.States.{Gave, KeepsBytes, KeepsCount, KeepsCounts, ReadFailed, WriteFailed, Writes};
ghost use Rattle.core_io.specs.System.{state_of};

use crate::log::Log;
use crate::{Failed, Shelf, ShelfFault, Sink};
use std::fs::File;
use std::io::{Read, Seek, SeekFrom};
use std::marker::Model;
use std::rt::Stdout;
use std::{fs, io};

/// The file of the last call, and where that call ended.
#[derive(Drop)]
struct Place {
    name: String,
    file: File,
    at: u64,
}

/// Real files by their names. One count of faults serves every name, and contracts see the shelf as that count and as
/// what its reads gave.
#[derive(Drop)]
pub struct FileShelf {
    rt: HostRuntime,
    place: Option<Place>,
    log: Log,
    faults: u64,
}

impl Model for FileShelf {
    ghost use Rattle.core_io.specs.System.{FilesView};

    ghost Value = { FilesView };

    ghost view = { λ s. record { reads = s.log.pieces; faults = s.faults } };
}

impl FileShelf {
    /// A shelf of the files that the program can open. It tells no bytes but by its reads, and its count starts at 0.
    pub fn make(rt: HostRuntime) -> FileShelf
        ensures no_read { (⟦<FileShelf as Shelf>⟧.state result).reads ≡ [] }
        ensures untold { (name : List ℕ) → (⟦<FileShelf as Shelf>⟧.state result).told name ≡ None }
        ensures no_fault { (name : List ℕ) → (⟦<FileShelf as Shelf>⟧.state result).faults name ≡ 0 }
    {
        FileShelf {
            rt,
            place: None,
            log: Log::new(),
            faults: 0,
        }
    }

    /// Opens the name and skips `at` bytes.
    fn open(&self, name: &str, at: u64) -> io::Result<Place> {
        let name_kept = String::from_str(self.rt.alloc(), name)?;
        let mut file = fs::open(&self.rt, name)?;
        if at > 0 {
            file.seek(SeekFrom::Start(at))?;
        }
        Ok(Place {
            name: name_kept,
            file,
            at,
        })
    }

    /// The place of this call: that of the last one, where this call goes on from its end.
    fn place_for(&mut self, name: &str, at: u64) -> io::Result<Place>
        ensures { self.new ≡ self.old }
    {
        match self.place.take() {
            Some(place) if at != 0 && place.at == at && place.name.as_str() == name => Ok(place),
            _ => self.open(name, at),
        }
    }

    /// Reads at the place of this call, and keeps where it ended.
    fn read_on(&mut self, name: &str, at: u64, into: &mut [u8]) -> io::Result<usize>
        ensures fits { IfOk result (λ n. n ≤ length into.new) }
        ensures gave { IfOk result (λ n. Gave (state_of self.old) (state_of self.new)
            (passed name.now at into.new n)) }
        ensures failed { OnErr result (self.new ≡ self.old) }
        ensures faults { self.new.faults ≡ self.old.faults }
    {
        let mut place = self.place_for(name, at)?;
        let n = place.file.read(into)?;
        self.log.add(name.as_bytes(), at, into, n);
        place.at = at.saturating_add(n as u64);
        self.place = Some(place);
        Ok(n)
    }
}

impl Shelf for FileShelf {
    ghost state = { state_of };

    /// Counts each failure but want of memory, and nothing else.
    fn read(&mut self, name: &str, at: u64, into: &mut [u8]) -> Result<usize, ShelfFault>
        ensures kept { KeepsBytes (state_of self.old) (state_of self.new) }
        ensures counts { KeepsCounts (state_of self.old) (state_of self.new) }
        ensures fits { IfOk result (λ n. n ≤ length into.new) }
        ensures gave { IfOk result (λ n. Gave (state_of self.old) (state_of self.new)
            (passed name.now at into.new n)) }
        ensures failed { OnErr result (self.new.reads ≡ self.old.reads) }
        ensures cause { result ≡ Err ShelfFault.Failed
            → ReadFailed (state_of self.old) (state_of self.new) name.now }

        // Beyond what each shelf promises: the count goes one up, and nothing else is counted.
        ensures counted { result ≡ Err ShelfFault.Failed
            → self.new.faults ≡ next_count self.old.faults }
        ensures uncounted { result ≢ Err ShelfFault.Failed
            → self.new.faults ≡ self.old.faults }
    {
        match self.read_on(name, at, into) {
            Ok(n) => Ok(n),
            Err(e) => {
                if e.kind() == io::ErrorKind::OutOfMemory {
                    Err(ShelfFault::NoMemory)
                } else {
                    self.faults = self.faults.saturating_add(1);
                    Err(ShelfFault::Failed)
                }
            }
        }
    }
}

/// The standard output. Contracts see it as what its writes took and its count of faults.
#[derive(Drop)]
pub struct OutSink {
    out: Stdout,
    log: Log,
    faults: u64,
}

impl Model for OutSink {
    ghost use Rattle.core_io.specs.Passed.{all_bytes};
    ghost use Rattle.core_io.specs.States.{SinkState};

    ghost Value = { SinkState };

    ghost view = { λ s. record { held = all_bytes s.log.pieces; faults = s.faults } };
}

impl OutSink {
    /// A sink over the standard output, to which nothing is written. Its count starts at 0.
    pub fn make(out: Stdout) -> OutSink
        ensures { result ≡ record { held = []; faults = 0 } }
    {
        OutSink {
            out,
            log: Log::new(),
            faults: 0,
        }
    }

    /// Asks the system to take bytes from the head of the piece, and answers how many it took.
    fn write_on(&mut self, piece: &[u8]) -> io::Result<usize>
        ensures fits { IfOk result (λ n. n ≤ length piece.now) }
        ensures took { IfOk result (λ n. Writes self.old self.new (take n piece.now)) }
        ensures failed { OnErr result (self.new ≡ self.old) }
        ensures faults { self.new.faults ≡ self.old.faults }
    {
        let n = self.out.write_some(piece)?;
        self.log.add(b"", 0, piece, n);
        Ok(n)
    }
}

impl Sink for OutSink {
    ghost state = { λ sink. sink };

    /// Counts each failure, which is also a write that takes nothing of a piece that is not empty, and nothing else.
    fn write(&mut self, piece: &[u8]) -> Result<usize, Failed>
        ensures fits { IfOk result (λ n. n ≤ length piece.now) }
        ensures some { IfOk result (λ n. 0 < length piece.now → 0 < n) }
        ensures appends { IfOk result (λ n. Writes self.old self.new (take n piece.now)) }
        ensures unchanged { OnErr result (self.new.held ≡ self.old.held) }
        ensures counts { KeepsCount self.old self.new }
        ensures cause { OnErr result (WriteFailed self.old self.new) }
        ensures counted { OnErr result (self.new.faults ≡ next_count self.old.faults) }
        ensures uncounted { OnOk result (self.new.faults ≡ self.old.faults) }
    {
        match self.write_on(piece) {
            Ok(n) if n > 0 || piece.is_empty() => Ok(n),
            _ => {
                self.faults = self.faults.saturating_add(1);
                Err(Failed)
            }
        }
    }
}
