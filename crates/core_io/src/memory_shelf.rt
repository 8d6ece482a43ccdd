// A shelf in memory.
ghost use Rattle.std.specs.Prelude.{◌≡◌, ◌≢◌, ◌≤◌, ◌-◌, ℕ, List, [], Some, None, min, length, take, drop, ◌&&◌, if◌then◌else◌, is_err, IfOk, IfSome, OnOk, OnErr};
ghost use Rattle.core_io.specs.Causes.{GivesIfTold, next_count};
ghost use Rattle.core_io.specs.Passed.{passed};
ghost use Rattle.core_io.specs.States.{Gave, KeepsBytes, KeepsCounts, ReadFailed};
ghost use Rattle.core_io.specs.Calls.{no_calls, after_call, with_failing};

use crate::calls::Calls;
use crate::log::Log;
use crate::{Shelf, ShelfFault};
use std::alloc::{AllocError, Global};
use std::collections::BTreeMap;

/// The bytes under a name, and how often reading them has failed.
#[derive(Drop)]
pub struct Entry {
    bytes: Vec<u8>,
    faults: u64,
}

/// Bytes in memory by the names under which they were put. Names that are not there share one count of faults.
#[derive(Drop)]
pub struct MemShelf {
    alloc: Global,
    entries: BTreeMap<String, Entry>,
    missing: u64,
    calls: Calls,
    log: Log,
}

impl MemShelf {
    ghost use Rattle.core_io.specs.Shelves.{told_by, reads_of, faults_of, calls_of, shares_count};

    /// A shelf that holds no name. Takes no memory.
    pub fn make(alloc: Global) -> MemShelf
        ensures no_name { (name : List ℕ) → told_by result name ≡ None }
        ensures no_fault { (name : List ℕ) → faults_of result name ≡ 0 }
        ensures no_read { reads_of result ≡ [] }
        ensures no_call { calls_of result ≡ no_calls }
    {
        MemShelf {
            alloc,
            entries: BTreeMap::new(alloc),
            missing: 0,
            calls: Calls::new(alloc),
            log: Log::new(),
        }
    }

    /// The name holds these bytes from here on, and nothing else changes: every name keeps its count, also one that
    /// is added. Where memory runs out nothing changes.
    pub fn put(&mut self, name: &str, bytes: &[u8]) -> Result<(), AllocError>
        ensures told { OnOk result (told_by self.new name.now ≡ Some bytes.now) }
        ensures others { (other : List ℕ) → other ≢ name.now
            → told_by self.new other ≡ told_by self.old other }
        ensures counts { (other : List ℕ) → faults_of self.new other ≡ faults_of self.old other }
        ensures reads { reads_of self.new ≡ reads_of self.old }
        ensures calls { calls_of self.new ≡ calls_of self.old }
        ensures err { OnErr result (told_by self.new name.now ≡ told_by self.old name.now) }
    {
        let faults = self.count(name);
        let bytes = bytes.to_vec(self.alloc)?;
        let name = String::from_str(self.alloc, name)?;
        self.entries.insert(name, Entry { bytes, faults })?;
        Ok(())
    }

    /// The read of that number fails, counted from 1, beside those given before. Where memory runs out nothing
    /// changes.
    pub fn fail_at(&mut self, call: u64) -> Result<(), AllocError>
        ensures ok { OnOk result (calls_of self.new ≡ with_failing (calls_of self.old) call) }
        ensures err { OnErr result (calls_of self.new ≡ calls_of self.old) }
        ensures kept { (name : List ℕ) → told_by self.new name ≡ told_by self.old name }
        ensures reads { reads_of self.new ≡ reads_of self.old }
        ensures counts { (name : List ℕ) → faults_of self.new name ≡ faults_of self.old name }
    {
        self.calls.fail_at(call)
    }

    /// The count of faults of the name.
    fn count(&self, name: &str) -> u64
        ensures { result ≡ faults_of self.now name.now }
    {
        match self.entries.get(name) {
            Some(entry) => entry.faults,
            None => self.missing,
        }
    }

    /// Counts a fault of the name.
    fn count_fault(&mut self, name: &str)
        ensures kept { (other : List ℕ) → told_by self.new other ≡ told_by self.old other }
        ensures counted { (other : List ℕ) → faults_of self.new other
            ≡ (if shares_count self.old name.now other then next_count (faults_of self.old other)
            else faults_of self.old other) }
        ensures counts { (other : List ℕ) → faults_of self.old other ≤ faults_of self.new other }
        ensures reads { reads_of self.new ≡ reads_of self.old }
        ensures calls { calls_of self.new ≡ calls_of self.old }
    {
        let more = self.count(name).saturating_add(1);
        match self.entries.get_mut(name) {
            None => self.missing = more,
            Some(entry) => entry.faults = more,
        }
    }
}

/// Copies the bytes from `at` on, as many as there is room for, and answers how many.
fn copy_from(bytes: &[u8], at: u64, into: &mut [u8]) -> usize
    ensures size { result ≡ min (length bytes.now - at) (length into.new) }
    ensures copied { take result into.new ≡ take result (drop at bytes.now) }
{
    if at >= bytes.len() as u64 {
        return 0;
    }
    let rest = &bytes[at as usize..];
    let n = rest.len().min(into.len());
    into[..n].copy_from_slice(&rest[..n]);
    n
}

impl Shelf for MemShelf {
    ghost use Rattle.core_io.specs.Shelves.{state_of, told_by, reads_of, faults_of, calls_of, read_fails, shares_count};

    ghost state = { state_of };

    /// Fails exactly where the number of this call is listed or the name is not there, and never for want of memory.
    /// It gives as many bytes as there are and as there is room for.
    fn read(&mut self, name: &str, at: u64, into: &mut [u8]) -> Result<usize, ShelfFault>
        ensures kept { KeepsBytes (state_of self.old) (state_of self.new) }
        ensures counts { KeepsCounts (state_of self.old) (state_of self.new) }
        ensures fits { IfOk result (λ n. n ≤ length into.new) }
        ensures gave { IfOk result (λ n. Gave (state_of self.old) (state_of self.new)
            (passed name.now at into.new n)) }
        ensures failed { OnErr result (reads_of self.new ≡ reads_of self.old) }
        ensures gives { IfOk result (λ n. GivesIfTold (told_by self.old name.now) at n into.new) }
        ensures cause { result ≡ Err ShelfFault.Failed
            → ReadFailed (state_of self.old) (state_of self.new) name.now }

        // Beyond what each shelf promises: when it fails, what is counted, and how much is given.
        ensures fails { is_err result ≡ read_fails self.old name.now }
        ensures never_memory { result ≢ Err ShelfFault.NoMemory }
        ensures counted { (other : List ℕ) → faults_of self.new other
            ≡ (if is_err result && shares_count self.old name.now other
            then next_count (faults_of self.old other) else faults_of self.old other) }
        ensures fills { IfOk result (λ n. IfSome (told_by self.old name.now)
            (λ bytes. n ≡ min (length bytes - at) (length into.new))) }
        ensures called { calls_of self.new ≡ after_call (calls_of self.old) }
    {
        if self.calls.fails_now() || self.entries.get(name).is_none() {
            self.count_fault(name);
            return Err(ShelfFault::Failed);
        }
        match self.entries.get(name) {
            Some(entry) => {
                let n = copy_from(&entry.bytes, at, into);
                self.log.add(name.as_bytes(), at, into, n);
                Ok(n)
            }
            None => unreachable!(),
        }
    }
}
