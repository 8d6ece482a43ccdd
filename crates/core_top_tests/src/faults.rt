// Writes that fail one after the other, and a shelf and a sink that give and take a byte a call.
use crate::top::answer;
use core_case_tests::books::{BOOK, LIMIT_OF_NINE, LIMIT_REFUSAL, SMALL, SMALL_CLOSING};
use core_io::{MemShelf, MemSink, Shelf, ShelfFault};
use std::alloc::{AllocError, Global};
use std::test::Fail;

/// A shelf that gives at most a byte a read.
#[derive(Drop)]
struct OneByte {
    shelf: MemShelf,
}

impl Shelf for OneByte {
    ghost use Rattle.core_io.specs.Shelves.{state_of};

    ghost state = { λ a. state_of a.shelf };

    fn read(&mut self, name: &str, at: u64, into: &mut [u8]) -> Result<usize, ShelfFault> {
        let room = into.len().min(1);
        self.shelf.read(name, at, &mut into[..room])
    }
}

/// A shelf with two cases, a certificate of each, and a book of five instruments.
fn books(alloc: Global) -> Result<MemShelf, AllocError> {
    let mut shelf = MemShelf::make(alloc);
    shelf.put("C", SMALL.as_bytes())?;
    shelf.put("K", SMALL_CLOSING.as_bytes())?;
    shelf.put("L", LIMIT_OF_NINE.as_bytes())?;
    shelf.put("R", LIMIT_REFUSAL.as_bytes())?;
    shelf.put("B", BOOK.as_bytes())?;
    Ok(shelf)
}

#[test]
fn each_write_fails_in_turn(rt: HostRuntime) -> Result<(), Fail> {
    let alloc = rt.alloc();
    // The certificate has 114 bytes, and the sink takes one a write.
    for call in 1..116u64 {
        let mut shelf = books(alloc)?;
        let mut sink = MemSink::make(alloc, 1000, 1)?;
        sink.fail_at(call)?;
        let (status, said) = answer(alloc, &["margin", "C"], &mut shelf, sink)?;
        assert_eq!(rt;
            (status, said.len() as u64),
            if call == 115 { (0, 114) } else { (7, call - 1) }
        );
        assert!(rt; SMALL_CLOSING.starts_with(said.as_str()), "at write {call}");
    }
    Ok(())
}

const WORDS: [&[&str]; 9] = [
    &["margin", "C"],
    &["margin", "L"],
    &["margin", "B"],
    &["margin", "K"],
    &["margin", "D"],
    &["check", "C", "K"],
    &["check", "L", "K"],
    &["report", "C", "K"],
    &["report", "L", "R"],
];

#[test]
fn a_byte_a_call_changes_no_answer(rt: HostRuntime) -> Result<(), Fail> {
    let alloc = rt.alloc();
    for words in WORDS {
        let mut whole = books(alloc)?;
        let mut slow = OneByte {
            shelf: books(alloc)?,
        };
        let want = answer(alloc, words, &mut whole, MemSink::make(alloc, 5000, 5000)?)?;
        let said = answer(alloc, words, &mut slow, MemSink::make(alloc, 5000, 1)?)?;
        assert_eq!(rt;
            (said.0, said.1.as_str()),
            (want.0, want.1.as_str()),
            "at {words:?}"
        );
    }
    Ok(())
}
