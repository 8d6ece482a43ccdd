// The top call, over a shelf and a sink in memory.
use crate::report::{SMALL_REPORT, SWING_CLOSING};
use core_case_tests::books::{LIMIT_OF_NINE, LIMIT_REFUSAL, SMALL, SMALL_CLOSING, SWING};
use core_io::{MemShelf, MemSink, Shelf};
use core_top::core_call;
use std::alloc::{AllocError, Global};
use std::test::Fail;

const OTHER_WORDS: [&[&str]; 30] = [
    &[],
    &["margin"],
    &["margin", ""],
    &["margin", "C", ""],
    &["margin", "C", "-1"],
    &["margin", "C", "01"],
    &["margin", "C", "9223372036854775808"],
    &["margin", "C", "1", "3"],
    &["margin", "C", "1", "CFBLPP"],
    &["margin", "C", "1", "0", "0"],
    &["margin", "", "1", "0"],
    &["Margin", "C"],
    &["check", "C"],
    &["check", "", "C"],
    &["check", "C", ""],
    &["check", "C", "C", "C"],
    &["report", "C"],
    &["report", "", "C"],
    &["report", "C", ""],
    &["report", "C", "C", "C"],
    &["demo"],
    &["demo", ""],
    &["demo", "0"],
    &["demo", "33"],
    &["demo", "-3"],
    &["demo", "+3"],
    &["demo", "03"],
    &["demo", "3", "4"],
    &["Demo", "3"],
    &["C", "margin"],
];

fn words_of(alloc: Global, words: &[&str]) -> Result<Vec<String>, AllocError> {
    let mut all = Vec::new(alloc);
    for word in words {
        all.push(String::from_str(alloc, word)?)?;
    }
    Ok(all)
}

/// The status, and all that is written.
pub(crate) fn answer<S: Shelf>(
    alloc: Global,
    words: &[&str],
    shelf: &mut S,
    mut sink: MemSink,
) -> Result<(u8, String), Fail> {
    let words = words_of(alloc, words)?;
    let status = core_call(alloc, &words, shelf, &mut sink);
    Ok((status, String::from_utf8(sink.written().to_vec(alloc)?)?))
}

#[test]
fn tells_the_usage_for_other_words(rt: HostRuntime) -> Result<(), Fail> {
    let alloc = rt.alloc();
    let mut shelf = MemShelf::make(alloc);
    shelf.put("C", SMALL.as_bytes())?;
    shelf.put("", SMALL.as_bytes())?;
    for words in OTHER_WORDS {
        let sink = MemSink::make(alloc, 1000, 1000)?;
        let (status, said) = answer(alloc, words, &mut shelf, sink)?;
        assert_eq!(rt; (status, said.as_str()), (2, "usage\n"), "at {words:?}");
    }
    Ok(())
}

/// Words after the case's name, and the status and the answer of each.
const LIMITED: [(&[&str], u8, &str); 7] = [
    (&["margin", "C", "0"], 5, "spent,0\n"),
    (&["margin", "C", "0", "CFBLPS"], 5, "spent,0\n"),
    (&["margin", "C", "100000"], 0, SMALL_CLOSING),
    (
        &["margin", "C", "9223372036854775807", "0"],
        0,
        SMALL_CLOSING,
    ),
    (&["margin", "C", "100", "1"], 0, SMALL_CLOSING),
    (&["margin", "C", "100", "2"], 0, SMALL_CLOSING),
    (&["margin", "C", "100", "SPLBFC"], 0, SMALL_CLOSING),
];

#[test]
fn takes_a_budget_and_a_rule(rt: HostRuntime) -> Result<(), Fail> {
    let alloc = rt.alloc();
    let mut shelf = MemShelf::make(alloc);
    shelf.put("C", SMALL.as_bytes())?;
    for (words, status, want) in LIMITED {
        let sink = MemSink::make(alloc, 1000, 1000)?;
        let said = answer(alloc, words, &mut shelf, sink)?;
        assert_eq!(rt; (said.0, said.1.as_str()), (status, want), "at {words:?}");
    }
    Ok(())
}

const MARGIN: &[&str] = &["margin", "C"];

const OF_NONE: &[&str] = &["margin", "D"];

const CHECK: &[&str] = &["check", "C", "K"];

const MOST: usize = SMALL_CLOSING.len();

/// The words, the read that fails, the sink's room, its bytes a write and the write that fails, and the status and the
/// answer; 0 is none.
const FAILING: [(&[&str], u64, usize, usize, u64, u8, &str); 23] = [
    (MARGIN, 0, MOST, 10, 0, 0, SMALL_CLOSING),
    (MARGIN, 0, MOST, 1, 0, 0, SMALL_CLOSING),
    (OF_NONE, 0, 1000, 10, 0, 6, "fault,read,case\n"),
    (MARGIN, 1, 1000, 10, 0, 6, "fault,read,case\n"),
    (MARGIN, 2, 1000, 10, 0, 6, "fault,read,case\n"),
    (MARGIN, 3, 1000, 10, 0, 0, SMALL_CLOSING),
    (MARGIN, 0, 1000, 10, 2, 7, "cert,1\nclo"),
    (MARGIN, 0, 8, 10, 0, 7, "cert,1\nc"),
    (MARGIN, 0, 0, 10, 0, 7, ""),
    (OF_NONE, 0, 1000, 10, 2, 7, "fault,read"),
    (CHECK, 0, 16, 1000, 0, 0, "accepted,closes\n"),
    (&["check", "C", "C"], 0, 1000, 1000, 0, 9, "bad,cert,1,1\n"),
    (
        &["check", "D", "K"],
        0,
        1000,
        1000,
        0,
        6,
        "fault,read,case\n",
    ),
    (
        &["check", "C", "D"],
        0,
        1000,
        1000,
        0,
        6,
        "fault,read,cert\n",
    ),
    (
        &["check", "D", "D"],
        0,
        1000,
        1000,
        0,
        6,
        "fault,read,case\n",
    ),
    (&["check", "K", "D"], 0, 1000, 1000, 0, 3, "bad,case,1,1\n"),
    (CHECK, 1, 1000, 1000, 0, 6, "fault,read,case\n"),
    (CHECK, 2, 1000, 1000, 0, 6, "fault,read,case\n"),
    (CHECK, 3, 1000, 1000, 0, 6, "fault,read,cert\n"),
    (CHECK, 4, 1000, 1000, 0, 6, "fault,read,cert\n"),
    (CHECK, 5, 1000, 1000, 0, 0, "accepted,closes\n"),
    (CHECK, 0, 15, 1000, 0, 7, "accepted,closes"),
    (&["check", "C", "D"], 0, 5, 1000, 0, 7, "fault"),
];

#[test]
fn answers_reads_and_writes_that_fail(rt: HostRuntime) -> Result<(), Fail> {
    let alloc = rt.alloc();
    for (words, read, room, piece, write, status, want) in FAILING {
        if piece == 0 {
            return Err(Fail::from("a sink that takes nothing"));
        }
        let mut shelf = MemShelf::make(alloc);
        shelf.put("C", SMALL.as_bytes())?;
        shelf.put("K", SMALL_CLOSING.as_bytes())?;
        shelf.fail_at(read)?;
        let mut sink = MemSink::make(alloc, room, piece)?;
        sink.fail_at(write)?;
        let said = answer(alloc, words, &mut shelf, sink)?;
        assert_eq!(rt;
            (said.0, said.1.as_str()),
            (status, want),
            "at {words:?}, {read}, {room}, {piece}, {write}"
        );
    }
    Ok(())
}

/// The report of the weights which refuse where the limit is one contract too few.
const REFUSAL_REPORT: &str =
    "report,cannot\nshort,1,1\nfull,IND,position,1,1\nlimit,2024-01-02,IND,1,1\nend\n";

#[test]
fn reports_a_certificate_that_passes(rt: HostRuntime) -> Result<(), Fail> {
    let alloc = rt.alloc();
    for (case, cert, status, want) in [
        (SMALL, SMALL_CLOSING, 0, SMALL_REPORT),
        (LIMIT_OF_NINE, LIMIT_REFUSAL, 0, REFUSAL_REPORT),
        (SWING, SWING_CLOSING, 4, "wide,report,SWING,2\n"),
        (SMALL, LIMIT_REFUSAL, 10, "refused,12,1\n"),
        (SMALL, SMALL, 9, "bad,cert,1,1\n"),
    ] {
        let mut shelf = MemShelf::make(alloc);
        shelf.put("C", case.as_bytes())?;
        shelf.put("K", cert.as_bytes())?;
        let sink = MemSink::make(alloc, 1000, 1000)?;
        let said = answer(alloc, &["report", "C", "K"], &mut shelf, sink)?;
        assert_eq!(rt; (said.0, said.1.as_str()), (status, want), "at {cert}");
    }
    Ok(())
}

#[test]
fn closes_a_demo_case(rt: HostRuntime) -> Result<(), Fail> {
    let alloc = rt.alloc();
    let mut shelf = MemShelf::make(alloc);
    // The words, the sink's room, the status and what is written.
    for (count, room, status, want) in [
        ("1", 13, 0, "demo,1,240,1\n"),
        ("3", 1000, 0, "demo,3,1440,1\n"),
        ("3", 6, 7, "demo,3"),
    ] {
        let sink = MemSink::make(alloc, room, 1000)?;
        let said = answer(alloc, &["demo", count], &mut shelf, sink)?;
        assert_eq!(rt;
            (said.0, said.1.as_str()),
            (status, want),
            "at {count}, {room}"
        );
    }
    Ok(())
}
