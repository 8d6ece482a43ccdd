// Records and dates. The rows of tests/rows show the grammars of numbers and names, and printed rows.
use core_rows::{Fields, day_text, records};
use jiff::civil::Date;
use std::alloc::{AllocError, Global};
use std::test::Fail;

// Each field with a bar after it, and each record with a slash.
fn shown(alloc: Global, rows: &[Fields]) -> Result<Vec<u8>, AllocError> {
    let mut text = Vec::new(alloc);
    for row in rows {
        for i in 0..row.len() {
            if let Some(field) = row.field(i) {
                text.extend_from_slice(field)?;
            }
            text.push(b'|')?;
        }
        text.push(b'/')?;
    }
    Ok(text)
}

#[test]
fn reads_records(rt: HostRuntime) -> Result<(), Fail> {
    let cases: [(&[u8], &[u8]); 5] = [
        (b"a,\"b,c\"\nd\n", b"a|b,c|/d|/"),
        (b"\xff,b\nd\n", b"\xff|b|/d|/"),
        (b"\xef\xbb\xbfa,b\n", b"a|b|/"),
        (b"\xef\xbb\xbf", b""),
        (b"", b""),
    ];
    for (text, want) in cases {
        let rows = records(rt.alloc(), text)?;
        let found = shown(rt.alloc(), &rows)?;
        assert_eq!(rt; found.as_slice(), want);
    }
    Ok(())
}

#[test]
fn reads_dates(rt: HostRuntime) {
    let cases: [(&[u8], i16, i8, i8); 3] = [
        (b"2024-04-26", 2024, 4, 26),
        (b"0001-01-01", 1, 1, 1),
        (b"9999-12-31", 9999, 12, 31),
    ];
    for (field, year, month, day) in cases {
        assert!(rt;
            day_text(field).is_some() && day_text(field) == Date::new(year, month, day).ok()
        );
    }
    let none: [&[u8]; 6] = [
        b"2024-02-30",
        b"2023-02-29",
        b"0000-01-01",
        b"2024-13-01",
        b"2024-4-26",
        b"2024/04/26",
    ];
    for field in none {
        assert!(rt; day_text(field).is_none());
    }
}
