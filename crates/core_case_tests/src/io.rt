// Shelves and sinks.
use core_io::{
    Failed, FileShelf, MemShelf, MemSink, OutSink, ReadAll, Shelf, ShelfFault, Sink, read_all,
    write_all,
};
use std::fs;
use std::test::Fail;

#[test]
fn reads_a_name_whole(rt: HostRuntime) -> Result<(), Fail> {
    let mut shelf = MemShelf::make(rt.alloc());
    let long = vec![in rt.alloc(); 7u8; 5000]?;
    shelf.put("word", b"other")?;
    shelf.put("long", &long)?;
    shelf.put("empty", b"")?;
    shelf.put("word", b"hello")?;
    for (name, most, want) in [
        ("word", 5, Ok(b"hello".as_slice())),
        ("word", 4, Err(ReadAll::Long)),
        ("long", 5000, Ok(long.as_slice())),
        ("long", 4999, Err(ReadAll::Long)),
        ("empty", 0, Ok(b"".as_slice())),
        ("missing", 5, Err(ReadAll::Fault)),
        ("word", 4194304, Ok(b"hello".as_slice())),
    ] {
        let answer = read_all(rt.alloc(), &mut shelf, name, most);
        match (&answer, want) {
            (Ok(bytes), Ok(want)) => assert_eq!(rt; bytes.as_slice(), want, "at {name}, {most}"),
            (Err(fault), Err(want)) => assert_eq!(rt; *fault, want, "at {name}, {most}"),
            _ => panic!(rt; "at {name}, {most}"),
        }
    }
    Ok(())
}

#[test]
fn fails_the_reads_that_are_listed(rt: HostRuntime) -> Result<(), Fail> {
    let mut shelf = MemShelf::make(rt.alloc());
    shelf.put("word", b"hello")?;
    shelf.fail_at(4)?;
    shelf.fail_at(2)?;
    for (call, want) in [
        (1, Ok(3)),
        (2, Err(ShelfFault::Failed)),
        (3, Ok(3)),
        (4, Err(ShelfFault::Failed)),
        (5, Ok(3)),
    ] {
        let mut into = [0; 3];
        assert_eq!(rt; shelf.read("word", 1, &mut into), want, "at call {call}");
        let seen = if want.is_ok() { *b"ell" } else { [0; 3] };
        assert_eq!(rt; into, seen, "at call {call}");
    }
    Ok(())
}

#[test]
fn writes_a_text_in_pieces(rt: HostRuntime) -> Result<(), Fail> {
    for (room, most, failing, want, written) in [
        (12, 3, 9, Ok(()), b"hello, world".as_slice()),
        (12, 50, 9, Ok(()), b"hello, world".as_slice()),
        (11, 3, 9, Err(Failed), b"hello, worl".as_slice()),
        (12, 3, 3, Err(Failed), b"hello,".as_slice()),
        (12, 3, 1, Err(Failed), b"".as_slice()),
        (0, 1, 9, Err(Failed), b"".as_slice()),
    ] {
        let mut sink = MemSink::make(rt.alloc(), room, most)?;
        sink.fail_at(failing)?;
        let answer = write_all(&mut sink, b"hello, world");
        assert_eq!(rt; answer, want, "at {room}, {most}, {failing}");
        assert_eq!(rt; sink.written(), written, "at {room}, {most}, {failing}");
    }
    Ok(())
}

#[test]
fn reads_a_file_on_where_the_last_call_ended(rt: HostRuntime) -> Result<(), Fail> {
    fs::write(&rt, "core_io_shelf", b"abcdef".as_slice())?;
    let mut shelf = FileShelf::make(rt);
    let all = read_all(rt.alloc(), &mut shelf, "core_io_shelf", 6);
    assert!(rt; matches!(&all, Ok(bytes) if bytes.as_slice() == b"abcdef".as_slice()));
    let mut into = [0; 2];
    assert_eq!(rt; shelf.read("core_io_shelf", 3, &mut into), Ok(2));
    assert_eq!(rt; into, *b"de");
    assert_eq!(rt; shelf.read("core_io_shelf", 0, &mut into), Ok(2));
    fs::remove_file(&rt, "core_io_shelf")?;
    assert_eq!(rt; shelf.read("core_io_shelf", 2, &mut into), Ok(2));
    assert_eq!(rt; into, *b"cd");
    assert_eq!(rt;
        shelf.read("core_io_shelf", 1, &mut into),
        Err(ShelfFault::Failed)
    );
    Ok(())
}

#[test]
fn writes_to_the_standard_output(rt: HostRuntime) {
    let mut sink = OutSink::make(rt.stdout());
    assert_eq!(rt; sink.write(b""), Ok(0));
    assert_eq!(rt; write_all(&mut sink, b"hello\n"), Ok(()));
}
