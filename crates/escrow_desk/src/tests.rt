//! Worked calls of the desks, and records of texts.

ghost use Rattle.std.specs.Prelude.{◌≡◌, ◌≤◌, length, IfOk, string_bytes};

use crate::limits::FILE_LIMIT;
use crate::{
    MemoryDesk, NamedBytes, NeverFails, ReadRefusal, read_all, read_rows, say_all, write_all,
};
use std::alloc::Global;
use std::test::Fail;

fn named(alloc: Global, name: &str, bytes: &[u8]) -> Result<NamedBytes, Fail>
    ensures { IfOk result (λ file. string_bytes file.name ≡ name.now) }
{
    let name = String::from_str(alloc, name)?;
    let bytes = Vec::from_slice(alloc, bytes)?;
    Ok(NamedBytes { name, bytes })
}

// A desk of two files, of which one call fails.
fn desk_of(alloc: Global, failing: u64) -> Result<MemoryDesk, Fail> {
    let old = named(alloc, "old", b"hello")?;
    let other = named(alloc, "other", b"same")?;
    let files = vec![in alloc; old, other]?;
    let failing = vec![in alloc; failing]?;
    Ok(MemoryDesk::make(alloc, files, failing))
}

// What a read, a write and a saying came to where one call fails.
#[derive(Clone, Copy)]
struct Outcome {
    failing: u64,
    read: Result<(), ReadRefusal>,
    wrote: bool,
    file: &'static [u8],
    said: &'static [u8],
}

#[test]
fn each_call_fails_in_turn(rt: HostRuntime) -> Result<(), Fail> {
    let outcomes = [
        Outcome {
            failing: 0,
            read: Err(ReadRefusal::Fault),
            wrote: true,
            file: b"new",
            said: b"text",
        },
        Outcome {
            failing: 1,
            read: Err(ReadRefusal::Fault),
            wrote: true,
            file: b"new",
            said: b"text",
        },
        Outcome {
            failing: 2,
            read: Ok(()),
            wrote: false,
            file: b"hello",
            said: b"text",
        },
        Outcome {
            failing: 3,
            read: Ok(()),
            wrote: false,
            file: b"",
            said: b"text",
        },
        Outcome {
            failing: 4,
            read: Ok(()),
            wrote: true,
            file: b"new",
            said: b"",
        },
        Outcome {
            failing: 5,
            read: Ok(()),
            wrote: true,
            file: b"new",
            said: b"text",
        },
    ];
    for outcome in &outcomes {
        let mut desk = desk_of(rt.alloc(), outcome.failing)?;
        let read = read_all(rt.alloc(), &mut desk, "old", 5);
        assert_eq!(rt; read.map(|_| ()), outcome.read);
        assert_eq!(rt; write_all(&mut desk, "old", b"new").is_ok(), outcome.wrote);
        assert_eq!(rt; say_all(&mut desk, b"text").is_ok(), outcome.failing != 4);
        assert_eq!(rt; desk.bytes_of("old"), Some(outcome.file));
        assert_eq!(rt; desk.bytes_of("other"), Some(b"same".as_slice()));
        assert_eq!(rt; desk.said(), outcome.said);
        assert_eq!(rt; desk.starved(), 0);
    }
    Ok(())
}

#[test]
fn reads_to_the_limit(rt: HostRuntime) -> Result<(), Fail> {
    let mut desk = desk_of(rt.alloc(), 5)?;
    assert_eq!(rt;
        read_all(rt.alloc(), &mut desk, "old", 4).map(|_| ()),
        Err(ReadRefusal::TooLong)
    );
    assert_eq!(rt; desk.calls(), 1);
    let bytes = read_all(rt.alloc(), &mut desk, "old", 5).ok();
    assert_eq!(rt; bytes.as_deref(), Some(b"hello".as_slice()));
    assert_eq!(rt;
        read_all(rt.alloc(), &mut desk, "none", 5).map(|_| ()),
        Err(ReadRefusal::NoFile)
    );
    assert_eq!(rt; desk.calls(), 4);
    assert_eq!(rt; desk.bytes_of("none"), None);
    Ok(())
}

#[test]
fn lent_files_never_fail(rt: HostRuntime) -> Result<(), Fail> {
    let files = vec![in rt.alloc(); named(rt.alloc(), "a", b"hello")?]?;
    let mut desk = NeverFails::make(files.as_slice());
    assert!(rt; write_all(&mut desk, "a", b"new").is_ok());
    assert!(rt; say_all(&mut desk, b"text").is_ok());
    let bytes = read_all(rt.alloc(), &mut desk, "a", 100).ok();
    assert_eq!(rt; bytes.as_deref(), Some(b"hello".as_slice()));
    let none = read_all(rt.alloc(), &mut desk, "none", 100).ok();
    assert_eq!(rt; none.as_deref(), Some(b"".as_slice()));
    Ok(())
}

// The records with a bar after each field and a slash after each record.
fn spelling(alloc: Global, text: &[u8]) -> Result<Vec<u8>, Fail>
    requires { length text.now ≤ FILE_LIMIT }
{
    let Ok(rows) = read_rows(alloc, text) else {
        return Ok(Vec::new(alloc));
    };
    let mut spelled = Vec::new(alloc);
    for row in 0..rows.count() {
        for place in 0..rows.width(row) {
            spelled.extend_from_slice(rows.field(row, place))?;
            spelled.push(b'|')?;
        }
        spelled.push(b'/')?;
    }
    Ok(spelled)
}

#[test]
fn records_of_texts(rt: HostRuntime) -> Result<(), Fail> {
    let texts: [(&[u8], &[u8]); 6] = [
        (b"", b""),
        (b"a,b\nc\n", b"a|b|/c|/"),
        (b"a,\"b,\"\"c\"\"\"\r\n\r\n\nd\n", b"a|b,\"c\"|/d|/"),
        (b"x,,y", b"x||y|/"),
        (b"\xEF\xBB\xBFa\n", b"a|/"),
        (b"\"open", b"open|/"),
    ];
    for (text, spelled) in &texts {
        assert_eq!(rt; spelling(rt.alloc(), text)?.as_slice(), *spelled);
    }
    Ok(())
}
