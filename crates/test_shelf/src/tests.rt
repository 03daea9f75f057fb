// What no clause says: which calls fail, what is counted, and what the system's files do.
use fm_base::Seq;
use fm_shelf::files::{Calls, File, Files};
use fm_shelf::memory::{MemoryShelf, MemorySink};
use fm_shelf::real::{FileShelf, OutSink};
use fm_shelf::shelf::{Shelf, Sink};
use fm_shelf::sure::{SureShelf, SureSink};
use fm_shelf::whole::{append_all, read_all, write_all};
use room::{NoRoom, filled, from_slice, from_str};
use std::alloc::Global;
use std::test::*;
use std::{fs, process};

#[derive(Clone, Copy)]
enum Call<'a> {
    // A read of up to 8 bytes from a place on, and the bytes that are due.
    Read(&'a str, u64, &'a [u8]),
    Append(&'a str, &'a [u8]),
    Cut(&'a str, u64),
}

use Call::{Append, Cut, Read};

// A call, and whether it is to be done.
type Wanted<'a> = (Call<'a>, bool);

// A shelf with the file `a` of the bytes `abc`, calls on it, and how many of them fail.
#[derive(Clone, Copy)]
struct Row<'a> {
    capacity: u64,
    failing: &'a [u64],
    taken: u64,
    calls: &'a [Wanted<'a>],
    failures: u64,
}

// Calls that are listed fail, and no others.
const LISTED: Row<'static> = Row {
    capacity: 100,
    failing: &[2, 4, 6],
    taken: 0,
    calls: &[
        (Read("a", 1, b"bc"), true),
        (Read("a", 1, b"bc"), false),
        (Append("a", b"de"), true),
        (Cut("a", 1), false),
        (Cut("a", 4), true),
        (Append("a", b"f"), false),
        (Read("none", 0, b""), false),
        (Read("a", 0, b"abcd"), true),
        (Read("a", 4, b""), true),
    ],
    failures: 4,
};

// A file has room up to the capacity.
const FULL: Row<'static> = Row {
    capacity: 5,
    failing: &[],
    taken: 0,
    calls: &[
        (Append("a", b"def"), false),
        (Append("a", b"de"), true),
        (Append("a", b"f"), false),
        (Append("b", b"123456"), false),
        (Read("b", 0, b""), false),
        (Read("a", 0, b"abcde"), true),
    ],
    failures: 4,
};

fn is_done<F: Shelf>(shelf: &mut F, call: Call) -> bool {
    match call {
        Read(name, at, due) => {
            let mut piece = [0u8; 8];
            match shelf.read(name, at, &mut piece) {
                Ok(n) => &piece[..n] == due,
                Err(_) => false,
            }
        }
        Append(name, piece) => shelf.append(name, piece).is_ok(),
        Cut(name, len) => shelf.cut(name, len).is_ok(),
    }
}

// The number of the first call that is done and isn't to be, or isn't and is to be.
fn first_odd<F: Shelf>(shelf: &mut F, calls: &[Wanted]) -> Option<usize> {
    for (i, (call, done)) in calls.iter().enumerate() {
        if is_done(shelf, *call) != *done {
            return Some(i);
        }
    }
    None
}

// The file `a` with the bytes `abc`.
fn one_file(alloc: Global) -> Result<Files, NoRoom> {
    let bytes = Seq::from_vec(from_slice(alloc, b"abc")?);
    let name = from_str(alloc, "a")?;
    let mut files: Files = Seq::new(alloc);
    files.push(File { name, bytes })?;
    Ok(files)
}

// Whether all calls end as they are to, and are counted.
fn ends_as_wanted(shelf: &mut MemoryShelf, row: &Row) -> bool {
    first_odd(shelf, row.calls).is_none()
        && (shelf.calls(), shelf.failures()) == (row.calls.len() as u64, row.failures)
}

fn is_right(alloc: Global, row: &Row) -> Result<bool, NoRoom> {
    let files = one_file(alloc)?;
    let failing: Calls = Seq::from_vec(from_slice(alloc, row.failing)?);
    let mut shelf = MemoryShelf::tearing(alloc, files, row.capacity, failing, row.taken)?;
    Ok(ends_as_wanted(&mut shelf, row))
}

// What a torn call may take of `def`, how `a` is then read, and how after a cut to nothing that fails as well.
const TORN: [(u64, &[u8], &[u8]); 4] = [
    (0, b"abc", b"abc"),
    (1, b"abcd", b""),
    (2, b"abcde", b""),
    (88, b"abcdef", b""),
];

fn takes<'a>(alloc: Global, taken: u64, appended: &'a [u8], cut: &'a [u8]) -> Result<bool, NoRoom> {
    let row = Row {
        capacity: 8,
        failing: &[1, 3, 5],
        taken,
        calls: &[
            (Append("a", b"def"), false),
            (Read("a", 0, appended), true),
            (Append("a", b"past the capacity"), false),
            (Read("a", 0, appended), true),
            (Cut("a", 0), false),
            (Read("a", 0, cut), true),
        ],
        failures: 3,
    };
    is_right(alloc, &row)
}

#[test]
fn calls_fail_where_they_are_listed_or_past_the_capacity(rt: HostRuntime) -> Result<(), Fail> {
    assert!(rt; is_right(rt.alloc(), &LISTED)?);
    assert!(rt; is_right(rt.alloc(), &FULL)?);
    for (taken, appended, cut) in TORN {
        assert!(rt; takes(rt.alloc(), taken, appended, cut)?, "{taken} taken");
    }
    Ok(())
}

// Whether calls make four files, the first of them with the longest name that may be, and no more.
fn makes_four<'a>(alloc: Global, longest: &'a str, longer: &'a str) -> Result<bool, NoRoom> {
    let row = Row {
        capacity: 5,
        failing: &[],
        taken: 0,
        calls: &[
            (Cut(longer, 0), false),
            (Append(longer, b"x"), false),
            (Append(longest, b"x"), true),
            (Cut("b", 7), true),
            (Append("c", b"x"), true),
            (Append("d", b""), true),
            (Cut("e", 0), false),
            (Append("f", b"x"), false),
            (Append("b", b"xy"), true),
            (Read("b", 0, b"xy"), true),
        ],
        failures: 4,
    };
    is_right(alloc, &row)
}

#[test]
fn calls_make_four_files_of_short_names(rt: HostRuntime) -> Result<(), Fail> {
    let name = String::from_utf8(filled(rt.alloc(), b'n', 256)?)?;
    let longest = name.get(..255).unwrap_or("");
    assert!(rt; makes_four(rt.alloc(), longest, name.as_str())?);
    Ok(())
}

// Whether a sink of four bytes, whose first call fails, has what the others wrote and no more.
fn writes_as_wanted(sink: &mut MemorySink) -> bool {
    write_all(sink, b"ab").is_err()
        && sink.bytes().is_empty()
        && write_all(sink, b"abc").is_ok()
        && sink.write(b"de").is_err()
        && sink.bytes() == b"abc".as_slice()
        && (sink.calls(), sink.failures()) == (3, 2)
}

#[test]
fn a_sink_whose_first_call_fails_has_nothing_written(rt: HostRuntime) -> Result<(), Fail> {
    let failing: Calls = Seq::from_vec(from_slice(rt.alloc(), &[1])?);
    let mut sink = MemorySink::new(rt.alloc(), 4, failing)?;
    let right = writes_as_wanted(&mut sink);
    drop(sink);
    assert!(rt; right);
    Ok(())
}

#[test]
fn nothing_fails_on_a_sure_shelf_and_sink(rt: HostRuntime) -> Result<(), Fail> {
    let calls = [
        (Read("a", 0, b"abc"), true),
        (Append("a", b"d"), true),
        (Read("a", 0, b""), true),
        (Cut("none", 2), true),
    ];
    let mut shelf = SureShelf::new(rt.alloc(), one_file(rt.alloc())?)?;
    let odd = first_odd(&mut shelf, &calls);
    drop(shelf);
    assert_eq!(rt; odd, None);
    assert_eq!(rt; write_all(&mut SureSink::new(), b"abc"), Ok(()));
    Ok(())
}

// The length of a file, and whether it begins with these bytes.
fn length_of<F: Shelf>(alloc: Global, shelf: &mut F, name: &str, begin: &[u8]) -> Option<usize> {
    let bytes = read_all(alloc, shelf, name).ok()?;
    bytes.as_slice().starts_with(begin).then_some(bytes.len())
}

// Whether a file that wasn't there is made, grown, cut and read.
fn is_kept<F: Shelf>(alloc: Global, shelf: &mut F, name: &str) -> bool {
    let calls = [
        (Cut(name, 3), true),
        (Append(name, b"abcdef"), true),
        (Cut(name, 9), true),
        (Read(name, 4, b"ef"), true),
        (Cut(name, 4), true),
        (Read(name, 2, b"cd"), true),
        (Append("/no-such-folder/file", b"x"), false),
    ];
    first_odd(shelf, &calls).is_none()
        && append_all(shelf, name, b"xy").is_ok()
        && length_of(alloc, shelf, name, b"abcdxy") == Some(6)
        && append_all(shelf, name, &[b'z'; 5000]).is_ok()
        && length_of(alloc, shelf, name, b"abcdxyzz") == Some(5006)
}

#[test]
fn files_of_the_system_are_made_grown_cut_and_read(rt: HostRuntime) -> Result<(), Fail> {
    let name = format!(in rt.alloc(); "fmeda-shelf-{}", process::id(rt.process()))?;
    let mut shelf = FileShelf::new(&rt);
    let kept = is_kept(rt.alloc(), &mut shelf, name.as_str());
    fs::remove_file(&rt, name.as_str())?;
    let left = is_done(&mut shelf, Read(name.as_str(), 0, b""));
    assert_eq!(rt; (kept, left), (true, false));
    Ok(())
}

#[test]
fn the_output_of_the_system_takes_all_bytes(rt: HostRuntime) {
    let written = write_all(&mut OutSink::new(&rt), b"written by a test\n");
    assert!(rt; written.is_ok());
}
