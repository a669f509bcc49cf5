//! The desk of the system: its files, and standard output.

ghost use Rattle.std.specs.Prelude.{◌≡◌, ◌<◌, ◌≤◌, length, IfOk, None};

use escrow_desk::{Desk, DeskError, Failed};
use std::alloc::Global;
use std::fs::{File, OpenOptions};
use std::io;
use std::io::{ErrorKind, Read, Seek, SeekFrom, Write};
use std::rt::Files;

/// How often a read or a write that a signal interrupted is tried again.
const RETRIES: u32 = 100;

/// A file that stays open between reads.
#[derive(Drop)]
struct OpenedFile<F> {
    name: String,
    file: F,
    // The place of the next byte.
    next: u64,
}

/// The files of the system, and standard output. It tells nothing of what they hold.
///
/// A read at place 0 opens the file, which stays open while the places that are asked for follow on. So the bytes are
/// those of one file, even where another takes its name meanwhile, and a pipe is read like a file. A read at a place
/// that doesn't follow on opens the file and seeks.
///
/// Each count stands still at 2^64 - 1.
#[derive(Drop)]
pub struct RealDesk<'a, R: Files> {
    rt: &'a R,
    alloc: Global,
    opened: Option<OpenedFile<R::File>>,
    read_faults: u64,
    write_faults: u64,
    absences: u64,
}

impl<'a, R: Files + Print> RealDesk<'a, R> {
    /// A desk of which no call failed.
    pub fn new(rt: &'a R, alloc: Global) -> RealDesk<'a, R>
        ensures read_faults { result.read_faults ≡ 0 }
        ensures write_faults { result.write_faults ≡ 0 }
        ensures absences { result.absences ≡ 0 }
    {
        RealDesk {
            rt,
            alloc,
            opened: None,
            read_faults: 0,
            write_faults: 0,
            absences: 0,
        }
    }
}

// Opens a file, so that its next byte is the one of a place. At place 0 it doesn't seek, which a pipe can't.
fn open_at<R: Files>(
    rt: &R,
    alloc: Global,
    name: &str,
    at: u64,
) -> io::Result<OpenedFile<R::File>> {
    let kept = String::from_str(alloc, name)?;
    let mut file = File::open(rt, name)?;
    if at > 0 {
        file.seek(SeekFrom::Start(at))?;
    }
    Ok(OpenedFile {
        name: kept,
        file,
        next: at,
    })
}

// Reads on; a read that was interrupted is tried again.
fn read_on<F: Read>(file: &mut F, into: &mut [u8]) -> io::Result<usize>
    ensures { IfOk result (λ n. n ≤ length into.new) }
{
    for _ in 0..RETRIES {
        match file.read(into) {
            Err(error) if error.kind() == ErrorKind::Interrupted => {}
            answer => return answer,
        }
    }
    file.read(into)
}

// Reads a file from a place on, which is opened unless its next byte is that one.
fn read_at<R: Files>(
    rt: &R,
    alloc: Global,
    opened: &mut Option<OpenedFile<R::File>>,
    name: &str,
    at: u64,
    into: &mut [u8],
) -> io::Result<usize>
    ensures { IfOk result (λ n. n ≤ length into.new) }
{
    let mut open = match opened.take() {
        Some(open) if at > 0 && open.next == at && open.name.as_str() == name => open,
        _ => open_at(rt, alloc, name, at)?,
    };
    let count = read_on(&mut open.file, into)?;
    open.next = at.saturating_add(count as u64);
    *opened = Some(open);
    Ok(count)
}

// Writes; a write that was interrupted is tried again.
fn write_on<W: Write>(to: &mut W, bytes: &[u8]) -> io::Result<usize>
    ensures { IfOk result (λ n. n ≤ length bytes.now) }
{
    for _ in 0..RETRIES {
        match to.write(bytes) {
            Err(error) if error.kind() == ErrorKind::Interrupted => {}
            answer => return answer,
        }
    }
    to.write(bytes)
}

// Writes at the end of a file, which is made where it isn't there.
fn write_at_end<R: Files>(rt: &R, name: &str, bytes: &[u8]) -> io::Result<usize>
    ensures { IfOk result (λ n. n ≤ length bytes.now) }
{
    let mut options = OpenOptions::new();
    let mut file = options.append(true).create(true).open(rt, name)?;
    write_on(&mut file, bytes)
}

// How much of some bytes was written; to write nothing of them is a failure.
fn written(answer: io::Result<usize>, bytes: &[u8]) -> Result<usize, Failed>
    requires { IfOk answer (λ n. n ≤ length bytes.now) }
    ensures count { IfOk result (λ n. n ≤ length bytes.now) }
    ensures some { IfOk result (λ n. 0 < length bytes.now → 0 < n) }
{
    match answer {
        Ok(count) if count > 0 || bytes.is_empty() => Ok(count),
        _ => Err(Failed),
    }
}

impl<R: Files + Print> Desk for RealDesk<'_, R> {
    ghost told = { λ desk. None };

    ghost counts = { λ desk. record { read_faults = desk.read_faults; write_faults = desk.write_faults; absences = desk.absences } };

    fn read(&mut self, name: &str, at: u64, into: &mut [u8]) -> Result<usize, DeskError> {
        match read_at(self.rt, self.alloc, &mut self.opened, name, at, into) {
            Ok(count) => Ok(count),
            Err(error) if error.kind() == ErrorKind::NotFound => {
                self.absences = self.absences.saturating_add(1);
                Err(DeskError::NoFile)
            }
            Err(_) => {
                self.read_faults = self.read_faults.saturating_add(1);
                Err(DeskError::Failed)
            }
        }
    }

    fn begin(&mut self, name: &str) -> Result<(), Failed> {
        if File::create(self.rt, name).is_err() {
            self.write_faults = self.write_faults.saturating_add(1);
            return Err(Failed);
        }
        Ok(())
    }

    fn append(&mut self, name: &str, bytes: &[u8]) -> Result<usize, Failed> {
        let answer = written(write_at_end(self.rt, name, bytes), bytes);
        if answer.is_err() {
            self.write_faults = self.write_faults.saturating_add(1);
        }
        answer
    }

    // What is said goes straight to standard output.
    fn say(&mut self, bytes: &[u8]) -> Result<usize, Failed> {
        let answer = written(write_on(&mut io::writer(self.rt), bytes), bytes);
        if answer.is_err() {
            self.write_faults = self.write_faults.saturating_add(1);
        }
        answer
    }
}

#[cfg(test)]
mod tests {
    use super::*;
    use escrow_desk::read_all;
    use std::fs;
    use std::test::Fail;

    // So many bytes of one kind.
    fn filled(alloc: Global, byte: u8, count: usize) -> Result<Vec<u8>, Fail> {
        Ok(vec![in alloc; byte; count]?)
    }

    // A file of three pieces is read whole though another takes its name after the first, and a missing file is
    // counted.
    #[test]
    fn a_file_that_is_renamed_over_is_read_on(rt: HostRuntime) -> Result<(), Fail> {
        let old = filled(rt.alloc(), b'o', 150_000)?;
        fs::write(&rt, "issue", old.as_slice())?;
        fs::write(&rt, "other", b"new")?;
        let mut desk = RealDesk::new(&rt, rt.alloc());
        let mut piece = filled(rt.alloc(), 0, 65_536)?;
        let mut read = desk.read("issue", 0, piece.as_mut_slice()).unwrap_or(0);
        fs::rename(&rt, "other", "issue")?;
        for _ in 0..4 {
            let count = desk.read("issue", read as u64, piece.as_mut_slice());
            read = read.saturating_add(count.unwrap_or(0));
        }
        assert_eq!(rt; read, 150_000);
        assert_eq!(rt; piece.first(), Some(&b'o'));
        let again = read_all(rt.alloc(), &mut desk, "issue", 100).ok();
        assert_eq!(rt; again.as_deref(), Some(b"new".as_slice()));
        assert_eq!(rt;
            desk.read("no/such/file", 0, piece.as_mut_slice()),
            Err(DeskError::NoFile)
        );
        assert_eq!(rt; desk.absences, 1);
        fs::remove_file(&rt, "issue")?;
        Ok(())
    }
}
