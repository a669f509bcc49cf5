//! A desk in memory, of which some calls fail.

ghost use Rattle.std.specs.Prelude.{◌≡◌, ◌<◌, ◌≤◌, ◌↔◌, Some, length, OnOk, OnErr, IsErr, IfOk, IsTrue, IsErrOf, option_map};
ghost use Rattle.escrow_desk.specs.Counts.{CountsRead, CountsWrite};
ghost use Rattle.escrow_desk.specs.Content.{file_of, Given, IsAbsent, Emptied, Appended, Said};
ghost use Rattle.escrow_desk.specs.Memory.{Calls, HasCause, IsTallied, is_next_listed, new_desk};
ghost use Rattle.escrow_desk.specs.NamedFiles.{files_of, NamesDiffer};

use crate::desk::{Desk, DeskError, Failed};
use crate::files::{bytes_under, copy_part, empty_file, extend_file};
use crate::named::NamedBytes;
use crate::tally::Tally;
use std::alloc::Global;
use std::marker::Model;

/// Files in memory, of which some calls fail. It tells what it holds.
///
/// Its calls are numbered from 0, reads and others alike, and those whose number is listed fail.
#[derive(Drop)]
pub struct MemoryDesk {
    alloc: Global,
    files: Vec<NamedBytes>,
    said: Vec<u8>,
    tally: Tally,
}

impl Model for MemoryDesk {
    ghost use Rattle.std.specs.Prelude.{◌+◌};
    ghost use Rattle.escrow_desk.specs.Codes.{memory_state_code};
    ghost use Rattle.escrow_desk.specs.Memory.{MemoryState};
    ghost use Rattle.escrow_desk.specs.NamedFiles.{files_of};

    ghost Value = { MemoryState };

    ghost coded = { memory_state_code };

    ghost view = { λ desk. record {
      content = record { files = files_of desk.files.items; said = desk.said.items };
      failing = desk.tally.failing.items;
      calls = desk.tally.calls;
      starved = desk.tally.starved;
      counts = record {
        read_faults = desk.tally.listed_reads;
        write_faults = desk.tally.listed_writes + desk.tally.starved;
        absences = desk.tally.absences;
      };
    } };
}

impl MemoryDesk {
    /// A desk that holds these files, whose names differ, and fails the calls of the numbers in `failing`.
    pub fn make(alloc: Global, files: Vec<NamedBytes>, failing: Vec<u64>) -> MemoryDesk
        requires { NamesDiffer files.items }
        ensures { result ≡ new_desk (files_of files.items) failing.items }
    {
        MemoryDesk {
            alloc,
            files,
            said: Vec::new(alloc),
            tally: Tally::new(failing),
        }
    }

    /// The bytes of a file.
    pub fn bytes_of(&self, name: &str) -> Option<&[u8]>
        ensures { option_map (λ bytes. bytes.now) result ≡ file_of self.now.content name.now }
    {
        bytes_under(self.files.as_slice(), name)
    }

    /// What was said.
    pub fn said(&self) -> &[u8]
        ensures { result.now ≡ self.now.content.said }
    {
        self.said.as_slice()
    }

    /// How many calls came so far; it stands still at 2^64 - 1, and later calls have no number.
    pub fn calls(&self) -> u64
        ensures value { result ≡ self.now.calls }
        ensures tallied { IsTallied self.now }
    {
        self.tally.calls()
    }

    /// How many growths found no memory; it stands still at 2^64 - 1. All other failures are of calls whose number is
    /// listed.
    pub fn starved(&self) -> u64
        ensures value { result ≡ self.now.starved }
        ensures tallied { IsTallied self.now }
    {
        self.tally.starved()
    }
}

impl Desk for MemoryDesk {
    ghost told = { λ desk. Some desk.content };

    ghost counts = { λ desk. desk.counts };

    fn read(&mut self, name: &str, at: u64, into: &mut [u8]) -> Result<usize, DeskError>
        ensures count { IfOk result (λ n. n ≤ length into.new) }
        ensures given { IfOk result (λ n. Given (Some self.old.content) name.now at into.old n into.new) }
        ensures absent { IsErrOf result DeskError.NoFile → IsAbsent (Some self.old.content) name.now }
        ensures told { Some self.new.content ≡ Some self.old.content }
        ensures counts { CountsRead result self.old.counts self.new.counts }

        // A read fails exactly where its number is listed, and starves nothing.
        ensures calls { Calls self.old self.new }
        ensures listed { IsErrOf result DeskError.Failed ↔ IsTrue (is_next_listed self.old.failing self.old.calls) }
        ensures starved { self.new.starved ≡ self.old.starved }
    {
        if self.tally.fails_read() {
            return Err(DeskError::Failed);
        }
        match bytes_under(self.files.as_slice(), name) {
            Some(bytes) => Ok(copy_part(bytes, at, into)),
            None => {
                self.tally.misses();
                Err(DeskError::NoFile)
            }
        }
    }

    fn begin(&mut self, name: &str) -> Result<(), Failed>
        ensures emptied { OnOk result (Emptied (Some self.old.content) name.now (Some self.new.content)) }
        ensures kept { OnErr result (Some self.new.content ≡ Some self.old.content) }
        ensures counts { CountsWrite result self.old.counts self.new.counts }

        // It fails where its number is listed, and else only where a growth found no memory.
        ensures calls { Calls self.old self.new }
        ensures listed { IsTrue (is_next_listed self.old.failing self.old.calls) → IsErr result × (self.new.starved ≡ self.old.starved) }
        ensures cause { OnErr result (HasCause self.old self.new) }
        ensures fed { OnOk result (self.new.starved ≡ self.old.starved) }
    {
        if self.tally.fails_write() {
            return Err(Failed);
        }
        if empty_file(self.alloc, &mut self.files, name).is_err() {
            self.tally.starves();
            return Err(Failed);
        }
        Ok(())
    }

    fn append(&mut self, name: &str, bytes: &[u8]) -> Result<usize, Failed>
        ensures count { IfOk result (λ n. n ≤ length bytes.now) }
        ensures some { IfOk result (λ n. 0 < length bytes.now → 0 < n) }
        ensures appended { IfOk result (λ n. Appended (Some self.old.content) name.now n bytes.now (Some self.new.content)) }
        ensures kept { OnErr result (Some self.new.content ≡ Some self.old.content) }
        ensures counts { CountsWrite result self.old.counts self.new.counts }

        // It fails where its number is listed, and else only where a growth found no memory.
        ensures calls { Calls self.old self.new }
        ensures listed { IsTrue (is_next_listed self.old.failing self.old.calls) → IsErr result × (self.new.starved ≡ self.old.starved) }
        ensures cause { OnErr result (HasCause self.old self.new) }
        ensures fed { OnOk result (self.new.starved ≡ self.old.starved) }
    {
        if self.tally.fails_write() {
            return Err(Failed);
        }
        if extend_file(self.alloc, &mut self.files, name, bytes).is_err() {
            self.tally.starves();
            return Err(Failed);
        }
        Ok(bytes.len())
    }

    fn say(&mut self, bytes: &[u8]) -> Result<usize, Failed>
        ensures count { IfOk result (λ n. n ≤ length bytes.now) }
        ensures some { IfOk result (λ n. 0 < length bytes.now → 0 < n) }
        ensures said { IfOk result (λ n. Said (Some self.old.content) n bytes.now (Some self.new.content)) }
        ensures kept { OnErr result (Some self.new.content ≡ Some self.old.content) }
        ensures counts { CountsWrite result self.old.counts self.new.counts }

        // It fails where its number is listed, and else only where a growth found no memory.
        ensures calls { Calls self.old self.new }
        ensures listed { IsTrue (is_next_listed self.old.failing self.old.calls) → IsErr result × (self.new.starved ≡ self.old.starved) }
        ensures cause { OnErr result (HasCause self.old self.new) }
        ensures fed { OnOk result (self.new.starved ≡ self.old.starved) }
    {
        if self.tally.fails_write() {
            return Err(Failed);
        }
        if self.said.extend_from_slice(bytes).is_err() {
            self.tally.starves();
            return Err(Failed);
        }
        Ok(bytes.len())
    }
}
