//! A desk over lent files, which never fails.

ghost use Rattle.std.specs.Prelude.{◌≡◌, ◌<◌, ◌≤◌, [], length, IsOk, IfOk, OnOk, OnErr, unwrap_or};
ghost use Rattle.std.specs.FinMap as fin;
ghost use Rattle.escrow_desk.specs.Content.{PartOf, Given, Emptied, Appended, Said};
ghost use Rattle.escrow_desk.specs.Counts.{CountsRead, CountsWrite};
ghost use Rattle.escrow_desk.specs.LentFiles.{untold, uncounted};
ghost use Rattle.escrow_desk.specs.NamedFiles.{files_of};

use crate::desk::{Desk, DeskError, Failed};
use crate::files::{bytes_under, copy_part};
use crate::named::NamedBytes;
use std::marker::Model;

/// Lent files, seen as a map by name. No call fails, what is written is dropped, and nothing is told.
///
/// A name without a lent file reads as an empty file.
#[derive(Drop)]
pub struct NeverFails<'a> {
    files: &'a [NamedBytes],
}

impl<'a> Model for NeverFails<'a> {
    ghost use Rattle.escrow_desk.specs.Codes.{files_code};
    ghost use Rattle.escrow_desk.specs.Content.{Files};
    ghost use Rattle.escrow_desk.specs.NamedFiles.{files_of};

    ghost Value = { Files };

    ghost coded = { files_code };

    ghost view = { λ desk. files_of desk.files.now };
}

impl<'a> NeverFails<'a> {
    /// A desk over lent files; of two with one name the first is read.
    pub fn make(files: &'a [NamedBytes]) -> NeverFails<'a>
        ensures { result ≡ files_of files.now }
    {
        NeverFails { files }
    }
}

impl Desk for NeverFails<'_> {
    ghost told = { untold };

    ghost counts = { uncounted };

    fn read(&mut self, name: &str, at: u64, into: &mut [u8]) -> Result<usize, DeskError>
        ensures answers { IsOk result }
        ensures part { IfOk result (λ n. PartOf (unwrap_or (fin.get self.old name.now) []) at into.old n into.new) }
        ensures files { self.new ≡ self.old }

        // What the trait asks of a desk that tells nothing and counts nothing.
        ensures count { IfOk result (λ n. n ≤ length into.new) }
        ensures given { IfOk result (λ n. Given (untold self.old) name.now at into.old n into.new) }
        ensures counts { CountsRead result (uncounted self.old) (uncounted self.new) }
    {
        match bytes_under(self.files, name) {
            Some(bytes) => Ok(copy_part(bytes, at, into)),
            None => Ok(0),
        }
    }

    fn begin(&mut self, name: &str) -> Result<(), Failed>
        ensures answers { IsOk result }
        ensures files { self.new ≡ self.old }

        ensures emptied { OnOk result (Emptied (untold self.old) name.now (untold self.new)) }
        ensures kept { OnErr result (untold self.new ≡ untold self.old) }
        ensures counts { CountsWrite result (uncounted self.old) (uncounted self.new) }
    {
        let _ = name;
        Ok(())
    }

    fn append(&mut self, name: &str, bytes: &[u8]) -> Result<usize, Failed>
        ensures all { IfOk result (λ n. n ≡ length bytes.now) }
        ensures answers { IsOk result }
        ensures files { self.new ≡ self.old }

        ensures count { IfOk result (λ n. n ≤ length bytes.now) }
        ensures some { IfOk result (λ n. 0 < length bytes.now → 0 < n) }
        ensures appended { IfOk result (λ n. Appended (untold self.old) name.now n bytes.now (untold self.new)) }
        ensures kept { OnErr result (untold self.new ≡ untold self.old) }
        ensures counts { CountsWrite result (uncounted self.old) (uncounted self.new) }
    {
        let _ = name;
        Ok(bytes.len())
    }

    fn say(&mut self, bytes: &[u8]) -> Result<usize, Failed>
        ensures all { IfOk result (λ n. n ≡ length bytes.now) }
        ensures answers { IsOk result }
        ensures files { self.new ≡ self.old }

        ensures count { IfOk result (λ n. n ≤ length bytes.now) }
        ensures some { IfOk result (λ n. 0 < length bytes.now → 0 < n) }
        ensures said { IfOk result (λ n. Said (untold self.old) n bytes.now (untold self.new)) }
        ensures kept { OnErr result (untold self.new ≡ untold self.old) }
        ensures counts { CountsWrite result (uncounted self.old) (uncounted self.new) }
    {
        Ok(bytes.len())
    }
}
