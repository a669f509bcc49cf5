//! The outside as a trait: files by name, a place to say text, and the counts of what failed.

ghost use Rattle.std.specs.Prelude.{◌≡◌, ◌<◌, ◌≤◌, length, OnOk, OnErr, IfOk, IsErrOf};
ghost use Rattle.escrow_desk.specs.Counts.{Counts, CountsRead, CountsWrite};
ghost use Rattle.escrow_desk.specs.Content.{Told, Given, IsAbsent, Emptied, Appended, Said};

use thiserror::Error;

/// Why a read gave nothing.
#[derive(Clone, Copy, Debug, PartialEq, Eq, Error)]
pub enum DeskError {
    /// The read failed.
    #[error("the read failed")]
    Failed,
    /// There is no such file.
    #[error("there is no such file")]
    NoFile,
}

/// A write failed, and changed nothing.
#[derive(Clone, Copy, Debug, PartialEq, Eq)]
pub struct Failed;

/// Files by name, and a place to say bytes.
///
/// A call that answers `Ok` leaves the three counts as they are. A call that fails raises its own count, or finds it
/// at its last value, and no other.
pub trait Desk {
    /// What the files hold and what was said, if the desk tells it. A desk that tells goes on telling.
    ghost told: { Self → Told };

    /// How often a read failed, how often another call failed, and how often a file that was to be read wasn't there.
    ghost counts: { Self → Counts };

    /// Puts bytes of the file from place `at` into the front of `into`, and answers how many. For a nonempty `into`
    /// none is the end of the file.
    fn read(&mut self, name: &str, at: u64, into: &mut [u8]) -> Result<usize, DeskError>
        ensures count { IfOk result (λ n. n ≤ length into.new) }
        ensures given { IfOk result (λ n. Given (told self.old) name.now at into.old n into.new) }
        ensures absent { IsErrOf result DeskError.NoFile → IsAbsent (told self.old) name.now }
        ensures told { told self.new ≡ told self.old }
        ensures counts { CountsRead result (counts self.old) (counts self.new) };

    /// Makes the file empty, or makes it.
    fn begin(&mut self, name: &str) -> Result<(), Failed>
        ensures emptied { OnOk result (Emptied (told self.old) name.now (told self.new)) }
        ensures kept { OnErr result (told self.new ≡ told self.old) }
        ensures counts { CountsWrite result (counts self.old) (counts self.new) };

    /// Adds a prefix of `bytes` to the file, and answers its length: at least 1 where `bytes` isn't empty.
    fn append(&mut self, name: &str, bytes: &[u8]) -> Result<usize, Failed>
        ensures count { IfOk result (λ n. n ≤ length bytes.now) }
        ensures some { IfOk result (λ n. 0 < length bytes.now → 0 < n) }
        ensures appended { IfOk result (λ n. Appended (told self.old) name.now n bytes.now (told self.new)) }
        ensures kept { OnErr result (told self.new ≡ told self.old) }
        ensures counts { CountsWrite result (counts self.old) (counts self.new) };

    /// Adds a prefix of `bytes` to what was said, and answers its length: at least 1 where `bytes` isn't empty.
    fn say(&mut self, bytes: &[u8]) -> Result<usize, Failed>
        ensures count { IfOk result (λ n. n ≤ length bytes.now) }
        ensures some { IfOk result (λ n. 0 < length bytes.now → 0 < n) }
        ensures said { IfOk result (λ n. Said (told self.old) n bytes.now (told self.new)) }
        ensures kept { OnErr result (told self.new ≡ told self.old) }
        ensures counts { CountsWrite result (counts self.old) (counts self.new) };
}
