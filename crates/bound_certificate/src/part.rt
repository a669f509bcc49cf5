//! The part of a line that came, where the line hasn't ended.
ghost use Rattle.std.specs.Prelude.{◌≡◌, ◌≤◌, ◌+◌, ◌++◌, ◌==◌, ◌||◌, nat_lt, if◌then◌else◌, true, [], List, ℕ, IfOk, length, take};
ghost use Rattle.bound_certificate.specs.Kept.{IsKept};
ghost use Rattle.bound_certificate.specs.LongLine.{seen_of};

use crate::limits::LINE_ROOM;
use crate::seen::Seen;
use escrow_desk::NoMemory;
use std::alloc::Global;
use std::marker::Model;

/// What is kept of the part of a line that came. Its memory is taken at once.
#[derive(Debug, Drop)]
pub(crate) struct Part {
    room: Vec<u8>,
    size: usize,
    long: bool,
    // What its words are, where it is longer than any right line.
    seen: Seen,
}

impl Model for Part {
    ghost use Rattle.std.specs.Prelude.{◌≡◌, ◌≤◌, length, take};
    ghost use Rattle.bound_certificate.specs.Kept.{Kept};
    ghost use Rattle.bound_certificate.specs.declared.limits.TheConstants.{LINE_ROOM};

    ghost Value = { Kept };

    ghost view = { λ p. record { head = take p.size p.room.items; long = p.long; seen = p.seen } };

    ghost invariant = { λ p. (length p.room.items ≡ LINE_ROOM) × (p.size ≤ LINE_ROOM) };
}

impl Part {
    /// Of no bytes.
    ///
    /// # Errors
    ///
    /// Where memory ran out.
    pub fn make(alloc: Global) -> Result<Part, NoMemory>
        ensures { IfOk result (IsKept []) }
    {
        let room = vec![in alloc; 0; LINE_ROOM]?;
        Ok(Part {
            room,
            size: 0,
            long: false,
            seen: Seen::nothing(),
        })
    }

    /// Adds bytes.
    pub fn add(&mut self, bytes: &[u8])
        requires { length bytes.now ≤ 65_536 }
        ensures { (before : List ℕ) → IsKept before self.old → IsKept (before ++ bytes.now) self.new }
    {
        let left = LINE_ROOM - self.size;
        let long = is_longer(self.long, left, bytes.len());
        self.seen = self.seen_more(long, bytes);
        let fitting = front_of(bytes, left);
        put_at(&mut self.room, self.size, fitting);
        self.size += fitting.len();
        self.long = long;
    }

    // What the words are with more bytes, where the line is then longer than any right one.
    fn seen_more(&self, long: bool, bytes: &[u8]) -> Seen
        ensures { (before : List ℕ) → IsKept before self.now → long ≡ true → result ≡ seen_of (before ++ bytes.now) }
    {
        let head = self.head();
        if !long {
            return self.seen;
        }
        seen_before(self.long, self.seen, head).with_all(bytes)
    }

    /// Of no bytes again.
    pub fn clear(&mut self)
        ensures { IsKept [] self.new }
    {
        self.size = 0;
        self.long = false;
    }

    /// Whether nothing came of the line.
    pub fn is_empty(&self) -> bool
        ensures { result ≡ (length self.now.head == 0) }
    {
        self.size == 0
    }

    /// The bytes that are kept.
    pub fn head(&self) -> &[u8]
        ensures { result.now ≡ self.now.head }
    {
        &self.room[..self.size]
    }

    /// What the words of a line are that is longer than any right one.
    pub fn seen(&self) -> Seen
        ensures { result ≡ self.now.seen }
    {
        self.seen
    }

    /// Whether the line is longer than any right one.
    pub fn is_long(&self) -> bool
        ensures { result ≡ self.now.long }
    {
        self.long
    }
}

// What the words of the bytes so far are: they are looked at where the line wasn't longer than any right one before.
fn seen_before(long: bool, seen: Seen, head: &[u8]) -> Seen
    ensures { result ≡ (if long then seen else seen_of head.now) }
{
    if long {
        seen
    } else {
        Seen::nothing().with_all(head)
    }
}

// At most so many of the first bytes.
fn front_of(bytes: &[u8], most: usize) -> &[u8]
    ensures { result.now ≡ take most bytes.now }
{
    if bytes.len() < most {
        bytes
    } else {
        &bytes[..most]
    }
}

// Puts bytes at a place.
fn put_at(room: &mut Vec<u8>, at: usize, bytes: &[u8])
    requires { at + length bytes.now ≤ length room.old.items }
    ensures size { length room.new.items ≡ length room.old.items }
    ensures value { take (at + length bytes.now) room.new.items ≡ take at room.old.items ++ bytes.now }
{
    room[at..at + bytes.len()].copy_from_slice(bytes);
}

// Whether a line is longer than any right one, of which so many bytes come where there is room for some.
fn is_longer(long: bool, left: usize, size: usize) -> bool
    ensures { result ≡ (long || nat_lt left size) }
{
    long || left < size
}
