//! Which calls of a desk in memory fail, and how many did.

ghost use Rattle.std.specs.Prelude.{◌≡◌, ◌≤◌, ◌+◌, [], if◌then◌else◌, min};
ghost use Rattle.escrow_desk.specs.Counts.{last_count};
ghost use Rattle.escrow_desk.specs.Memory.{is_next_listed, listed_below};

/// The calls of a desk in memory: which are to fail, how many came, and how many failed.
#[derive(Debug, Drop)]
pub struct Tally {
    failing: Vec<u64>,
    calls: u64,
    listed_reads: u64,
    listed_writes: u64,
    starved: u64,
    absences: u64,
    pub ghost tallied: { listed_reads + listed_writes ≡ listed_below failing.items calls },
}

// Numbers a call, and answers whether it is listed.
fn number_call(failing: &[u64], calls: &mut u64) -> bool
    ensures listed { result ≡ is_next_listed failing.now calls.old }
    ensures calls { calls.new ≡ min (calls.old + 1) last_count }
    ensures tallied { listed_below failing.now calls.new ≡ listed_below failing.now calls.old + (if result then 1 else 0) }
{
    let number = *calls;
    if number == u64::MAX {
        return false;
    }
    *calls = number + 1;
    failing.contains(&number)
}

impl Tally {
    /// No call came yet.
    pub fn new(failing: Vec<u64>) -> Tally
        ensures failing { result.failing.items ≡ failing.items }
        ensures calls { result.calls ≡ 0 }
        ensures reads { result.listed_reads ≡ 0 }
        ensures writes { result.listed_writes ≡ 0 }
        ensures starved { result.starved ≡ 0 }
        ensures absences { result.absences ≡ 0 }
    {
        Tally {
            failing,
            calls: 0,
            listed_reads: 0,
            listed_writes: 0,
            starved: 0,
            absences: 0,
        }
    }

    /// Numbers a read, and answers whether it is to fail.
    pub fn fails_read(&mut self) -> bool
        ensures listed { result ≡ is_next_listed self.old.failing.items self.old.calls }
        ensures calls { self.new.calls ≡ min (self.old.calls + 1) last_count }
        ensures failing { self.new.failing ≡ self.old.failing }
        ensures reads { self.new.listed_reads ≡ self.old.listed_reads + (if result then 1 else 0) }
        ensures writes { self.new.listed_writes ≡ self.old.listed_writes }
        ensures starved { self.new.starved ≡ self.old.starved }
        ensures absences { self.new.absences ≡ self.old.absences }
    {
        let listed = number_call(self.failing.as_slice(), &mut self.calls);
        if listed {
            self.listed_reads += 1;
        }
        listed
    }

    /// Numbers a call that is no read, and answers whether it is to fail.
    pub fn fails_write(&mut self) -> bool
        ensures listed { result ≡ is_next_listed self.old.failing.items self.old.calls }
        ensures calls { self.new.calls ≡ min (self.old.calls + 1) last_count }
        ensures failing { self.new.failing ≡ self.old.failing }
        ensures writes { self.new.listed_writes ≡ self.old.listed_writes + (if result then 1 else 0) }
        ensures reads { self.new.listed_reads ≡ self.old.listed_reads }
        ensures starved { self.new.starved ≡ self.old.starved }
        ensures absences { self.new.absences ≡ self.old.absences }
    {
        let listed = number_call(self.failing.as_slice(), &mut self.calls);
        if listed {
            self.listed_writes += 1;
        }
        listed
    }

    /// How many calls came.
    pub fn calls(&self) -> u64
        ensures value { result ≡ self.now.calls }
        ensures tallied { self.now.listed_reads + self.now.listed_writes ≡ listed_below self.now.failing.items self.now.calls }
    {
        self.calls
    }

    /// How many growths found no memory.
    pub fn starved(&self) -> u64
        ensures value { result ≡ self.now.starved }
        ensures tallied { self.now.listed_reads + self.now.listed_writes ≡ listed_below self.now.failing.items self.now.calls }
    {
        self.starved
    }

    /// A file wasn't there.
    pub fn misses(&mut self)
        ensures rises { self.old.absences ≤ self.new.absences }
        ensures absences { self.new.absences ≡ min (self.old.absences + 1) last_count }
        ensures calls { self.new.calls ≡ self.old.calls }
        ensures failing { self.new.failing ≡ self.old.failing }
        ensures reads { self.new.listed_reads ≡ self.old.listed_reads }
        ensures writes { self.new.listed_writes ≡ self.old.listed_writes }
        ensures starved { self.new.starved ≡ self.old.starved }
    {
        self.absences = self.absences.saturating_add(1);
    }

    /// A growth found no memory.
    pub fn starves(&mut self)
        ensures rises { self.old.starved ≤ self.new.starved }
        ensures starved { self.new.starved ≡ min (self.old.starved + 1) last_count }
        ensures calls { self.new.calls ≡ self.old.calls }
        ensures failing { self.new.failing ≡ self.old.failing }
        ensures reads { self.new.listed_reads ≡ self.old.listed_reads }
        ensures writes { self.new.listed_writes ≡ self.old.listed_writes }
        ensures absences { self.new.absences ≡ self.old.absences }
    {
        self.starved = self.starved.saturating_add(1);
    }
}
