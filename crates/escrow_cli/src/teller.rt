//! What standard error says while a search works.

use escrow_top::{Sight, Standing, Watcher};
use escrow_units::{Cents, Rate, print_cents, print_rate};
use std::alloc::{AllocError, Global};
use std::rt::Clock;
use std::time::Instant;

// Goes back to the start of a terminal's line, and clears it.
const RENEW: &str = "\r\x1b[K";

// How many seconds pass at least between two lines, where one is renewed.
const RENEWED_AFTER: u64 = 1;

// The same where each stays.
const NEXT_AFTER: u64 = 10;

/// Says on standard error how far a search is, and what is proved so far. On a terminal it renews one line, each second from the second
/// one on, and nothing is left of that in the end; elsewhere a line is added each ten seconds. Where the clock can't be read it says
/// nothing.
#[derive(Drop)]
pub(crate) struct Teller<'a, R> {
    rt: &'a R,
    alloc: Global,
    // Whether standard error is a terminal.
    renews: bool,
    // When it began, where the clock can be read.
    began: Option<Instant>,
    // After how many seconds the next line is due.
    due: u64,
    // The cap that is tried, where one is.
    cap: Option<Rate>,
    // The greatest bound of the search at hand, in cents: what the first tree showed stays so while the second one grows.
    bound: Cents,
    // Whether a line stands on the terminal.
    stands: bool,
}

impl<'a, R: Clock + Eprint> Teller<'a, R> {
    /// One that has said nothing.
    pub(crate) fn new(rt: &'a R, alloc: Global, renews: bool) -> Teller<'a, R> {
        Teller {
            rt,
            alloc,
            renews,
            began: Instant::now(rt).ok(),
            due: if renews { RENEWED_AFTER } else { NEXT_AFTER },
            cap: None,
            bound: Cents(0),
            stands: false,
        }
    }

    // How many whole seconds have passed.
    fn seconds(&self) -> Option<u64> {
        let began = self.began?;
        let passed = began.elapsed(self.rt).ok()?;
        Some(passed.as_secs())
    }

    // Keeps the greatest bound, and says how far the search is, where that is due.
    fn tell(&mut self, standing: &Standing) {
        self.bound = self.bound.max(standing.bound);
        let Some(seconds) = self.seconds() else {
            return;
        };
        if seconds < self.due {
            return;
        }
        let Ok(line) = line_of(self.alloc, self.cap, self.bound, standing) else {
            return;
        };
        // Where standard error can't be written to, the search goes on.
        if self.renews {
            self.due = seconds.saturating_add(RENEWED_AFTER);
            self.stands = true;
            let _ = eprint!(self.rt; "{RENEW}{line}");
        } else {
            self.due = seconds.saturating_add(NEXT_AFTER);
            let _ = eprintln!(self.rt; "{line}");
        }
    }

    // Begins anew for the next search. The line that stands on the terminal is cleared.
    fn end(&mut self) {
        self.bound = Cents(0);
        if self.stands {
            self.stands = false;
            let _ = eprint!(self.rt; "{RENEW}");
        }
    }
}

impl<R: Clock + Eprint> Watcher for Teller<'_, R> {
    fn see(&mut self, sight: Sight) {
        match sight {
            Sight::Cap(cap) => self.cap = Some(cap),
            Sight::Node(standing) => self.tell(&standing),
            Sight::End => self.end(),
        }
    }
}

// How far a search is, and what is proved so far by a bound: what the best plan costs, and how much less a rival may cost.
fn line_of(
    alloc: Global,
    cap: Option<Rate>,
    bound: Cents,
    standing: &Standing,
) -> Result<String, AllocError> {
    let mut line = String::from_str(alloc, "searching")?;
    if standing.again {
        line.push_str(" again")?;
    }
    if let Some(cap) = cap {
        write!(line, " at cap {}", print_rate(cap))?;
    }
    write!(line, ": {} of {} nodes, ", standing.nodes, standing.budget)?;
    let Some(best) = standing.best else {
        line.push_str("no plan yet")?;
        return Ok(line);
    };
    let gap = Cents(best.0.saturating_sub(bound.0));
    write!(
        line,
        "best plan {}, gap {}",
        print_cents(best),
        print_cents(gap)
    )?;
    Ok(line)
}

#[cfg(test)]
mod tests {
    use super::*;
    use std::test::Fail;

    // What is seen, and the line that says it.
    #[derive(Drop)]
    struct Row {
        cap: Option<Rate>,
        standing: Standing,
        line: &'static str,
    }

    // How far a search is in its first or second tree, at a bound, with a best plan of so many cents.
    fn standing(again: bool, bound: u64, best: Option<u64>) -> Standing {
        Standing {
            again,
            nodes: 12,
            budget: 1_000,
            bound: Cents(bound),
            best: best.map(Cents),
        }
    }

    #[test]
    fn lines(rt: HostRuntime) -> Result<(), Fail> {
        let rows = [
            Row {
                cap: None,
                standing: standing(false, 505_050, Some(510_000)),
                line: "searching: 12 of 1000 nodes, best plan 5100.00, gap 49.50",
            },
            // A bound above what the best plan costs leaves no gap.
            Row {
                cap: None,
                standing: standing(true, 510_001, Some(510_000)),
                line: "searching again: 12 of 1000 nodes, best plan 5100.00, gap 0.00",
            },
            Row {
                cap: Some(Rate(3_020)),
                standing: standing(false, 505_050, None),
                line: "searching at cap 3.020: 12 of 1000 nodes, no plan yet",
            },
            Row {
                cap: Some(Rate(0)),
                standing: standing(true, 0, Some(5)),
                line: "searching again at cap 0.000: 12 of 1000 nodes, best plan 0.05, gap 0.05",
            },
        ];
        for row in &rows {
            let line = line_of(rt.alloc(), row.cap, row.standing.bound, &row.standing)?;
            assert_eq!(rt; line.as_str(), row.line);
        }
        Ok(())
    }
}
