//! The search of the greatest cap at which an escrow is found, by halves.

ghost use Rattle.std.specs.Prelude.{◌≡◌, ◌<◌, ◌≤◌, ◌↔◌, ◌++◌, ◌∷◌, [], None, Some, IfSome, IsSome, if◌then◌else◌};
ghost use Rattle.rate_table.specs.Table.{IsTableRate};
ghost use Rattle.rate_cap.specs.Halving.{middle_of, next_of};
ghost use Rattle.rate_cap.specs.Search.{IsBest, IsCapUpTo, IsNext, IsSearch, IsSettled, SearchesEndAtHundredths, SearchesEndAtZero, tells};

use arrayvec::ArrayVec;
use escrow_units::{GREATEST_RATE, Rate};
use std::marker::Model;

// The most caps that are told: the top, 0, and twelve middles, since 30 percent has 3,000 hundredths, which is less than 2^12.
const MOST_TELLS: usize = 14;

// One hundredth of a percentage point, in thousandths.
const HUNDREDTH: u32 = 10;

/// The search of the greatest common cap at which an escrow is found, by halves. It asks for a cap and is told whether an escrow
/// is found at it: first the top, then 0, and then the middle of the greatest found and the least not found, rounded down to a
/// hundredth of a percentage point. It takes no memory.
///
/// Contracts see the top, the caps that were told as found, and those that were told as not found, in the order of telling.
#[derive(Debug, Drop)]
pub struct CapSearch {
    top: Rate,
    found: ArrayVec<Rate, MOST_TELLS>,
    not_found: ArrayVec<Rate, MOST_TELLS>,
}

impl Model for CapSearch {
    ghost use Rattle.rate_cap.specs.Halving.{IsUnderWay};
    ghost use Rattle.rate_cap.specs.Search.{CapsTold};

    ghost Value = { CapsTold };

    ghost view = { λ s. record { top = s.top; found = s.found.items; not_found = s.not_found.items } };

    ghost invariant = { λ s. IsUnderWay (record { top = s.top; found = s.found.items; not_found = s.not_found.items }) };
}

// The middle of two caps, rounded down to a hundredth; none where they are one hundredth apart.
fn middle_of_caps(low: Rate, high: Rate) -> Option<Rate>
    requires low { low.0 ≤ GREATEST_RATE }
    requires high { high.0 ≤ GREATEST_RATE }
    ensures { result ≡ middle_of low high }
{
    if high.0 <= low.0 + HUNDREDTH {
        return None;
    }
    Some(Rate((low.0 + high.0) / (2 * HUNDREDTH) * HUNDREDTH))
}

// The cap that is asked next, by the top, the last found and the last not found.
fn next_cap(top: Rate, low: Option<Rate>, high: Option<Rate>) -> Option<Rate>
    requires low { IfSome low (λ low. low.0 ≤ GREATEST_RATE) }
    requires high { IfSome high (λ high. high.0 ≤ GREATEST_RATE) }
    ensures { result ≡ next_of top low high }
{
    match (low, high) {
        (None, None) => Some(top),
        (Some(_), None) => None,
        (None, Some(high)) if high.0 == 0 => None,
        (None, Some(_)) => Some(Rate(0)),
        (Some(low), Some(high)) => middle_of_caps(low, high),
    }
}

impl CapSearch {
    /// A search below a top, which is a whole hundredth of a percentage point from 0 to 30 percent. Nothing is told yet.
    pub fn start(top: Rate) -> CapSearch
        requires { IsTableRate top }
        ensures { result ≡ record { top = top; found = []; not_found = [] } }
    {
        CapSearch {
            top,
            found: ArrayVec::new(),
            not_found: ArrayVec::new(),
        }
    }

    /// The cap to try next: a whole hundredth of a percentage point, up to the top. None where the top was found, 0 wasn't found,
    /// or a found cap and one that wasn't are one hundredth apart; so it is after fourteen tells at the latest.
    pub fn ask(&self) -> Option<Rate>
        ensures next { IfSome result (IsNext self.now) }
        ensures cap { IfSome result (IsCapUpTo self.now.top) }
        ensures settled { result ≡ None ↔ IsSettled self.now }
        ensures few { IsSome result → tells self.now < 14 }
        ensures kept { IsSearch self.now }
    {
        next_cap(
            self.top,
            self.found.last().copied(),
            self.not_found.last().copied(),
        )
    }

    /// Tells whether an escrow is found at the cap that [`ask`](CapSearch::ask) gives. It has to give one.
    pub fn tell(&mut self, found: bool)
        requires { ¬ IsSettled self.old }
        ensures { (cap : Rate) → IsNext self.old cap → self.new ≡ (if found then record self.old { found = self.old.found ++ cap ∷ [] } else record self.old { not_found = self.old.not_found ++ cap ∷ [] }) }
    {
        let Some(cap) = self.ask() else {
            unreachable!()
        };
        if found {
            self.found.push(cap);
        } else {
            self.not_found.push(cap);
        }
    }

    /// The greatest cap that was told as found, if one was.
    pub fn best(&self) -> Option<Rate>
        ensures { IsBest self.now.found result }
    {
        self.found.last().copied()
    }
}

/// What a search has come to where nothing more is asked: the greatest found cap is the top, or the next hundredth above it was told
/// as not found; and where none was found, 0 wasn't.
pub fn search_laws()
    ensures hundredths { SearchesEndAtHundredths }
    ensures zero { SearchesEndAtZero }
{}
