//! Parts of the lines that are free in a dive near a plan.
ghost use Rattle.std.specs.Prelude.{◌≡◌, ◌+◌, ◌<◌, ◌≤◌, All, length};

use crate::draw::Draw;
use cash_table::Plan;
use escrow_units::{MOST_LINES, MOST_NEED_DATES};

// Frees no line.
fn free_none(free: &mut [bool]) {
    for line in 0..free.len() {
        free[line] = false;
    }
}

// Frees the lines whose payments end on one of some need dates, counted from 1, after a start.
fn free_window(free: &mut [bool], ends: &[u16], start: u64, dates: u64)
    requires { length ends.now ≡ length free.old }
{
    for line in 0..free.len() {
        let end = u64::from(ends[line]);
        if start < end && end - start <= dates {
            free[line] = true;
        }
    }
}

// Frees opening cash.
fn free_cash(free: &mut [bool])
    ensures { length free.new ≡ length free.old }
{
    if let Some(cash) = free.get_mut(0) {
        *cash = true;
    }
}

// Frees a number of lines that are drawn.
fn free_drawn(free: &mut [bool], draw: &mut Draw, lines: &[u16], count: u64)
    requires some { 0 < length lines.now }
    requires there { All (λ line. line < length free.old) lines.now }
{
    for _ in 0..count {
        let place = draw.below(lines.len() as u64) as usize;
        free[usize::from(lines[place])] = true;
    }
}

// Frees about one in so many of the lines that a plan buys.
fn free_bought(free: &mut [bool], draw: &mut Draw, plan: &Plan, among: u64)
    requires plan { length plan.now ≡ length free.old }
    requires few { length free.old ≤ MOST_LINES + 1 }
    requires among { 0 < among }
{
    for line in 0..free.len() {
        if plan.get(line as u16) > 0 && draw.below(among) == 0 {
            free[line] = true;
        }
    }
}

// Frees all of some lines but about one in so many, which are drawn.
fn free_all_but(free: &mut [bool], draw: &mut Draw, lines: &[u16], among: u64)
    requires among { 0 < among }
    requires there { All (λ line. line < length free.old) lines.now }
{
    for line in lines {
        free[usize::from(*line)] = draw.below(among) > 0;
    }
}

/// Frees two in three of some lines, which are drawn, and opening cash.
pub(crate) fn free_most(free: &mut [bool], draw: &mut Draw, lines: &[u16])
    requires there { All (λ line. line < length free.old) lines.now }
{
    free_none(free);
    free_all_but(free, draw, lines, 3);
    free_cash(free);
}

// Frees the lines whose payments end within a window that is drawn: 5 to 30 in a hundred of the need dates.
fn free_one_window(free: &mut [bool], draw: &mut Draw, ends: &[u16], dates: u64)
    requires ends { length ends.now ≡ length free.old }
    requires dates { 0 < dates }
    requires few { dates ≤ MOST_NEED_DATES }
{
    let length = (dates * (1 + draw.below(6)) / 20).max(2);
    free_window(free, ends, draw.below(dates), length);
}

// Frees the lines whose payments end within two windows that are drawn: each of a sixteenth of the need dates.
fn free_two_windows(free: &mut [bool], draw: &mut Draw, ends: &[u16], dates: u64)
    requires ends { length ends.now ≡ length free.old }
    requires dates { 0 < dates }
{
    let length = (dates / 16).max(1);
    free_window(free, ends, draw.below(dates), length);
    free_window(free, ends, draw.below(dates), length);
}

/// Frees a part of the lines that can be bought, which is drawn, and opening cash: the lines that end within a window; some lines
/// and a third of those that the plan buys; the lines that end within two narrow windows, and some others; or half of the lines.
pub(crate) fn free_part(
    free: &mut [bool],
    draw: &mut Draw,
    lines: &[u16],
    ends: &[u16],
    plan: &Plan,
    dates: u64,
)
    requires some { 0 < length lines.now }
    requires there { All (λ line. line < length free.old) lines.now }
    requires few { length lines.now ≤ MOST_LINES + 1 }
    requires few_lines { length free.old ≤ MOST_LINES + 1 }
    requires ends { length ends.now ≡ length free.old }
    requires plan { length plan.now ≡ length free.old }
    requires dates { 0 < dates }
    requires few_dates { dates ≤ MOST_NEED_DATES }
{
    free_none(free);
    let choice = draw.below(4);
    let count = 6 + draw.below(lines.len() as u64 / 3 + 1);
    match choice {
        0 => free_one_window(free, draw, ends, dates),
        1 => {
            free_drawn(free, draw, lines, count);
            free_bought(free, draw, plan, 3);
        }
        2 => {
            free_two_windows(free, draw, ends, dates);
            free_drawn(free, draw, lines, count / 3);
        }
        _ => free_all_but(free, draw, lines, 2),
    }
    free_cash(free);
}
