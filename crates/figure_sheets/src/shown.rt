//! What calls come to, as text.

use escrow_units::{Day, Flow, print_day};
use std::alloc::{AllocError, Global};

/// `yes` or `no`.
pub fn shown_yes(alloc: Global, yes: bool) -> Result<String, AllocError> {
    String::from_str(alloc, if yes { "yes" } else { "no" })
}

/// A day, or `none`.
pub fn shown_day(alloc: Global, day: Option<Day>) -> Result<String, AllocError> {
    match day {
        Some(day) => String::from_str(alloc, print_day(day).as_str()),
        None => String::from_str(alloc, "none"),
    }
}

/// Flows, each by its day and its cents, or `none`.
pub fn shown_flows(alloc: Global, flows: &[Flow]) -> Result<String, AllocError> {
    let mut text = String::new(alloc);
    for flow in flows {
        if !text.is_empty() {
            text.push(' ')?;
        }
        let shown = format!(in alloc; "{} {}", print_day(flow.day).as_str(), flow.cents.0)?;
        text.push_str(shown.as_str())?;
    }
    if text.is_empty() {
        text.push_str("none")?;
    }
    Ok(text)
}
