//! Days, amounts, rates and yields: their texts, their arithmetic and the terms of securities.
#![tactic(auto)]

mod amount;
mod calendar;
mod calendar_laws;
mod closed_days;
mod date_text;
mod day;
mod decimal;
mod denomination;
mod digits;
mod fault;
mod index_start;
mod interest;
mod limits;
mod number_text;
mod price_text;
mod printed;
mod rounding;
mod security;
mod series;
mod settlement;

pub use amount::{Cents, Price8, Rate, YieldUnits};
pub use calendar::{days_between, half_back, index360, plain_date, years_after};
pub use calendar_laws::{date_laws, index_laws, kind_laws, open_day_laws, series_laws, year_laws};
pub use closed_days::ClosedDays;
pub use date_text::{print_day, read_day};
pub use day::Day;
pub use decimal::whole_number;
pub use denomination::{read_cap, read_terms};
pub use fault::NumberFault;
pub use index_start::IndexStart;
pub use interest::{Accrual, earned, face_price, half_coupon};
pub use limits::{
    AMOUNT_LIMIT, FIRST_WAIT, FLOWS_LIMIT, GREATEST_GIVEN_YIELD, GREATEST_INDEX, GREATEST_PRICE,
    GREATEST_RATE, GREATEST_YIELD, LEAST_PRICE, MOST_LINES, MOST_NEED_DATES,
};
pub use number_text::{
    decimal_spelling, read_cents, read_count, read_dollars, read_rate, read_yield,
};
pub use price_text::{price_spelling, read_price};
pub use printed::{print_cents, print_rate, print_yield};
pub use rounding::near;
pub use security::{AskedRate, Flow, Slgs, SlgsKind, StepRule, Terms};
pub use series::{DatesBeside, SeriesDates, dates_beside, series_around};
pub use settlement::is_settlement;
