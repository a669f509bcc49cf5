//! Portfolios of the lines of a book: whether one is permitted, what it costs, pays and yields, whether it meets the needs, and
//! how its cash stands day by day.
#![tactic(auto)]

mod cash;
mod costs;
mod day_balances;
mod laws;
mod plan;
mod points;
mod reach;
mod running;
mod schedules;
mod security_flows;
mod standing;
mod yields;

pub use cash::{add_receipts, first_short, line_receipts, place_of, receipts};
pub use costs::{cost, security_cost};
pub use day_balances::{Balance, balances};
pub use laws::{
    bounds, cost_parts, empty_flows, excluded_laws, flow_days, meets_cost, zero_interest_total,
    zero_yield,
};
pub use plan::{Plan, first_unpermitted};
pub use points::point_excluded;
pub use reach::out_of_reach;
pub use running::{covers, run_up};
pub use schedules::Schedules;
pub use security_flows::flows;
pub use standing::{Standing, plan_standing};
pub use yields::{plan_yield, within_limit};
