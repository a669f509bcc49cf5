//! Outward powers of the discount factor of one index day, in fixed point of 62 fraction bits.
#![tactic(auto)]

mod chain;
mod laws;
mod powers;
mod present_values;
mod root;
mod side;

pub use chain::ONE;
pub use laws::{powers_are_ordered, powers_are_sharp, powers_enclose};
pub use powers::Powers;
pub use present_values::{
    present_values_are_ordered, present_values_are_sharp, present_values_enclose,
};
pub use root::{about_product, about_root, root_high, root_low};
pub use side::Side;
