//! Packs certificates: leaves share their prices.
#![tactic(auto)]

mod packing;
mod vector_choice;

pub use packing::pack;
