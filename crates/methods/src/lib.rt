// The methods: from the floors that count, with their weights, to shears and forces by storey.
#![tactic(auto)]

mod base;
pub mod loads;
pub mod modal;
pub mod modes;
mod motion;
pub mod outcome;
mod scale;
pub mod shapes;
pub mod statics;
mod storeys;
