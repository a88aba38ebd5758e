// Spectra: the code's curve for each soil, and a site's own curve.
#![tactic(auto)]

pub mod curve;
pub mod spectrum;
