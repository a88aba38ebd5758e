// The text of the shears and forces of a building's storeys, and of what was refused.
#![tactic(auto)]

mod print;
mod refusal;
mod storeys;
mod text;

pub use print::print_storeys;
pub use refusal::{LINE, print_refusal};
pub use storeys::{Figures, Storeys};
