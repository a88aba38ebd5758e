// Records of 96 bytes, and what each says.
#![tactic(auto)]

pub mod ordinates;
pub mod read;
pub mod record;
