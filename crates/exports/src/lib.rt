// The library for hosts: each function is a call of the proved crate that its file is named after, under a C name
// with the project's prefix. A contract says what the crate's own function says.
#![tactic(auto)]

pub mod answer_calls;
pub mod common_calls;
pub mod numeric_calls;
