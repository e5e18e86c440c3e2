// The static library for C, C++ and Rust: each function that the libraries `exports` and `exports_NAME` export, under its name and with its
// contract word for word, as a call of it. `.ci/handed.py --write` makes these files of theirs.
#![tactic(auto)]

mod answer_calls;
mod common_calls;
mod formant_osc_calls;
mod karplus_strong_calls;
mod lfo_calls;
mod noise_generator_calls;
mod numeric_calls;
mod score_calls;
mod supersaw_calls;
mod vco_calls;
mod wavetable_calls;
