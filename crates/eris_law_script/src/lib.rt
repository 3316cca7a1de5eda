//! Laws of scripts: what the laws of runs say, said of the bytes of a script.
#![tactic(auto)]

mod law;

pub use law::{every_script_is_good, scripts_are_fit, undisturbed_scripts_answer};
