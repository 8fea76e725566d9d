//! The language of scripts: one command a line, read and printed.
#![tactic(auto)]

mod commands;
#[cfg(test)]
mod fault_tests;
pub mod laws;
mod printing;
mod reading;
mod script;
#[cfg(test)]
mod tests;
mod words;

pub use commands::{Command, LineFault, ParseFail, ScriptFault};
pub use printing::{put_command, put_task};
pub use script::{SCRIPT_LIMIT, parse_script};
