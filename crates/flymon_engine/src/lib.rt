//! A run of `flymon`: from the words of its command line to the bytes that it writes.
#![tactic(auto)]

mod captures;
mod carry;
mod change_lines;
pub mod laws;
mod lines;
mod machine;
mod opening;
mod pipelined;
mod report;
mod serial;
mod status;
mod stop;
mod top;
mod words;
mod work;

pub use status::Status;
pub use top::run;
