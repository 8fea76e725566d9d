//! A script and a capture that nobody has to bring: the packets of a generator, made as they are read.
#![tactic(auto)]

mod gen_files;
pub mod laws;
mod packets;
mod places;
mod reading;
mod records;
mod scripts;

pub use gen_files::GenFiles;

#[cfg(test)]
mod tests;
