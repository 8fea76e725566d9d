//! Whole sessions over objects in memory, compared with outputs that were written out by hand.
#![tactic(auto)]

#[cfg(test)]
mod answers;
#[cfg(test)]
mod changes;
#[cfg(test)]
mod demo;
#[cfg(test)]
mod many;
#[cfg(test)]
mod placement;
#[cfg(test)]
mod profiles;
#[cfg(test)]
mod rows;
#[cfg(test)]
mod scripts;
