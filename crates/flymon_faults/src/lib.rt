//! Runs that stop, and runs with packets in flight, over objects in memory.
#![tactic(auto)]

#[cfg(test)]
mod damage;
#[cfg(test)]
mod faults;
#[cfg(test)]
mod flights;
#[cfg(test)]
mod landings;
