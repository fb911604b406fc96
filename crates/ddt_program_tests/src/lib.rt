//! The proved tests of what programs call: the modules `refused`, which `.ci/memory` runs with each growth of memory
//! refused, and a call of each public function of any library that no program calls (`uncalled`).
#![tactic(auto)]

#[cfg(test)]
pub mod command;
#[cfg(test)]
pub mod comparison;
#[cfg(test)]
pub mod daemon;
#[cfg(test)]
pub mod registers;
#[cfg(test)]
pub mod review;
#[cfg(test)]
pub mod uncalled;
