//! Tests of the top call over objects in memory.
#![tactic(auto)]

#[cfg(test)]
mod calls;
#[cfg(test)]
mod check_tests;
#[cfg(test)]
mod code_tests;
#[cfg(test)]
mod manual_tests;
#[cfg(test)]
mod outside_tests;
#[cfg(test)]
mod serial_tests;
#[cfg(test)]
mod show_tests;
