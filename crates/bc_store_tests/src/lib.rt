//! Tests of the kept store with ample memory: its start, the room for changes at each limit, and changes published and
//! resolved.
#![tactic(auto)]

#[cfg(test)]
mod changes;
#[cfg(test)]
mod checked;
#[cfg(test)]
mod limit_tests;
#[cfg(test)]
mod publish_tests;
#[cfg(test)]
mod room_tests;
#[cfg(test)]
mod store_tests;
