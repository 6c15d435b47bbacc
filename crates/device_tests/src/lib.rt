//! Tests of devices, of the bus and of the texts of images, schedules and traces, in a crate of their own: a crate with tests is proved twice.
#![tactic(auto)]

#[cfg(test)]
mod bus;
#[cfg(test)]
mod devices;
#[cfg(test)]
mod texts;
#[cfg(test)]
mod traces;
