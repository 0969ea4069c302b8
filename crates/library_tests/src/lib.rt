//! Tests of the lower crates over what they export, where no case can say it. They stand in a crate of their own, since a crate with
//! tests is proved twice. Each file's head says what it tests; `asserting` has what they share. `flat_bus` is proved as it stands, also
//! without the tests.
#![tactic(auto)]

#[cfg(test)]
mod asserting;
#[cfg(test)]
mod devices;
#[cfg(test)]
mod disks;
#[cfg(test)]
mod execution;
mod flat_bus;
#[cfg(test)]
mod instructions;
#[cfg(test)]
mod numbers;
#[cfg(test)]
mod pumping;
#[cfg(test)]
mod source_forms;

pub use flat_bus::FlatBus;
