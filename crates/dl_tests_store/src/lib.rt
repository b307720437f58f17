// Tests of the store: numbers and intervals, rows, epochs, scans, migration, loads, steps and reads of a pin.
#![tactic(auto)]

#[cfg(test)]
mod epoch;
#[cfg(test)]
mod history;
#[cfg(test)]
mod intervals;
#[cfg(test)]
mod maintenance;
#[cfg(test)]
mod migrate;
#[cfg(test)]
mod numbers;
#[cfg(test)]
mod readers;
#[cfg(test)]
mod row;
#[cfg(test)]
mod scan;
#[cfg(test)]
mod store;
#[cfg(test)]
mod store_limits;
