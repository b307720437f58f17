// Laws of the store's definitions: of roots and histories, of maintenance and of readers; and what these definitions give
// on small loads. Nothing stands on this crate.
#![tactic(auto)]

pub mod maintenance_laws;
pub mod reader_laws;
pub mod root_laws;
pub mod worked_examples;
