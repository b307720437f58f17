// Tree witnesses: which sets of existential variables of a query fold into the trees that roles generate.
#![tactic(auto)]

mod asked;
mod atoms;
mod bits;
mod folds;
pub mod laws;
mod masks;
mod rows;
mod table;
mod variables;

pub use masks::part_of;
pub use table::TreeTable;
pub use variables::{bit_of, existential_variables, link_bits};
