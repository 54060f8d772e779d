//! The contexts of hosts and the bindings of volumes, as one table that takes all its memory when it is made.
#![tactic(auto)]

mod binding;
mod context;
mod fault;
mod questions_for_plans;
mod rows;
mod table;
#[cfg(test)]
mod tests;

pub use binding::Binding;
pub use fault::BindFault;
pub use table::BindTable;
