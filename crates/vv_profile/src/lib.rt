//! Capability profiles of volumes: whether what a container offers is enough for what a volume asks for.
#![tactic(auto)]

mod capability;
mod kind;
mod misfit;
mod profile;

pub use capability::Capability;
pub use kind::{Kind, is_at_least, is_at_most, is_equal, is_one_of};
pub use misfit::Misfit;
pub use profile::{Capabilities, complies};

#[cfg(test)]
mod tests;
