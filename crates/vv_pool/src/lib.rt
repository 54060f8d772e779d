//! The pool: counted places for chunks, fresh places that must be spent, and places that are reserved.
#![tactic(auto)]

mod bits;
mod free_set;
mod fresh;
mod full;
mod place_use;
mod pool;
#[cfg(test)]
mod tests;

pub use fresh::{Fresh, FreshList};
pub use full::Full;
pub use place_use::PlaceUse;
pub use pool::Pool;
pub use vv_units::Steps;
