//! The tables in memory as the bytes of an image's area, in pieces.
#![tactic(auto)]

mod area;
mod bindings;
mod containers;
mod contexts;
mod fields;
mod lengths;
mod runs;
mod tasks;
#[cfg(test)]
mod tests;
mod totals;
mod volumes;
mod window;

pub use area::area_piece;
pub use totals::area_len;
