//! Lists of entries: a plain one, and lists over counted pages, of which several may share a page.
#![tactic(auto)]

mod chunk_map;
mod ended_pages;
mod page;
mod page_room;
mod page_store;
mod paged_map;
#[cfg(test)]
mod tests;

pub use chunk_map::ChunkMap;
pub use ended_pages::EndedPages;
pub use page_room::PageRoom;
pub use page_store::PageStore;
pub use paged_map::PagedMap;
pub use vv_units::Steps;
