//! Numbers, names, sizes and identifiers that all crates of the array speak of.
#![tactic(auto)]

mod damage;
mod failure;
mod field;
mod geometry;
mod identifier;
mod item_list;
mod name;
mod numbers;
mod pair_list;
mod steps;
mod volume;

pub use damage::{Damage, DiskFault, Part};
pub use failure::{Failed, NoMemory};
pub use field::{Field, TooMany};
pub use geometry::{Geometry, chunks_of_mb, touched};
pub use identifier::{id_read, id_text, texts_name_their_numbers};
pub use item_list::{ByteList, ItemList};
pub use name::{Key, Name, Note};
pub use numbers::{ContainerId, EndpointId, HostId, Lsn, Place, Secondary, TaskId, VolumeId};
pub use pair_list::PairList;
pub use steps::Steps;
pub use volume::{Need, NeedList, Offer, OfferList, TaskState, VolumeKind, VvolType, Why};

#[cfg(test)]
mod tests;
