//! The end of a shelf.
ghost use Rattle.std.specs.Prelude.{map, ◌++◌};
ghost use Rattle.vv_entries.specs.Owners.{AreAllLists};
ghost use Rattle.vv_vols.specs.Rows.{volume_map, held_map};

use crate::row::{HeldRow, VolumeRow};
use crate::shelf::Shelf;
use vv_entries::EntryStore;

impl Shelf {
    /// Ends the shelf, with each list that stands.
    pub fn close(self) {
        let Shelf {
            alloc: _,
            geometry: _,
            mut entries,
            volumes,
            held,
            total: _,
            promised: _,
        } = self;
        end_volumes(&mut entries, volumes, &held);
        end_held(&mut entries, held);
    }
}

/// Ends the lists of all volumes.
fn end_volumes(entries: &mut EntryStore, volumes: Vec<VolumeRow>, held: &[HeldRow])
    requires { AreAllLists entries.old.store (map volume_map volumes.items ++ map held_map held.now) }
    ensures { AreAllLists entries.new.store (map held_map held.now) }
{
    let mut volumes = volumes;
    while let Some(row) = volumes.pop() {
        let VolumeRow {
            id: _,
            head: _,
            map,
            allocated: _,
        } = row;
        entries.release(map);
    }
    volumes.destroy_empty();
}

/// Ends all held lists.
fn end_held(entries: &mut EntryStore, held: Vec<HeldRow>)
    requires { AreAllLists entries.old.store (map held_map held.items) }
{
    let mut held = held;
    while let Some(row) = held.pop() {
        let HeldRow {
            number: _,
            map,
            indexes: _,
            is_image: _,
            allocated: _,
        } = row;
        entries.release(map);
    }
    held.destroy_empty();
}
