//! Memory for lists, and the changes that make, delete, grow and describe volumes and make containers.
ghost use Rattle.std.specs.Prelude.{ℕ, ◌≡◌, ◌+◌, ◌-◌, ◌≤◌, List, [], Option, IfOk, OnOk, OnErr, IsTrue};
ghost use Rattle.std.specs.Option.{option_copied};
ghost use Rattle.vv_units.specs.Pairs.{after_set};
ghost use Rattle.vv_flat.specs.Chunks.{shape_of_tables};
ghost use Rattle.vv_flat.specs.Changes.{MakeContainer, MakeVolume, DeleteVolume, GrowVolume, SetMetadata, metadata_of};
ghost use Rattle.vv_flat.specs.Replay.{fits, replayed};
ghost use Rattle.vv_flat.specs.Fields.{change_has_forms};
ghost use Rattle.vv_units.specs.declared.volume.VolumeKind.TheVariants.{Plain};
ghost use Rattle.vv_vols.specs.Rows.{IsListRoom};
ghost use Rattle.vv_tables.specs.Metadata.{ArePairsAfter};

use crate::tables::Tables;
use std::alloc::Global;
use std::sync::ledger::Ledger;
use vv_container::Container;
use vv_pool::Steps;
use vv_units::{ContainerId, Key, NoMemory, Note, PairList, VolumeId};
use vv_vols::{Head, MapRoom};

impl Tables {
    /// Takes memory for a new list of so many chunks, and for its row. Want of memory leaves the tables as they were.
    pub fn reserve_list(&mut self, chunks: u32) -> Result<MapRoom, NoMemory>
        ensures room { IfOk result (λ room. IsListRoom chunks room) }
        ensures indexes { IfOk result (λ room. room.indexes ≡ chunks) }
        ensures ok { OnOk result (self.new ≡ record self.old { rooms = self.old.rooms + 1 }) }
        ensures err { OnErr result (self.new ≡ self.old) }
    {
        self.shelf.reserve_list(chunks)
    }

    /// Gives back memory that was taken for a list and its row.
    pub fn give_up_list(&mut self, room: MapRoom)
        requires { 1 ≤ self.old.rooms }
        ensures { self.new ≡ record self.old { rooms = self.old.rooms - 1 } }
    {
        self.shelf.give_up_list(room);
    }

    /// Makes a container. Its number is the change's log number, and it is charged for nothing.
    pub fn make_container(&mut self, container: Container)
        requires fits { IsTrue (fits self.old.durable (MakeContainer container.quota container.offered) []) }
        ensures durable { self.new.durable ≡ replayed self.old.durable (MakeContainer container.quota container.offered) [] }
        ensures pages { self.new.pages ≡ self.old.pages }
        ensures rooms { self.new.rooms ≡ self.old.rooms }
    {
        self.lsn += 1;
        self.containers.add(ContainerId(self.lsn), container);
    }

    /// Makes a volume of unmapped chunks. Its number is the change's log number.
    pub fn make_volume(&mut self, chunks: u32, head: Head, room: MapRoom)
        requires fits { IsTrue (fits self.old.durable (MakeVolume head.container.0 head.vtype chunks head.needs) []) }
        requires forms { IsTrue (change_has_forms (MakeVolume head.container.0 head.vtype chunks head.needs)) }
        requires plain { head.kind ≡ Plain }
        requires never { head.reverted ≡ 0 }
        requires bare { head.metadata ≡ [] }
        requires room { IsListRoom chunks room }
        requires rows { 1 ≤ self.old.rooms }
        ensures durable { self.new.durable ≡ replayed self.old.durable (MakeVolume head.container.0 head.vtype chunks head.needs) [] }
        ensures rooms { self.new.rooms + 1 ≡ self.old.rooms }
    {
        self.lsn += 1;
        self.shelf.make(VolumeId(self.lsn), head, chunks, room);
    }

    /// Deletes a volume. Its container is charged for its allocated chunks no longer.
    pub fn delete_volume(&mut self, volume: VolumeId)
        requires fits { IsTrue (fits self.old.durable (DeleteVolume volume.0) []) }
        ensures durable { self.new.durable ≡ replayed self.old.durable (DeleteVolume volume.0) [] }
        ensures rooms { self.new.rooms ≡ self.old.rooms }
    {
        let home = self.home_of(volume);
        let charged = self.charge(home) - u64::from(self.allocated(volume));
        self.lsn += 1;
        self.shelf.delete(volume);
        self.containers.set_charge(home, charged);
    }

    /// Appends unmapped chunks to a volume until it has so many. It takes at most 64 steps.
    pub fn grow_volume<L: Ledger>(
        &mut self,
        volume: VolumeId,
        chunks: u32,
        room: MapRoom,
        steps: &mut Steps<L>,
    )
        requires fits { IsTrue (fits self.old.durable (GrowVolume volume.0 chunks) []) }
        requires room { IsListRoom chunks room }
        requires rows { 1 ≤ self.old.rooms }
        ensures durable { self.new.durable ≡ replayed self.old.durable (GrowVolume volume.0 chunks) [] }
        ensures rooms { self.new.rooms + 1 ≡ self.old.rooms }
        ensures steps { steps.new ≤ steps.old + 64 }
    {
        self.lsn += 1;
        self.shelf.grow(volume, chunks, room, steps);
    }

    /// The metadata of a volume as they are after a note is set at a key, or removed there: for `set_metadata`. They are
    /// a copy, which fails for want of memory alone.
    pub fn pairs_with(
        &self,
        alloc: Global,
        volume: VolumeId,
        key: &Key,
        note: Option<&Note>,
    ) -> Result<PairList, NoMemory>
        ensures { IfOk result (λ pairs. pairs ≡ after_set (metadata_of (shape_of_tables self.now.durable) volume.0) key.now (option_copied note.entry)) }
    {
        let mut pairs = self.pairs_of(alloc, volume)?;
        pairs.set(key_copy(key)?, note_copy(note)?)?;
        Ok(pairs)
    }

    /// A copy of the metadata of a volume: no pair where there is no such volume.
    fn pairs_of(&self, alloc: Global, volume: VolumeId) -> Result<PairList, NoMemory>
        ensures { IfOk result (λ pairs. pairs ≡ metadata_of (shape_of_tables self.now.durable) volume.0) }
    {
        match self.shelf.volume(volume) {
            Some(head) => head.metadata.copy(),
            None => Ok(PairList::new(alloc)),
        }
    }

    /// Replaces the metadata of a volume by what they are after a note is set at a key, or removed there. It doesn't
    /// matter which: for each key and note of which the pairs come, the tables are those after that change.
    pub fn set_metadata(&mut self, volume: VolumeId, pairs: PairList)
        requires set { (key : List ℕ) × ((note : Option (List ℕ)) × ArePairsAfter self.old volume.0 pairs key note) }
        ensures durable { (key : List ℕ) (note : Option (List ℕ)) → ArePairsAfter self.old volume.0 pairs key note
            → self.new.durable ≡ replayed self.old.durable (SetMetadata volume.0 key note) [] }
        ensures pages { self.new.pages ≡ self.old.pages }
        ensures rooms { self.new.rooms ≡ self.old.rooms }
    {
        self.lsn += 1;
        self.shelf.set_pairs(volume, pairs);
    }
}

/// The same key.
fn key_copy(key: &Key) -> Result<Key, NoMemory>
    ensures { IfOk result (λ copy. copy ≡ key.now) }
{
    match key.clone() {
        Ok(copy) => Ok(copy),
        Err(_) => Err(NoMemory),
    }
}

/// The same note, if there is one.
fn note_copy(note: Option<&Note>) -> Result<Option<Note>, NoMemory>
    ensures { IfOk result (λ copy. copy ≡ option_copied note.entry) }
{
    let Some(note) = note else {
        return Ok(None);
    };
    match note.clone() {
        Ok(copy) => Ok(Some(copy)),
        Err(_) => Err(NoMemory),
    }
}
