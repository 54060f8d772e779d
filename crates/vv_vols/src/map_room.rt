//! Memory for lists and for changes of lists.
ghost use Rattle.std.specs.Prelude.{◌≡◌, ◌≤◌, ◌+◌, vec_len, vec_capacity, IfOk, IsSome, Some, None};
ghost use Rattle.vv_vols.specs.Rows.{RoomView, IsListRoom};

use crate::head::Head;
use crate::row::ListedIndexes;
use std::alloc::Global;
use std::marker::Model;
use vv_entries::{Entry, EntryStore};
use vv_map::PageRoom;
use vv_units::NoMemory;

/// Memory for a new list, or for changes in a range of a list. What is left of it may be dropped.
#[derive(Drop)]
pub struct MapRoom {
    pub(crate) pages: PageRoom<Entry>,
    pub(crate) indexes: Vec<u32>,
    pub(crate) head: Option<Head>,
}

impl Model for MapRoom {
    ghost use Rattle.std.specs.Prelude.{◌≡◌, vec_len, vec_capacity};
    ghost use Rattle.vv_vols.specs.Rows.{RoomView};

    ghost Value = { RoomView };

    ghost view = { λ a. record { pages = a.pages.pages; numbers = a.pages.numbers; indexes = vec_capacity a.indexes; head = a.head } };

    ghost invariant = { λ a. vec_len a.indexes ≡ 0 };
}

impl MapRoom {
    /// Memory for a list of so many entries.
    pub(crate) fn for_list(
        alloc: Global,
        entries: &EntryStore,
        chunks: u32,
    ) -> Result<MapRoom, NoMemory>
        ensures good { IfOk result (λ room. IsListRoom chunks room) }
        ensures indexes { IfOk result (λ room. room.indexes ≡ chunks) }
    {
        let pages = entries.room(chunks / 64 + 2)?;
        let Ok(indexes) = Vec::with_capacity(alloc, chunks as usize) else {
            return Err(NoMemory);
        };
        Ok(MapRoom {
            pages,
            indexes,
            head: None,
        })
    }

    /// Memory for changes of so many pages.
    pub(crate) fn for_change(
        alloc: Global,
        entries: &EntryStore,
        pages: u32,
    ) -> Result<MapRoom, NoMemory>
        ensures { IfOk result (λ room. pages ≤ room.pages) }
    {
        let pages = entries.room(pages)?;
        Ok(MapRoom {
            pages,
            indexes: Vec::new(alloc),
            head: None,
        })
    }

    /// The memory for pages.
    pub(crate) fn into_pages(self) -> PageRoom<Entry>
        ensures pages { result.pages ≡ self.pages }
        ensures numbers { result.numbers ≡ self.numbers }
    {
        let MapRoom {
            pages,
            indexes: _,
            head: _,
        } = self;
        pages
    }

    /// The memory for pages, and for as many indexes.
    pub(crate) fn into_list(self) -> ListedIndexes
        ensures empty { vec_len result.indexes ≡ 0 }
        ensures capacity { vec_capacity result.indexes ≡ self.indexes }
        ensures pages { result.room.pages ≡ self.pages }
        ensures numbers { result.room.numbers ≡ self.numbers }
    {
        let MapRoom {
            pages,
            indexes,
            head: _,
        } = self;
        ListedIndexes {
            indexes,
            room: pages,
        }
    }

    /// The same memory, with the head of a volume.
    pub fn with_head(self, head: Head) -> MapRoom
        ensures { result ≡ record self { head = Some head } }
    {
        let MapRoom {
            pages,
            indexes,
            head: _,
        } = self;
        MapRoom {
            pages,
            indexes,
            head: Some(head),
        }
    }

    /// Takes the head out that was put in.
    pub fn take_head(&mut self) -> Head
        requires { IsSome self.old.head }
        ensures head { self.old.head ≡ Some result }
        ensures room { self.new ≡ record self.old { head = None } }
    {
        match self.head.take() {
            Some(head) => head,
            None => unreachable!(),
        }
    }
}
