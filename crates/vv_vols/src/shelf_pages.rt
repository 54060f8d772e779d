//! The pages of volumes, for readers of many chunks.
ghost use Rattle.std.specs.Prelude.{◌≡◌, ◌*◌, ◌<◌, map, IsSome, IsTrue};
ghost use Rattle.vv_vols.specs.Shelf.{volume_in, size_in};
ghost use Rattle.vv_vols.specs.Rows.{seen_entry};
ghost use Rattle.vv_vols.specs.Pages.{page_in};

use crate::rows::place_of;
use crate::shelf::Shelf;
use vv_entries::Entry;
use vv_units::VolumeId;

impl Shelf {
    /// The entries of the chunks of a volume from `64 * k` on: 64 of them, or as many as there are.
    pub fn page(&self, id: VolumeId, k: u32) -> &[Entry]
        requires standing { IsSome (volume_in self.now.shelf id.0) }
        requires within { 64 * k < size_in self.now.shelf id.0 }
        ensures { map seen_entry result.now ≡ page_in self.now.shelf id.0 k }
    {
        let at = place_of(&self.volumes, id);
        let row = &self.volumes[at];
        self.entries.page(&row.map, k)
    }

    /// Whether two volumes share their entries of the chunks from `64 * k` on, so that these are equal.
    pub fn same_page(&self, id: VolumeId, other: VolumeId, k: u32) -> bool
        requires standing { IsSome (volume_in self.now.shelf id.0) }
        requires other_standing { IsSome (volume_in self.now.shelf other.0) }
        ensures equal { IsTrue result → page_in self.now.shelf id.0 k ≡ page_in self.now.shelf other.0 k }
        ensures same { id.0 ≡ other.0 → 64 * k < size_in self.now.shelf id.0 → IsTrue result }
    {
        let row = &self.volumes[place_of(&self.volumes, id)];
        let other_row = &self.volumes[place_of(&self.volumes, other)];
        self.entries.same_page(&row.map, &other_row.map, k)
    }
}
