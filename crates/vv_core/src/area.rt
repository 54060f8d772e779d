//! A core as the area of an image.
ghost use Rattle.std.specs.Prelude.{◌≡◌, ◌≤◌, ◌+◌, length, IfOk};
ghost use Rattle.vv_data.specs.Layout.{area_bytes};
ghost use Rattle.vv_area.specs.Spelling.{area_spelling};
ghost use Rattle.vv_area.specs.Lengths.{area_length};
ghost use Rattle.vv_area.specs.Pieces.{bytes_within};

use crate::array_core::Core;
use std::alloc::Global;
use vv_tables::Tables;
use vv_units::NoMemory;

impl Core {
    /// How many bytes its area has, as an image spells it in spelling 2. They fit the area of a half.
    pub fn area_len(&self) -> u64
        ensures len { result ≡ area_length 2 self.now.array.durable }
        ensures all { result ≡ length (area_spelling 2 self.now.array.durable) }
        ensures fits { 8 + result ≤ area_bytes self.now.array.durable.geometry }
    {
        tables_len(&self.tables)
    }

    /// The bytes of its area from `at` on: as many as there is memory given for.
    pub fn area_piece(&self, at: u64, into: &mut [u8])
        requires within { at + length into.old ≤ area_length 2 self.now.array.durable }
        ensures piece { into.new ≡ bytes_within at (length into.old) (area_spelling 2 self.now.array.durable) }
    {
        vv_spell::area_piece(&self.tables, at, into);
    }

    /// Its whole area.
    pub fn to_area(&self, alloc: Global) -> Result<Vec<u8>, NoMemory>
        ensures { IfOk result (λ bytes. bytes.items ≡ area_spelling 2 self.now.array.durable) }
    {
        whole_area(alloc, &self.tables)
    }
}

/// The whole area of tables.
fn whole_area(alloc: Global, tables: &Tables) -> Result<Vec<u8>, NoMemory>
    ensures { IfOk result (λ bytes. bytes.items ≡ area_spelling 2 tables.now.durable) }
{
    let mut bytes = zeros(alloc, tables_len(tables) as usize)?;
    vv_spell::area_piece(tables, 0, bytes.as_mut_slice());
    Ok(bytes)
}

/// So many zeros.
fn zeros(alloc: Global, count: usize) -> Result<Vec<u8>, NoMemory>
    ensures { IfOk result (λ bytes. length bytes.items ≡ count) }
{
    vec![in alloc; 0; count].map_err(|_| NoMemory)
}

/// How many bytes the area of tables has. They are well-formed, so it fits the area of a half.
fn tables_len(tables: &Tables) -> u64
    ensures len { result ≡ area_length 2 tables.now.durable }
    ensures all { result ≡ length (area_spelling 2 tables.now.durable) }
    ensures fits { 8 + result ≤ area_bytes tables.now.durable.geometry }
{
    let _well_formed = tables.lsn();
    vv_spell::area_len(tables)
}
