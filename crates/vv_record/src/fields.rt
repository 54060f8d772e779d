//! A reader of fields that tells where one fails.
ghost use Rattle.std.specs.Prelude.{◌≡◌, ◌==◌, length};
ghost use Rattle.vv_record.specs.Reading.{Gives, GivesSeen, number, number_within, bytes as bytes_in};
ghost use Rattle.vv_record.specs.Forms as form;

use crate::record::RecordFault;
use std::alloc::Global;
use std::marker::Model;
use vv_fields::Reader;
use vv_units::{
    ContainerId, EndpointId, HostId, Key, Name, Note, Place, Secondary, TaskId, VolumeId, VvolType,
};

/// Quotas are below.
const QUOTA_LIMIT: u64 = 1 << 32;

/// Reads fields one after the other.
#[derive(Debug, Drop)]
pub struct Fields<'a> {
    reader: Reader<'a>,
    /// How many bytes there are.
    end: usize,
}

impl<'a> Model for Fields<'a> {
    ghost use Rattle.std.specs.Prelude.{◌≡◌, length};
    ghost use Rattle.vv_fields.specs.Fields.{ReaderState};

    ghost Value = { ReaderState };

    ghost view = { λ a. a.reader };

    ghost invariant = { λ a. a.end ≡ length a.reader.bytes };
}

impl<'a> Fields<'a> {
    pub fn new(bytes: &'a [u8]) -> Fields<'a>
        ensures { result ≡ record { bytes = bytes.now; at = 0 } }
    {
        Fields {
            reader: Reader::new(bytes),
            end: bytes.len(),
        }
    }

    /// The place of the next byte.
    pub fn at(&self) -> usize
        ensures { result ≡ self.now.at }
    {
        self.reader.at()
    }

    /// Whether no byte is left.
    pub fn is_at_end(&self) -> bool
        ensures { result ≡ (self.now.at == length self.now.bytes) }
    {
        self.reader.at() == self.end
    }

    #[tactic(auto, unfolding(crate::specs::Reading::number))]
    pub fn u8(&mut self) -> Result<u8, RecordFault>
        ensures { Gives result self.new (number 1 self.old) }
    {
        match self.reader.u8() {
            Some(value) => Ok(value as u8),
            None => Err(RecordFault::Bad { at: self.end }),
        }
    }

    #[tactic(auto, unfolding(crate::specs::Reading::number))]
    pub fn u16(&mut self) -> Result<u16, RecordFault>
        ensures { Gives result self.new (number 2 self.old) }
    {
        match self.reader.u16() {
            Some(value) => Ok(value as u16),
            None => Err(RecordFault::Bad { at: self.end }),
        }
    }

    #[tactic(auto, unfolding(crate::specs::Reading::number))]
    pub fn u32(&mut self) -> Result<u32, RecordFault>
        ensures { Gives result self.new (number 4 self.old) }
    {
        match self.reader.u32() {
            Some(value) => Ok(value as u32),
            None => Err(RecordFault::Bad { at: self.end }),
        }
    }

    #[tactic(auto, unfolding(crate::specs::Reading::number))]
    pub fn u64(&mut self) -> Result<u64, RecordFault>
        ensures { Gives result self.new (number 8 self.old) }
    {
        match self.reader.u64() {
            Some(value) => Ok(value),
            None => Err(RecordFault::Bad { at: self.end }),
        }
    }

    /// So many bytes.
    #[tactic(auto, unfolding(crate::specs::Reading::bytes))]
    pub fn bytes(&mut self, n: usize) -> Result<&'a [u8], RecordFault>
        ensures { GivesSeen (λ bytes. bytes.now) result self.new (bytes_in n self.old) }
    {
        match self.reader.take(n) {
            Some(bytes) => Ok(bytes),
            None => Err(RecordFault::Bad { at: self.end }),
        }
    }

    /// A number of one byte from `low` to `high`.
    #[tactic(auto, unfolding(crate::specs::Reading::number_within, crate::specs::Reading::allowed))]
    pub fn u8_within(&mut self, low: u8, high: u8) -> Result<u8, RecordFault>
        ensures { Gives result self.new (number_within 1 low high self.old) }
    {
        let at = self.at();
        let value = self.u8()?;
        if low <= value && value <= high {
            Ok(value)
        } else {
            Err(RecordFault::Bad { at })
        }
    }

    /// A number of 2 bytes from `low` to `high`.
    #[tactic(auto, unfolding(crate::specs::Reading::number_within, crate::specs::Reading::allowed))]
    pub fn u16_within(&mut self, low: u16, high: u16) -> Result<u16, RecordFault>
        ensures { Gives result self.new (number_within 2 low high self.old) }
    {
        let at = self.at();
        let value = self.u16()?;
        if low <= value && value <= high {
            Ok(value)
        } else {
            Err(RecordFault::Bad { at })
        }
    }

    /// A number of 4 bytes from `low` to `high`.
    #[tactic(auto, unfolding(crate::specs::Reading::number_within, crate::specs::Reading::allowed))]
    pub fn u32_within(&mut self, low: u32, high: u32) -> Result<u32, RecordFault>
        ensures { Gives result self.new (number_within 4 low high self.old) }
    {
        let at = self.at();
        let value = self.u32()?;
        if low <= value && value <= high {
            Ok(value)
        } else {
            Err(RecordFault::Bad { at })
        }
    }

    /// A quota, which is below 2^32.
    #[tactic(auto, unfolding(crate::specs::Forms::quota, crate::specs::Reading::allowed))]
    pub fn quota(&mut self) -> Result<u64, RecordFault>
        ensures { Gives result self.new (form.quota self.old) }
    {
        let at = self.at();
        let value = self.u64()?;
        if value < QUOTA_LIMIT {
            Ok(value)
        } else {
            Err(RecordFault::Bad { at })
        }
    }

    #[tactic(auto, unfolding(crate::specs::Forms::volume))]
    pub fn volume(&mut self) -> Result<VolumeId, RecordFault>
        ensures { Gives result self.new (form.volume self.old) }
    {
        Ok(VolumeId(self.u64()?))
    }

    #[tactic(auto, unfolding(crate::specs::Forms::container))]
    pub fn container(&mut self) -> Result<ContainerId, RecordFault>
        ensures { Gives result self.new (form.container self.old) }
    {
        Ok(ContainerId(self.u64()?))
    }

    #[tactic(auto, unfolding(crate::specs::Forms::task))]
    pub fn task(&mut self) -> Result<TaskId, RecordFault>
        ensures { Gives result self.new (form.task self.old) }
    {
        Ok(TaskId(self.u64()?))
    }

    #[tactic(auto, unfolding(crate::specs::Forms::host))]
    pub fn host(&mut self) -> Result<HostId, RecordFault>
        ensures { Gives result self.new (form.host self.old) }
    {
        Ok(HostId(self.u32_within(1, 64)?))
    }

    /// An endpoint of any number.
    #[tactic(auto, unfolding(crate::specs::Forms::endpoint))]
    pub fn endpoint(&mut self) -> Result<EndpointId, RecordFault>
        ensures { Gives result self.new (form.endpoint self.old) }
    {
        Ok(EndpointId(self.u16()?))
    }

    #[tactic(auto, unfolding(crate::specs::Forms::secondary))]
    pub fn secondary(&mut self) -> Result<Secondary, RecordFault>
        ensures { Gives result self.new (form.secondary self.old) }
    {
        Ok(Secondary(self.u16()?))
    }

    #[tactic(auto, unfolding(crate::specs::Forms::place))]
    pub fn place(&mut self) -> Result<Place, RecordFault>
        ensures { Gives result self.new (form.place self.old) }
    {
        Ok(Place(self.u32()?))
    }

    /// The number of chunks of a volume.
    #[tactic(auto, unfolding(crate::specs::Forms::size))]
    pub fn size(&mut self) -> Result<u32, RecordFault>
        ensures { Gives result self.new (form.size self.old) }
    {
        self.u32_within(1, 1_048_576)
    }

    #[tactic(auto, unfolding(crate::specs::Forms::vvol_type_field))]
    pub fn vvol_type(&mut self) -> Result<VvolType, RecordFault>
        ensures { Gives result self.new (form.vvol_type_field self.old) }
    {
        let value = self.u8_within(0, 4)?;
        Ok(type_numbered(value))
    }

    /// So many bytes that are a name.
    #[tactic(auto, unfolding(crate::specs::Forms::name_bytes, crate::specs::Reading::allowed))]
    pub fn name(&mut self, alloc: Global, length: u8) -> Result<Name, RecordFault>
        ensures { Gives result self.new (form.name_bytes length self.old) }
    {
        let at = self.at();
        let text = self.bytes(length as usize)?;
        match Name::read(alloc, text)? {
            Some(name) => Ok(name),
            None => Err(RecordFault::Bad { at }),
        }
    }

    #[tactic(auto, unfolding(crate::specs::Forms::key, crate::specs::Reading::allowed))]
    pub fn key(&mut self, alloc: Global) -> Result<Key, RecordFault>
        ensures { Gives result self.new (form.key self.old) }
    {
        let length = self.u8_within(1, 32)?;
        let at = self.at();
        let text = self.bytes(length as usize)?;
        match Key::read(alloc, text)? {
            Some(key) => Ok(key),
            None => Err(RecordFault::Bad { at }),
        }
    }

    #[tactic(auto, unfolding(crate::specs::Forms::note, crate::specs::Reading::allowed))]
    pub fn note(&mut self, alloc: Global) -> Result<Note, RecordFault>
        ensures { Gives result self.new (form.note self.old) }
    {
        let length = self.u8_within(0, 96)?;
        let at = self.at();
        let text = self.bytes(length as usize)?;
        match Note::read(alloc, text)? {
            Some(note) => Ok(note),
            None => Err(RecordFault::Bad { at }),
        }
    }

    /// A note behind a 1, or a 0.
    #[tactic(auto, unfolding(crate::specs::Forms::optional_note))]
    pub fn optional_note(&mut self, alloc: Global) -> Result<Option<Note>, RecordFault>
        ensures { Gives result self.new (form.optional_note self.old) }
    {
        let present = self.u8_within(0, 1)?;
        if present == 1 {
            Ok(Some(self.note(alloc)?))
        } else {
            Ok(None)
        }
    }
}

fn type_numbered(value: u8) -> VvolType
    ensures { result ≡ form.type_numbered value }
{
    match value {
        0 => VvolType::Config,
        1 => VvolType::Data,
        2 => VvolType::Swap,
        3 => VvolType::Memory,
        _ => VvolType::Other,
    }
}
