//! Names of the fields of a line, and of the limits that a call may reach.
ghost use Rattle.std.specs.Prelude.{◌≡◌};
ghost use Rattle.vv_units.specs.Names.{field_text};

/// A field of a line, or what there are too many of.
#[derive(Clone, Copy, Debug, PartialEq, Eq)]
pub enum Field {
    Base,
    Binding,
    Call,
    Capabilities,
    Cdb,
    Chunks,
    Container,
    Count,
    Cut,
    Data,
    Endpoint,
    Endpoints,
    First,
    Host,
    Key,
    Last,
    Line,
    Pairs,
    Profile,
    Quota,
    Secondary,
    Shipment,
    SizeInMb,
    Snapshot,
    Source,
    Target,
    Task,
    Value,
    Vvol,
    VvolType,
    Vvols,
}

/// There are as many as the limit allows.
#[derive(Clone, Copy, Debug, PartialEq, Eq)]
pub struct TooMany {
    pub name: Field,
    pub limit: u32,
}

impl Field {
    /// The name as it stands in lines and replies.
    pub fn text(self) -> &'static str
        ensures { result.now ≡ field_text self }
    {
        match self {
            Field::Base => "base",
            Field::Binding => "binding",
            Field::Call => "call",
            Field::Capabilities => "capabilities",
            Field::Cdb => "cdb",
            Field::Chunks => "chunks",
            Field::Container => "container",
            Field::Count => "count",
            Field::Cut => "cut",
            Field::Data => "data",
            Field::Endpoint => "endpoint",
            Field::Endpoints => "endpoints",
            Field::First => "first",
            Field::Host => "host",
            Field::Key => "key",
            Field::Last => "last",
            Field::Line => "line",
            Field::Pairs => "pairs",
            Field::Profile => "profile",
            Field::Quota => "quota",
            Field::Secondary => "secondary",
            Field::Shipment => "shipment",
            Field::SizeInMb => "sizeInMB",
            Field::Snapshot => "snapshot",
            Field::Source => "source",
            Field::Target => "target",
            Field::Task => "task",
            Field::Value => "value",
            Field::Vvol => "vvol",
            Field::VvolType => "vvolType",
            Field::Vvols => "vvols",
        }
    }
}
