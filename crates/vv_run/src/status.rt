//! How a run of the program ended.
ghost use Rattle.std.specs.Prelude.{◌≡◌};
ghost use Rattle.vv_run.specs.Status.{code_of};

use vv_units::Damage;

/// How a run of the program ended.
#[derive(Clone, Copy, Debug, PartialEq, Eq)]
pub enum Status {
    /// The script was read to its end, and every reply was written.
    Done,
    /// The words have no form that is known, or a number is outside its limits.
    BadWords,
    /// The source failed. All whole lines before are answered.
    SourceFault,
    /// The sink failed.
    SinkFault,
    /// The image to be opened isn't formatted.
    NotFormatted,
    /// The first thing that is wrong with the image to be opened.
    Damaged(Damage),
    /// The disk failed while the image was made or opened.
    DeviceFault,
    /// There was no memory outside a line's own reply. Nothing was read or written.
    NoMemory,
    /// A byte past 2^30 of the script was taken. All whole lines before it are answered.
    TooMuch,
    /// The disk has another length than the image to be made.
    WrongSize { needed: u64, found: u64 },
}

impl Status {
    /// The exit code of the program.
    pub fn code(&self) -> u8
        ensures { result ≡ code_of self.now }
    {
        match self {
            Status::Done => 0,
            Status::BadWords => 2,
            Status::SourceFault => 3,
            Status::SinkFault => 4,
            Status::NotFormatted => 5,
            Status::Damaged(_) => 6,
            Status::DeviceFault => 7,
            Status::NoMemory => 8,
            Status::TooMuch => 9,
            Status::WrongSize { .. } => 10,
        }
    }
}
