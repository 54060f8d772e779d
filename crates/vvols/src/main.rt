//! The program: it reads a script from standard input and writes the replies to standard output, over an array in a file; or it
//! writes a generated script, or what serving one came to.
#![tactic(auto)]

use std::alloc::Global;
use std::fs::File;
use std::process::ExitCode;
use std::rt::{Env, Files};
use std::{env, io};
use vv_disk::{FileDisk, MakeFault};
use vv_io::{Sink, Source, StdSink, StdSource};
use vv_profile::{Capabilities, Capability, Kind, is_at_least, is_at_most, is_equal, is_one_of};
use vv_run::{Status, Wanted, disk_wanted, run};
use vv_units::{Name, NoMemory, Part};

/// The length of a disk that stands for none.
const NO_DISK: u64 = 4096;

fn main(rt: HostRuntime) -> ExitCode {
    let status = match words(&rt) {
        Ok(words) => match disk_for(&rt, &words) {
            Ok(mut disk) => {
                let mut source = StdSource::new(rt.stdin());
                let mut sink = StdSink::new(rt.stdout());
                run_over(rt.alloc(), &words, &mut source, &mut sink, &mut disk)
            }
            Err(NoMemory) => Status::NoMemory,
        },
        Err(error) => match error.kind() {
            io::ErrorKind::OutOfMemory => Status::NoMemory,
            _ => Status::BadWords,
        },
    };
    let _ = match status {
        Status::Damaged(damage) => eprintln!(rt;
            "vvols: damaged {} {} {}",
            part_name(damage.part),
            damage.place,
            damage.found
        ),
        Status::WrongSize { needed, found } => eprintln!(rt; "vvols: wrong size {needed} {found}"),
        _ => match message_of(status) {
            Some(message) => eprintln!(rt; "vvols: {message}"),
            None => Ok(()),
        },
    };
    ExitCode::from(status.code())
}

/// The words of the command line after the program's name.
fn words(rt: &(impl Env + AllocGlobal)) -> io::Result<Vec<String>> {
    let mut words = Vec::new(rt.alloc());
    for word in env::args(rt)?.skip(1) {
        words.push(word)?;
    }
    Ok(words)
}

/// The disk that the words ask for, over the file that the second of them names: a new one for `new` and `load`, one that is
/// there for `run`. One that can't be made or opened is broken, and so is one that isn't asked for, as for `gen`.
fn disk_for<R: Files<File = File>>(rt: &R, words: &[String]) -> Result<FileDisk, NoMemory> {
    let [_, path, ..] = words else {
        return Ok(FileDisk::broken(NO_DISK));
    };
    match disk_wanted(words) {
        Wanted::Create { len } => or_broken(FileDisk::create(rt, path, len), len),
        Wanted::Open => or_broken(FileDisk::open(rt, path), NO_DISK),
        Wanted::Nothing => Ok(FileDisk::broken(NO_DISK)),
    }
}

fn or_broken(made: Result<FileDisk, MakeFault>, len: u64) -> Result<FileDisk, NoMemory> {
    match made {
        Ok(disk) => Ok(disk),
        Err(MakeFault::Failed) => Ok(FileDisk::broken(len)),
        Err(MakeFault::NoMemory) => Err(NoMemory),
    }
}

/// Runs the program, or tells that there is no memory for its capabilities.
fn run_over<S: Source, K: Sink>(
    alloc: Global,
    words: &[String],
    source: &mut S,
    sink: &mut K,
    disk: &mut FileDisk,
) -> Status {
    match run_with_capabilities(alloc, words, source, sink, disk) {
        Ok(status) => status,
        Err(NoMemory) => Status::NoMemory,
    }
}

/// Runs the program with the four capabilities that it knows.
fn run_with_capabilities<S: Source, K: Sink>(
    alloc: Global,
    words: &[String],
    source: &mut S,
    sink: &mut K,
    disk: &mut FileDisk,
) -> Result<Status, NoMemory> {
    let mut capabilities = Vec::new(alloc);
    if let Some(name) = Name::read(alloc, b"min-iops")? {
        let test = Box::new(
            alloc,
            |offered: u64, asked: u64| is_at_least(offered, asked),
        );
        let capability = Capability {
            name,
            kind: Kind::AtLeast,
            test: test.map_err(|_| NoMemory)?,
        };
        capabilities.push(capability).map_err(|_| NoMemory)?;
    }
    if let Some(name) = Name::read(alloc, b"max-latency-us")? {
        let test = Box::new(alloc, |offered: u64, asked: u64| is_at_most(offered, asked));
        let capability = Capability {
            name,
            kind: Kind::AtMost,
            test: test.map_err(|_| NoMemory)?,
        };
        capabilities.push(capability).map_err(|_| NoMemory)?;
    }
    if let Some(name) = Name::read(alloc, b"raid-level")? {
        let test = Box::new(alloc, |offered: u64, asked: u64| is_equal(offered, asked));
        let capability = Capability {
            name,
            kind: Kind::Equal,
            test: test.map_err(|_| NoMemory)?,
        };
        capabilities.push(capability).map_err(|_| NoMemory)?;
    }
    if let Some(name) = Name::read(alloc, b"features")? {
        let test = Box::new(alloc, |offered: u64, asked: u64| is_one_of(offered, asked));
        let capability = Capability {
            name,
            kind: Kind::OneOf,
            test: test.map_err(|_| NoMemory)?,
        };
        capabilities.push(capability).map_err(|_| NoMemory)?;
    }
    let capabilities = Capabilities::of(capabilities);
    Ok(run(alloc, words, source, sink, disk, &capabilities))
}

/// The name of a part of an image.
fn part_name(part: Part) -> &'static str {
    match part {
        Part::Gate => "Gate",
        Part::Header => "Header",
        Part::Length => "Length",
        Part::Area => "Area",
        Part::Rule => "Rule",
        Part::Slot => "Slot",
        Part::Record => "Record",
    }
}

/// What is told on standard error of a status that has no numbers.
fn message_of(status: Status) -> Option<&'static str> {
    match status {
        Status::Done | Status::Damaged(_) | Status::WrongSize { .. } => None,
        Status::BadWords => Some("bad words"),
        Status::SourceFault => Some("source fault"),
        Status::SinkFault => Some("sink fault"),
        Status::NotFormatted => Some("not formatted"),
        Status::DeviceFault => Some("device fault"),
        Status::NoMemory => Some("no memory"),
        Status::TooMuch => Some("too much input"),
    }
}
