//! Whole scripts over a disk in memory: what `run` writes, and how it ends. In a scene `$ ` stands ahead of the words, `> ` ahead
//! of a line of the script, and `< ` ahead of a line that is to be written.
mod containers;
mod ended;
mod generated;
mod hosts;
mod images;
mod limits;
mod lines;
mod restarts;
mod tasks;
mod volumes;

use crate::{Status, Wanted, disk_wanted, run};
use std::alloc::Global;
use std::test::Fail;
use vv_disk::MemDisk;
use vv_io::{MemSink, MemSource};
use vv_profile::{Capabilities, Capability, Kind, is_at_least, is_at_most, is_equal, is_one_of};
use vv_units::Name;

/// The room of a sink, in bytes.
const SINK_ROOM: usize = 16_777_216;

/// The room of the record of a disk, in bytes.
const DISK_ROOM: usize = 67_108_864;

/// The lines of a scene behind a mark.
fn lines_behind(alloc: Global, scene: &str, mark: &str) -> Result<Vec<u8>, Fail> {
    let mut bytes = Vec::new(alloc);
    for line in scene.lines() {
        if let Some(rest) = line.strip_prefix(mark) {
            bytes.extend_from_slice(rest.as_bytes())?;
            bytes.push(b'\n')?;
        }
    }
    Ok(bytes)
}

/// The words that are said in a text.
fn words_of(alloc: Global, text: &str) -> Result<Vec<String>, Fail> {
    let mut words = Vec::new(alloc);
    for word in text.split_whitespace() {
        words.push(word.to_owned(alloc)?)?;
    }
    Ok(words)
}

/// The words of a scene.
fn scene_words(alloc: Global, scene: &str) -> Result<Vec<String>, Fail> {
    for line in scene.lines() {
        if let Some(rest) = line.strip_prefix("$ ") {
            return words_of(alloc, rest);
        }
    }
    Ok(Vec::new(alloc))
}

/// A disk of zeros of the length that words ask for, whose calls with these numbers fail.
fn disk_for(alloc: Global, words: &[String], fail: Vec<u64>) -> Result<MemDisk, Fail> {
    let len = match disk_wanted(words) {
        Wanted::Create { len } => len,
        Wanted::Open => 4096,
        Wanted::Nothing => 0,
    };
    let zeros = vec![in alloc; 0; len as usize]?;
    Ok(MemDisk::new(alloc, zeros, fail, None, DISK_ROOM)?)
}

/// The capabilities that the program knows, as they are named and tested.
fn run_it(
    alloc: Global,
    words: &[String],
    source: &mut MemSource,
    sink: &mut MemSink,
    disk: &mut MemDisk,
) -> Result<Status, Fail> {
    let mut capabilities = Vec::new(alloc);
    if let Some(name) = Name::read(alloc, b"min-iops")? {
        let test = Box::new(
            alloc,
            |offered: u64, asked: u64| is_at_least(offered, asked),
        )?;
        let kind = Kind::AtLeast;
        capabilities.push(Capability { name, kind, test })?;
    }
    if let Some(name) = Name::read(alloc, b"max-latency-us")? {
        let test = Box::new(alloc, |offered: u64, asked: u64| is_at_most(offered, asked))?;
        let kind = Kind::AtMost;
        capabilities.push(Capability { name, kind, test })?;
    }
    if let Some(name) = Name::read(alloc, b"raid-level")? {
        let test = Box::new(alloc, |offered: u64, asked: u64| is_equal(offered, asked))?;
        let kind = Kind::Equal;
        capabilities.push(Capability { name, kind, test })?;
    }
    if let Some(name) = Name::read(alloc, b"features")? {
        let test = Box::new(alloc, |offered: u64, asked: u64| is_one_of(offered, asked))?;
        let kind = Kind::OneOf;
        capabilities.push(Capability { name, kind, test })?;
    }
    let capabilities = Capabilities::of(capabilities);
    Ok(run(alloc, words, source, sink, disk, &capabilities))
}

/// Runs words and a script over a disk, and gives how that ended and what was written.
fn play(
    alloc: Global,
    words: &[String],
    script: Vec<u8>,
    disk: &mut MemDisk,
) -> Result<(Status, MemSink), Fail> {
    let mut source = MemSource::new(script, 4096, Vec::new(alloc));
    let mut sink = MemSink::new(alloc, SINK_ROOM, Vec::new(alloc))?;
    let status = run_it(alloc, words, &mut source, &mut sink, disk)?;
    Ok((status, sink))
}

/// Whether the words and the script of a scene, over a disk, write what the scene tells, and the run ends well.
fn is_told(alloc: Global, scene: &str, disk: &mut MemDisk) -> Result<bool, Fail> {
    let words = scene_words(alloc, scene)?;
    let script = lines_behind(alloc, scene, "> ")?;
    let told = lines_behind(alloc, scene, "< ")?;
    let (status, sink) = play(alloc, words.as_slice(), script, disk)?;
    Ok(status == Status::Done && sink.bytes() == told.as_slice())
}

/// Whether a scene over a disk of zeros goes as it tells.
fn is_played(alloc: Global, scene: &str) -> Result<bool, Fail> {
    let words = scene_words(alloc, scene)?;
    let mut disk = disk_for(alloc, words.as_slice(), Vec::new(alloc))?;
    is_told(alloc, scene, &mut disk)
}
