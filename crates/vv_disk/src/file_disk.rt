//! A disk over a file of the machine. It tells no content, and counts its faults.
//!
//! Two programs that write to one file would each spoil what the other relies on, so a disk holds the machine's lock on its
//! file from its making on. The lock is of the whole file, and goes when the file closes, so with the disk or with its program.
//! It is advisory: it keeps out other disks over the file, in this program or another, and no program that doesn't ask for it.
ghost use Rattle.std.specs.Prelude.{◌≡◌, ◌≤◌, ◌+◌, ◌↔◌, List, ℕ, Option, None, IsTrue, IsOk, IsErr, IfOk, OnOk, OnErr, length};
ghost use Rattle.vv_units.specs.Causes.{HasCause};
ghost use Rattle.vv_disk.specs.Images.{Elapses, Follows, DiffersWithin, OnlyTold};
ghost use Rattle.vv_disk.specs.FileDisk.{none_told, new_file, broken_file, after_reading, after_writing};

use crate::Disk;
use std::fs::{File, OpenOptions, TryLockError};
use std::io;
use std::marker::Model;
use std::os::unix::fs::FileExt;
use std::rt::Files;
use thiserror::Error;
use vv_units::Failed;

/// Why a file could not be made or opened.
#[derive(Clone, Copy, Debug, PartialEq, Eq, Error)]
pub enum MakeFault {
    #[error("failed")]
    Failed,
    #[error("no memory")]
    NoMemory,
}

/// The file, or none where the disk is broken.
#[derive(Drop)]
pub struct FileDisk {
    file: Option<File>,
    len: u64,
    read_faults: u64,
    write_faults: u64,
}

impl Model for FileDisk {
    ghost use Rattle.vv_disk.specs.FileDisk.{none_told, FileState};

    ghost Value = { FileState };

    ghost use Rattle.vv_disk.specs.FileFields.{shown};

    ghost view = { shown };
}

impl FileDisk {
    /// A disk over a file of this length, which is made anew: what an old file held is gone.
    /// Its length and its name are on the disk for sure.
    /// The disk holds the lock on the file. It takes it before it changes an old file, so where another disk over the file
    /// stands, the answer is `Failed` and the file is as it was.
    pub fn create<R: Files<File = File>>(
        rt: &R,
        path: &str,
        len: u64,
    ) -> Result<FileDisk, MakeFault>
        ensures { IfOk result (λ disk. disk ≡ new_file len) }
    {
        match make(rt, path, len) {
            Ok(file) => Ok(FileDisk {
                file: Some(file),
                len,
                read_faults: 0,
                write_faults: 0,
            }),
            Err(error) => Err(fault_of(error)),
        }
    }

    /// A disk over the file that is there, at the length that it has now.
    /// The disk holds the lock on the file. Where another disk over the file stands, the answer is `Failed`.
    pub fn open<R: Files<File = File>>(rt: &R, path: &str) -> Result<FileDisk, MakeFault>
        ensures { IfOk result (λ disk. disk ≡ new_file disk.size) }
    {
        match open_measured(rt, path) {
            Ok((file, len)) => Ok(FileDisk {
                file: Some(file),
                len,
                read_faults: 0,
                write_faults: 0,
            }),
            Err(error) => Err(fault_of(error)),
        }
    }

    /// A disk of this length without a file, whose every read, write and sync fails.
    pub fn broken(len: u64) -> FileDisk
        ensures { result ≡ broken_file len }
    {
        FileDisk {
            file: None,
            len,
            read_faults: 0,
            write_faults: 0,
        }
    }

    fn count_read(&mut self, ended: io::Result<()>) -> Result<(), Failed>
        ensures after { self.new ≡ after_reading self.old result }
        ensures cause { HasCause self.old.read_faults self.new.read_faults result }
        ensures broken { IsErr ended → IsErr result }
    {
        if ended.is_ok() {
            return Ok(());
        }
        self.read_faults = self.read_faults.saturating_add(1);
        Err(Failed)
    }

    fn count_write(&mut self, ended: io::Result<()>) -> Result<(), Failed>
        ensures after { self.new ≡ after_writing self.old result }
        ensures cause { HasCause self.old.write_faults self.new.write_faults result }
        ensures broken { IsErr ended → IsErr result }
    {
        if ended.is_ok() {
            return Ok(());
        }
        self.write_faults = self.write_faults.saturating_add(1);
        Err(Failed)
    }
}

/// A file of this length, of which the machine has said that it and its name are on the disk. Its lock is taken.
fn make<R: Files<File = File>>(rt: &R, path: &str, len: u64) -> io::Result<File> {
    let file = OpenOptions::new()
        .read(true)
        .write(true)
        .create(true)
        .open(rt, path)?;
    let file = locked(file)?;
    // Only now, since an old file may be another disk's. Grown from no byte, it holds zeros.
    file.set_len(0)?;
    file.set_len(len)?;
    file.sync_all()?;
    sync_folder(rt, path)?;
    Ok(file)
}

/// The file, with its lock taken. Where the lock is another's, that fails at once, and closes the file.
fn locked(file: File) -> io::Result<File> {
    let taken = file.try_lock();
    held(file, taken)
}

/// The file, where its lock was taken.
fn held(file: File, taken: Result<(), TryLockError>) -> io::Result<File>
    ensures { IsOk result ↔ IsOk taken }
{
    match taken {
        Ok(()) => Ok(file),
        Err(error) => Err(error.into()),
    }
}

/// Puts the names in the folder of this path on the disk.
fn sync_folder<R: Files<File = File>>(rt: &R, path: &str) -> io::Result<()> {
    let folder = match path.rsplit_once('/') {
        Some(("", _)) => "/",
        Some((folder, _)) => folder,
        None => ".",
    };
    File::open(rt, folder)?.sync_all()
}

/// The file that is there, with its lock taken, and its length.
fn open_measured<R: Files<File = File>>(rt: &R, path: &str) -> io::Result<(File, u64)> {
    let file = OpenOptions::new().read(true).write(true).open(rt, path)?;
    let file = locked(file)?;
    let len = file.metadata()?.len();
    Ok((file, len))
}

fn fault_of(error: io::Error) -> MakeFault {
    match error.kind() {
        io::ErrorKind::OutOfMemory => MakeFault::NoMemory,
        _ => MakeFault::Failed,
    }
}

fn no_file() -> io::Error {
    io::ErrorKind::NotFound.into()
}

impl Disk for FileDisk {
    ghost size = { λ disk. disk.size };

    ghost content = { λ _. None };

    // What a crash leaves of a file is the machine's word, and not claimed here.
    ghost is_image = { λ _ _. ⊥ };

    ghost moment = { λ _. 0 };

    ghost left_since = { λ _ _ _. ⊥ };

    ghost is_honest = { λ _. ⊥ };

    ghost read_faults = { λ disk. disk.read_faults };

    ghost write_faults = { λ disk. disk.write_faults };

    ghost content_fits = { λ disk c told. absurd (none_told c told) };

    ghost content_is_image = { λ disk honest. absurd honest };

    ghost image_fits = { λ disk image honest. absurd honest };

    ghost counts_now = { λ disk t image le is. is };

    ghost only_now = { λ disk image left. left };

    ghost counts_later = { λ disk t u image le left. left };

    fn len(&self) -> u64 {
        self.len
    }

    // Of each call it is known too that a broken disk fails it, and that it changes the count of its faults alone.

    fn read(&mut self, at: u64, into: &mut [u8]) -> Result<(), Failed>
        ensures after { self.new ≡ after_reading self.old result }
        ensures broken { IsTrue self.old.is_broken → IsErr result }
        ensures len { self.new.size ≡ self.old.size }
        ensures cause { HasCause self.old.read_faults self.new.read_faults result }
        ensures write_faults { self.new.write_faults ≡ self.old.write_faults }
    {
        let ended = match &self.file {
            Some(file) => file.read_exact_at(into, at),
            None => Err(no_file()),
        };
        self.count_read(ended)
    }

    fn write(&mut self, at: u64, bytes: &[u8]) -> Result<(), Failed>
        ensures after { self.new ≡ after_writing self.old result }
        ensures broken { IsTrue self.old.is_broken → IsErr result }
        ensures len { self.new.size ≡ self.old.size }
        ensures cause { HasCause self.old.write_faults self.new.write_faults result }
        ensures read_faults { self.new.read_faults ≡ self.old.read_faults }
    {
        let ended = match &self.file {
            Some(file) => file.write_all_at(bytes, at),
            None => Err(no_file()),
        };
        self.count_write(ended)
    }

    fn sync(&mut self) -> Result<(), Failed>
        ensures after { self.new ≡ after_writing self.old result }
        ensures broken { IsTrue self.old.is_broken → IsErr result }
        ensures len { self.new.size ≡ self.old.size }
        ensures cause { HasCause self.old.write_faults self.new.write_faults result }
        ensures read_faults { self.new.read_faults ≡ self.old.read_faults }
    {
        let ended = match &self.file {
            Some(file) => file.sync_data(),
            None => Err(no_file()),
        };
        self.count_write(ended)
    }
}
