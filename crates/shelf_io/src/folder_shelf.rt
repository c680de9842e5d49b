//! A store of files under a folder.

ghost use Rattle.std.specs.Prelude.{◌≡◌, ◌≤◌, length, [], IfOk, IsTrue, None, Err, true};
ghost use Rattle.text_terms.specs.Names.{is_name};
ghost use Rattle.shelf_terms.specs.Counts.{counted_read, counted_write, no_counts};
ghost use Rattle.shelf_terms.specs.Causes.{ReadCauses, WriteCauses};
ghost use Rattle.shelf_io.specs.Events.{after_read, after_handing};
ghost use Rattle.shelf_io.specs.Folder.{leaves_folder};
ghost use Rattle.shelf_io.specs.Reads.{PartGives, part_failed, part_missed};
ghost use Rattle.shelf_io.specs.Writes.{WriteGives, write_failed};

use crate::counts::Counts;
use crate::errors::ShelfError;
use crate::folder_name::leaves_folder;
use crate::shelf::Shelf;
use lists::Text;
use records::Record;
use std::alloc::{AllocError, Global};
use std::fs::File;
use std::io::{Read, Seek};
use std::marker::Model;
use std::rt::Files;
use std::{fs, io};

/// A store of files under a folder, which tells no contents: what it reads and writes is the system's.
///
/// It refuses a name that leaves the folder without touching the disk. Only a file that is not there is
/// missing; every other error of the system is a fault, but for want of memory.
#[derive(Drop)]
pub struct FolderShelf<R: Files + Drop> {
    runtime: R,
    folder: Text,
    counts: Counts,
    events: Record,
}

impl<R: Files + Drop> Model for FolderShelf<R> {
    ghost use Rattle.shelf_io.specs.Folder.{FolderView, folder_code};

    ghost Value = { FolderView };

    ghost coded = { folder_code };

    ghost view = { λ s. record { counts = s.counts; events = s.events.events } };
}

impl<R: Files + Drop> FolderShelf<R> {
    /// The files under this folder. Nothing is read yet.
    pub fn new(runtime: R, folder: Text) -> Self
        ensures { result ≡ record { counts = no_counts; events = [] } }
    {
        FolderShelf {
            runtime,
            folder,
            counts: Counts::new(),
            events: Record::new(),
        }
    }
}

impl<R: Files + Drop> Shelf for FolderShelf<R> {
    ghost use Rattle.std.specs.Prelude.{None};

    ghost store = { λ s. record { told = None; counts = s.counts; events = s.events } };

    fn part(
        &mut self,
        alloc: Global,
        name: &str,
        from: u64,
        most: usize,
    ) -> Result<Vec<u8>, ShelfError>
        requires name { IsTrue (is_name name.now) }
        requires some { 1 ≤ most }
        ensures most { IfOk result (λ part. length part.items ≤ most) }
        ensures causes { ReadCauses self.old.counts self.new.counts name.now (part_failed result)
            (part_missed result) }
        ensures counts { self.new.counts
            ≡ counted_read self.old.counts name.now (part_failed result) (part_missed result) }
        ensures events { self.new.events
            ≡ after_read (λ part. part.items) self.old.events name.now from most result }
        ensures refused { leaves_folder name.now ≡ true → result ≡ Err ShelfError.Missing }
    {
        if leaves_folder(name) {
            self.counts.missed();
            self.events.missed(name);
            return Err(ShelfError::Missing);
        }
        let Ok((path, mut part)) = room_for(alloc, self.folder.as_str(), name, most) else {
            self.events.failed(name);
            return Err(ShelfError::Memory);
        };
        match read_at(&self.runtime, path.as_str(), from, part.as_mut_slice()) {
            Ok(count) => {
                part.truncate(count);
                self.events.gave(name, from, most, part.as_slice());
                Ok(part)
            }
            Err(error) => match error.kind() {
                io::ErrorKind::NotFound => {
                    self.counts.missed();
                    self.events.missed(name);
                    Err(ShelfError::Missing)
                }
                io::ErrorKind::OutOfMemory => {
                    self.events.failed(name);
                    Err(ShelfError::Memory)
                }
                _ => {
                    self.counts.read_failed(name);
                    self.events.failed(name);
                    Err(ShelfError::Fault)
                }
            },
        }
    }

    fn write(&mut self, alloc: Global, name: &str, bytes: &[u8]) -> Result<(), ShelfError>
        requires { IsTrue (is_name name.now) }
        ensures never_missing { result ≡ Err ShelfError.Missing → ⊥ }
        ensures causes { WriteCauses self.old.counts self.new.counts (write_failed result) }
        ensures counts { self.new.counts ≡ counted_write self.old.counts (write_failed result) }
        ensures events { self.new.events ≡ after_handing self.old.events name.now bytes.now result }
        ensures refused { leaves_folder name.now ≡ true → result ≡ Err ShelfError.Fault }
    {
        if leaves_folder(name) {
            self.counts.write_failed();
            self.events.refused(name, bytes);
            return Err(ShelfError::Fault);
        }
        let Ok(path) = path_of(alloc, self.folder.as_str(), name) else {
            self.events.refused(name, bytes);
            return Err(ShelfError::Memory);
        };
        match fs::write(&self.runtime, path.as_str(), bytes) {
            Ok(()) => {
                self.events.took(name, bytes);
                Ok(())
            }
            Err(error) => {
                self.events.refused(name, bytes);
                match error.kind() {
                    io::ErrorKind::OutOfMemory => Err(ShelfError::Memory),
                    _ => {
                        self.counts.write_failed();
                        Err(ShelfError::Fault)
                    }
                }
            }
        }
    }
}

/// The path of a name below the folder, and room for so many bytes of its file.
fn room_for(
    alloc: Global,
    folder: &str,
    name: &str,
    most: usize,
) -> Result<(String, Vec<u8>), AllocError>
    ensures { IfOk result (λ room. length room.1.items ≡ most) }
{
    let path = path_of(alloc, folder, name)?;
    let part = vec![in alloc; 0u8; most]?;
    Ok((path, part))
}

/// The path of a name below the folder.
fn path_of(alloc: Global, folder: &str, name: &str) -> Result<String, AllocError> {
    let mut path = String::from_str(alloc, folder)?;
    path.push('/')?;
    path.push_str(name)?;
    Ok(path)
}

/// Reads bytes of the file from a place on, and says how many.
fn read_at<R: Files>(runtime: &R, path: &str, from: u64, buffer: &mut [u8]) -> io::Result<usize>
    ensures { IfOk result (λ count. count ≤ length buffer.old) }
{
    let mut file = File::open(runtime, path)?;
    file.seek(io::SeekFrom::Start(from))?;
    file.read(buffer)
}
