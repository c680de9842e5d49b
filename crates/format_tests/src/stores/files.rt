//! Files under a folder and standard output, with the system itself.

use lists::Text;
use shelf_io::{FolderShelf, Shelf, ShelfError, Sink, SinkError, StdSink};
use std::alloc::Global;
use std::fs::Permissions;
use std::io::Write;
use std::os::unix::fs::PermissionsExt;
use std::test::Fail;
use std::{fs, io};
use texts::is_name;

/// Why a read is refused, if it is.
fn read_refusal<S: Shelf>(alloc: Global, shelf: &mut S, name: &str) -> Option<ShelfError> {
    if !is_name(name) {
        return None;
    }
    shelf.part(alloc, name, 0, 9).err()
}

/// Why a write is refused, if it is.
fn write_refusal<S: Shelf>(alloc: Global, shelf: &mut S, name: &str) -> Option<ShelfError> {
    if !is_name(name) {
        return None;
    }
    shelf.write(alloc, name, b"x").err()
}

#[test]
fn reads_and_writes_files_under_a_folder(rt: HostRuntime) -> Result<(), Fail> {
    let _ = fs::remove_dir_all(&rt, "shelf_io_read_files");
    fs::create_dir_all(&rt, "shelf_io_read_files/inner")?;
    fs::write(&rt, "shelf_io_read_files/inner/a.ts", b"first text")?;
    let mut shelf = FolderShelf::new(&rt, Text::of(rt.alloc(), "shelf_io_read_files")?);
    shelf.write(rt.alloc(), "inner/a.ts", b"text")?;
    let part = shelf.part(rt.alloc(), "inner/a.ts", 1, 2)?;
    assert_eq!(rt; part.as_slice(), b"ex".as_slice());
    let end = shelf.part(rt.alloc(), "inner/a.ts", 4, 2)?;
    assert!(rt; end.is_empty());
    fs::remove_dir_all(&rt, "shelf_io_read_files")?;
    Ok(())
}

#[test]
fn refuses_names_and_tells_missing_files_from_faults(rt: HostRuntime) -> Result<(), Fail> {
    let _ = fs::remove_dir_all(&rt, "shelf_io_refused_files");
    fs::create_dir_all(&rt, "shelf_io_refused_files/inner")?;
    fs::write(&rt, "shelf_io_refused_files/b", b"abc")?;
    let mut shelf = FolderShelf::new(&rt, Text::of(rt.alloc(), "shelf_io_refused_files")?);
    for (name, read) in [
        ("inner", ShelfError::Fault),
        ("b/below", ShelfError::Fault),
        ("nothing", ShelfError::Missing),
        ("none/below", ShelfError::Missing),
        ("/etc/passwd", ShelfError::Missing),
        ("inner/../b", ShelfError::Missing),
        ("..", ShelfError::Missing),
        ("inner/..", ShelfError::Missing),
    ] {
        assert_eq!(rt;
            read_refusal(rt.alloc(), &mut shelf, name),
            Some(read),
            "{name}"
        );
    }
    for name in [
        "inner",
        "b/below",
        "none/below",
        "/etc/new",
        "inner/../b",
        "..",
        "inner/..",
    ] {
        assert_eq!(rt;
            write_refusal(rt.alloc(), &mut shelf, name),
            Some(ShelfError::Fault),
            "{name}"
        );
    }
    assert_eq!(rt; read_refusal(rt.alloc(), &mut shelf, "b"), None);
    fs::remove_dir_all(&rt, "shelf_io_refused_files")?;
    Ok(())
}

#[test]
fn a_closed_file_is_a_fault(rt: HostRuntime) -> Result<(), Fail> {
    fs::write(&rt, "shelf_io_closed_file", b"abc")?;
    fs::set_permissions(&rt, "shelf_io_closed_file", Permissions::from_mode(0))?;
    let mut shelf = FolderShelf::new(&rt, Text::of(rt.alloc(), ".")?);
    let refused = read_refusal(rt.alloc(), &mut shelf, "shelf_io_closed_file");
    // A user who may read every file reads this one too.
    assert!(rt; refused.is_none() || refused == Some(ShelfError::Fault));
    fs::remove_file(&rt, "shelf_io_closed_file")?;
    Ok(())
}

/// Takes three bytes and no more.
#[derive(Drop)]
struct Narrow {
    room: usize,
}

impl Write for Narrow {
    fn write(&mut self, bytes: &[u8]) -> io::Result<usize> {
        if self.room == 0 {
            return Err(io::Error::from(io::ErrorKind::BrokenPipe));
        }
        let count = bytes.len().min(self.room);
        self.room -= count;
        Ok(count)
    }

    fn flush(&mut self) -> io::Result<()> {
        Ok(())
    }
}

#[test]
fn puts_to_a_writer_of_the_system(rt: HostRuntime) -> Result<(), Fail> {
    let mut sink = StdSink::new(rt.stdout());
    sink.put(b"put to standard output\n")?;
    let mut broken = StdSink::new(Narrow { room: 3 });
    broken.put(b"ab")?;
    assert_eq!(rt; broken.put(b"cd").err(), Some(SinkError::Fault));
    Ok(())
}
