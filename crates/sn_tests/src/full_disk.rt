//! A file system for tests: the real one, but its files take few bytes at a time, and only so many.
//! Where they take none, no file gets another name.
use std::alloc::Allocator;
use std::fs::{Metadata, OpenFile, OpenOptions};
use std::io::{ErrorKind, Read, Seek, SeekFrom, Write};
use std::{io, rt};

/// The most bytes that a file takes at a time.
const MOST_AT_ONCE: usize = 7;

/// The files of a runtime, each of which takes `room` bytes and then fails so.
#[derive(Drop)]
pub struct FullDisk<'a, R: rt::Files> {
    pub rt: &'a R,
    pub room: usize,
    pub fault: ErrorKind,
}

/// A file that takes few bytes at a time, and only so many.
#[derive(Drop)]
pub struct FullFile<F: Drop> {
    file: F,
    room: usize,
    fault: ErrorKind,
}

impl<F: Read + Drop> Read for FullFile<F> {
    fn read(&mut self, buf: &mut [u8]) -> io::Result<usize> {
        self.file.read(buf)
    }
}

impl<F: Write + Drop> Write for FullFile<F> {
    fn write(&mut self, buf: &[u8]) -> io::Result<usize> {
        if self.room == 0 {
            return Err(io::Error::from(self.fault));
        }
        let most = buf.len().min(MOST_AT_ONCE).min(self.room);
        let n = self.file.write(&buf[..most])?;
        self.room -= n;
        Ok(n)
    }

    fn flush(&mut self) -> io::Result<()> {
        self.file.flush()
    }
}

impl<F: Seek + Drop> Seek for FullFile<F> {
    fn seek(&mut self, to: SeekFrom) -> io::Result<u64> {
        self.file.seek(to)
    }
}

impl<F: OpenFile + Drop> OpenFile for FullFile<F> {
    fn metadata(&self) -> io::Result<Metadata> {
        self.file.metadata()
    }

    fn set_len(&self, size: u64) -> io::Result<()> {
        self.file.set_len(size)
    }

    fn sync_all(&self) -> io::Result<()> {
        self.file.sync_all()
    }

    fn sync_data(&self) -> io::Result<()> {
        self.file.sync_data()
    }
}

impl<'a, R: rt::Files> rt::Files for FullDisk<'a, R> {
    type File = FullFile<R::File>;

    type Dir = R::Dir;

    fn open_file(&self, how: &OpenOptions, path: &str) -> io::Result<FullFile<R::File>> {
        let file = self.rt.open_file(how, path)?;
        Ok(FullFile {
            file,
            room: self.room,
            fault: self.fault,
        })
    }

    fn open_dir(&self, path: &str) -> io::Result<R::Dir> {
        self.rt.open_dir(path)
    }

    fn metadata(&self, path: &str) -> io::Result<Metadata> {
        self.rt.metadata(path)
    }

    fn symlink_metadata(&self, path: &str) -> io::Result<Metadata> {
        self.rt.symlink_metadata(path)
    }

    fn copy(&self, from: &str, to: &str) -> io::Result<u64> {
        self.rt.copy(from, to)
    }

    fn rename(&self, from: &str, to: &str) -> io::Result<()> {
        if self.room == 0 {
            return Err(io::Error::from(self.fault));
        }
        self.rt.rename(from, to)
    }

    fn remove_file(&self, path: &str) -> io::Result<()> {
        self.rt.remove_file(path)
    }

    fn create_dir(&self, path: &str) -> io::Result<()> {
        self.rt.create_dir(path)
    }

    fn remove_dir(&self, path: &str) -> io::Result<()> {
        self.rt.remove_dir(path)
    }

    fn remove_dir_all<B: Allocator>(&self, alloc: B, path: &str) -> io::Result<()> {
        self.rt.remove_dir_all(alloc, path)
    }
}
