//! Files that are never synced.
use std::fs::{FileTimes, Metadata, OpenFile, Permissions};
use std::io::{self, Read, Seek, SeekFrom, Write};

/// A file whose sync does nothing. What a case finds is the same, and hundreds of cases don't wait
/// for a disk.
#[derive(Drop)]
pub struct Unsynced<F> {
    file: F,
}

impl<F> Unsynced<F> {
    /// Wraps the file. Its syncs do nothing from now on.
    pub fn new(file: F) -> Self {
        Unsynced { file }
    }

    /// Returns the wrapped file.
    pub fn inner(&self) -> &F {
        &self.file
    }
}

impl<F: Read> Read for Unsynced<F> {
    fn read(&mut self, buf: &mut [u8]) -> io::Result<usize> {
        self.file.read(buf)
    }
}

impl<F: Write> Write for Unsynced<F> {
    fn write(&mut self, buf: &[u8]) -> io::Result<usize> {
        self.file.write(buf)
    }

    fn flush(&mut self) -> io::Result<()> {
        self.file.flush()
    }
}

impl<F: Seek> Seek for Unsynced<F> {
    fn seek(&mut self, to: SeekFrom) -> io::Result<u64> {
        self.file.seek(to)
    }
}

impl<F: OpenFile> OpenFile for Unsynced<F> {
    fn metadata(&self) -> io::Result<Metadata> {
        self.file.metadata()
    }

    fn set_len(&self, size: u64) -> io::Result<()> {
        self.file.set_len(size)
    }

    fn sync_all(&self) -> io::Result<()> {
        Ok(())
    }

    fn sync_data(&self) -> io::Result<()> {
        Ok(())
    }

    fn set_permissions(&self, mode: Permissions) -> io::Result<()> {
        self.file.set_permissions(mode)
    }

    fn set_times(&self, times: FileTimes) -> io::Result<()> {
        self.file.set_times(times)
    }
}
