//! An open file whose reads are watched.
use crate::line::Progress;
use crate::work::Watch;
use std::fs::{FileTimes, Metadata, OpenFile, Permissions};
use std::io::{self, Eprint, Read, Seek, SeekFrom, Write};
use std::time::Clock;

/// An open file that reports the bytes read to a `Progress`.
pub struct WatchedFile<'a, F, R> {
    file: F,
    progress: &'a Progress<'a, R>,
    watch: Watch,
}

impl<F: Drop, R> Drop for WatchedFile<'_, F, R> {
    fn drop(self) {
        let WatchedFile {
            file: _,
            progress: _,
            watch: _,
        } = self;
    }
}

impl<'a, F, R> WatchedFile<'a, F, R> {
    /// Creates a watched file. `watch` is what its bytes contain.
    pub(crate) fn new(file: F, progress: &'a Progress<'a, R>, watch: Watch) -> Self {
        WatchedFile {
            file,
            progress,
            watch,
        }
    }

    /// Returns the wrapped file.
    pub fn inner(&self) -> &F {
        &self.file
    }
}

impl<F: Read, R: Clock + Eprint> Read for WatchedFile<'_, F, R> {
    fn read(&mut self, buf: &mut [u8]) -> io::Result<usize> {
        let read = self.file.read(buf);
        if let Ok(count) = &read
            && let Some(bytes) = buf.get(..*count)
        {
            self.progress.note_read(self.watch, bytes);
        }
        read
    }
}

impl<F: Write, R> Write for WatchedFile<'_, F, R> {
    fn write(&mut self, buf: &[u8]) -> io::Result<usize> {
        self.file.write(buf)
    }

    fn flush(&mut self) -> io::Result<()> {
        self.file.flush()
    }
}

impl<F: Seek, R> Seek for WatchedFile<'_, F, R> {
    fn seek(&mut self, to: SeekFrom) -> io::Result<u64> {
        self.file.seek(to)
    }
}

impl<F: OpenFile, R> OpenFile for WatchedFile<'_, F, R> {
    fn metadata(&self) -> io::Result<Metadata> {
        self.file.metadata()
    }

    fn set_len(&self, size: u64) -> io::Result<()> {
        self.file.set_len(size)
    }

    fn sync_all(&self) -> io::Result<()> {
        self.file.sync_all()
    }

    fn sync_data(&self) -> io::Result<()> {
        self.file.sync_data()
    }

    fn set_permissions(&self, perm: Permissions) -> io::Result<()> {
        self.file.set_permissions(perm)
    }

    fn set_times(&self, times: FileTimes) -> io::Result<()> {
        self.file.set_times(times)
    }
}
