//! File names that aren't UTF-8.
use fp_system::{OddNames, list_names, read_names};
use std::alloc::{Alloc, Allocator, Global};
use std::fs::{File, Metadata, OpenOptions};
use std::io::{self, ErrorKind, Read};
use std::rt::Files;

/// A system with one directory, in which these names are. Each ends with a NUL.
#[derive(Drop)]
struct Odd {
    alloc: Global,
    names: &'static [u8],
}

/// The names of the directory that weren't read yet.
#[derive(Drop)]
struct Names {
    left: &'static [u8],
}

impl Read for Names {
    fn read(&mut self, buf: &mut [u8]) -> io::Result<usize> {
        let count = self.left.len();
        if count > buf.len() {
            return Err(unsupported());
        }
        for (to, from) in buf.iter_mut().zip(self.left) {
            *to = *from;
        }
        self.left = &[];
        Ok(count)
    }
}

fn unsupported() -> io::Error {
    io::Error::from(ErrorKind::Unsupported)
}

impl Files for Odd {
    type File = File;

    type Dir = Names;

    fn open_file(&self, _how: &OpenOptions, _path: &str) -> io::Result<File> {
        Err(unsupported())
    }

    fn open_dir(&self, _path: &str) -> io::Result<Names> {
        Ok(Names { left: self.names })
    }

    fn metadata(&self, _path: &str) -> io::Result<Metadata> {
        Err(unsupported())
    }

    fn symlink_metadata(&self, _path: &str) -> io::Result<Metadata> {
        Err(unsupported())
    }

    fn copy(&self, _from: &str, _to: &str) -> io::Result<u64> {
        Err(unsupported())
    }

    fn rename(&self, _from: &str, _to: &str) -> io::Result<()> {
        Err(unsupported())
    }

    fn remove_file(&self, _path: &str) -> io::Result<()> {
        Err(unsupported())
    }

    fn create_dir(&self, _path: &str) -> io::Result<()> {
        Err(unsupported())
    }

    fn remove_dir(&self, _path: &str) -> io::Result<()> {
        Err(unsupported())
    }

    fn remove_dir_all<B: Allocator>(&self, _alloc: B, _path: &str) -> io::Result<()> {
        Err(unsupported())
    }
}

impl Alloc for Odd {
    type A = Global;

    fn alloc(&self) -> Global {
        self.alloc
    }
}

/// Returns whether the directory is listed as `a` and `b`, and whether reading its names errs, as
/// given, if names that aren't UTF-8 are refused.
fn is_listed(alloc: Global, names: &'static [u8], is_error: bool) -> bool {
    let odd = Odd { alloc, names };
    let listed = match list_names(&odd, alloc, "app", ".lock") {
        Ok(names) => {
            let names = names.as_slice();
            names.len() == 2 && names[0].as_str() == "a" && names[1].as_str() == "b"
        }
        Err(_) => false,
    };
    listed && read_names(&odd, alloc, "app", OddNames::Refused).is_err() == is_error
}

#[test]
fn names_that_are_not_utf_8_are_left_out(rt: HostRuntime) {
    let alloc = rt.alloc();
    assert!(rt;
        is_listed(alloc, b"b\0a\0", false)
            && is_listed(alloc, b"b\0.lock\0a\0", false)
            && is_listed(alloc, b"b\0\xff\0a\0", true)
            && is_listed(alloc, b"\xc3\0b\0a\0a\x80\0", true)
    );
}
