//! The threads that create new files.
use fp_realroot::{System, Team};
use fp_system::{NewFile, Work};
use std::thread::Threads;

/// The permission to start threads, and the system that creates new files if it isn't the host's
/// own.
pub struct Crew<'a, T> {
    /// The permission to start threads.
    pub team: Team<T>,
    maker: Option<&'a T>,
}

impl<T> Drop for Crew<'_, T> {
    fn drop(self) {
        let Crew { team: _, maker: _ } = self;
    }
}

impl<'a, T: Threads> Crew<'a, T> {
    /// Creates a crew whose files are created by the host's own system.
    pub fn of(threads: &T) -> Self {
        Crew {
            team: Team::of(threads),
            maker: None,
        }
    }

    /// Creates a crew whose files are created by this system.
    pub fn with(maker: &'a T) -> Self {
        Crew {
            team: Team::of(maker),
            maker: Some(maker),
        }
    }
}

impl<T: System + Threads> Crew<'_, T> {
    /// Starts to create new files.
    pub fn make_files<R: System>(&self, rt: &R, files: Vec<NewFile>) -> Work {
        match self.maker {
            Some(maker) => maker.make_files(&self.team, files),
            None => rt.make_files(&self.team, files),
        }
    }
}
