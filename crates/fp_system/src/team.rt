//! The permission to start threads.
use std::marker::PhantomData;
use std::thread::Threads;

/// The permission to start threads, without the handle that grants it. It holds no data, so threads
/// can share it even if they can't share the handle.
pub struct Team<T> {
    handle: PhantomData<T>,
}

impl<T> Drop for Team<T> {
    fn drop(self) {
        let Team { handle: _ } = self;
    }
}

impl<T: Threads> Threads for Team<T> {}

// `Sync` is proved for this type: it has no data that could be shared.
unsafe impl<T> Sync for Team<T> {}

impl<T: Threads> Team<T> {
    /// Creates the permission that this handle grants.
    pub fn of(_handle: &T) -> Self {
        Team {
            handle: PhantomData,
        }
    }
}
