//! The system that cases need.
use std::env::Env;
use std::thread::Threads;

/// The system that cases need: files with locks, the arguments and the current directory, memory,
/// threads and printing.
pub trait System: fp_realroot::System + Env + Print + Threads + Sync + Clone + Drop {}

impl<R: fp_realroot::System + Env + Print + Threads + Sync + Clone + Drop> System for R {}
