//! Plays the cases of the files that its arguments name: over a host in memory, over a real
//! directory, and with a crash and a failure at each call. `docs/CASES.md` describes how to write
//! them.
#![tactic(auto)]

use fl_top::run;
use fp_host::{Host, Remotes, Source};
use fpk_case_hosts::Program;
use fpk_case_play::run_files;
use std::alloc::Global;
use std::io;
use std::process::ExitCode;
use std::thread::Threads;

/// fpk, the program whose cases are played.
#[derive(Clone, Copy)]
struct Fpk;

impl Program for Fpk {
    fn run<T: Threads + Sync, H: Host, R: Remotes, I: Source>(
        &self,
        rt: &T,
        alloc: Global,
        words: &[String],
        input: &mut I,
        host: &mut H,
        remotes: &mut R,
    ) -> u8 {
        run(rt, alloc, words, input, host, remotes)
    }
}

/// Plays the cases of the files that the arguments name, and exits with status 0 if all hold.
fn main(rt: HostRuntime) -> io::Result<ExitCode> {
    let status = run_files(&Fpk, &rt, rt.alloc())?;
    Ok(ExitCode::from(status))
}
