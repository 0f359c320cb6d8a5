//! The command that has to work on whatever a crash left.
use fp_memhost::MemHost;
use fpk_case_hosts::{Program, run_in_memory};
use fpk_case_remotes::Wares;
use fpk_case_text::{Command, Failing, Stops};
use std::alloc::{AllocError, Global};
use std::thread::Threads;

/// The words of the command, if the case gives no others.
const WORDS: [&str; 2] = ["pin", "app/org.x.Next/*/*"];

/// The command that has to work on whatever a crash left.
#[derive(Drop)]
pub struct Next<'a> {
    command: Command,
    /// The remotes with all their commits, as they are after the last step of the section.
    pub wares: &'a Wares,
}

impl<'a> Next<'a> {
    /// Creates the command that the case gives, or the default one.
    pub fn new(alloc: Global, stops: &Stops, wares: &'a Wares) -> Result<Self, AllocError> {
        let mut command = command_of(alloc, &WORDS)?;
        if let Some(words) = &stops.next {
            command.words = words.clone()?;
        }
        Ok(Next { command, wares })
    }

    /// Runs the command on the host, and returns whether its status is 0.
    pub fn is_done<P: Program, R: Threads + Sync>(
        &self,
        program: &P,
        rt: &R,
        alloc: Global,
        host: &mut MemHost,
    ) -> Result<bool, AllocError> {
        let (command, wares) = (&self.command, self.wares);
        let ran = run_in_memory(program, rt, alloc, host, command, Failing::none(), wares)?;
        Ok(ran.status == 0)
    }
}

/// Creates a command with these words, without input.
pub fn command_of(alloc: Global, words: &[&str]) -> Result<Command, AllocError> {
    let mut owned = Vec::new(alloc);
    for word in words {
        owned.push(String::from_str(alloc, word)?)?;
    }
    Ok(Command::new(owned, Vec::new(alloc)))
}
