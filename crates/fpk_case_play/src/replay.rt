//! Running the commands of a case over a host in memory, with a call that fails.
use fp_memhost::MemHost;
use fpk_case_hosts::{Program, RemoteCalls, give, present_image, run_in_memory, unless_fault};
use fpk_case_remotes::Wares;
use fpk_case_text::{Action, Case, Failing, Failure};
use std::alloc::{AllocError, Global};
use std::ops::Range;
use std::thread::Threads;

/// The failure, if there is one, while the commands of a case run.
#[derive(Clone, Copy)]
pub enum Trouble {
    Nothing,
    /// A call of the host fails. It is counted from 0 at the start of the section.
    Host(Failure),
    /// A call of the remotes fails. It is counted from 0 at its command, and the command from 0 at
    /// the first one of the case.
    Remotes { command: usize, call: u64 },
    /// A read of the remotes returns a changed first byte. It is counted from 0 at its command,
    /// among the reads that return bytes; the command is counted from 0 at the first one of the
    /// case.
    Turned { command: usize, read: u64 },
}

/// A section: the steps of a case from a line `from here` to the next one, or to the end.
#[derive(Clone, Copy)]
pub struct Section {
    /// The index of the first step.
    from: usize,
    /// The index after that of the last step.
    pub to: usize,
}

/// Returns the sections of a case. Without a line `from here`, the whole case is one section.
pub fn sections_of(alloc: Global, case: &Case) -> Result<Vec<Section>, AllocError> {
    let mut sections = Vec::new(alloc);
    let mut begun = None;
    for (at, step) in case.steps.iter().enumerate() {
        if matches!(&step.action, Action::FromHere) {
            if let Some(from) = begun {
                sections.push(Section { from, to: at })?;
            }
            begun = Some(at);
        }
    }
    let from = begun.unwrap_or(0);
    let to = case.steps.len();
    sections.push(Section { from, to })?;
    Ok(sections)
}

/// The start of a section, before its first command.
#[derive(Drop)]
pub struct Start<'a> {
    /// The case.
    pub case: &'a Case,
    section: Section,
    /// A host with everything that the case gives and what the commands before the section did.
    host: MemHost,
}

/// The outcome of the commands of a section, up to the first that ends with an unexpected status.
#[derive(Drop)]
pub struct Replay {
    /// The host. Its calls are counted from 0 at the start of the section.
    pub host: MemHost,
    /// The unexpected status; none if all are as expected.
    pub other_status: Option<u8>,
    /// The number of calls of the remotes that each command of the section made.
    pub remote_calls: Vec<RemoteCalls>,
}

impl Replay {
    /// Returns the number of lines that were printed.
    pub fn lines(&self) -> usize {
        self.host
            .printed()
            .iter()
            .filter(|byte| **byte == b'\n')
            .count()
    }
}

/// Puts everything there that the case gives, and runs the commands before a section.
pub fn start_of<'a, P: Program, R: Threads + Sync>(
    program: &P,
    rt: &R,
    alloc: Global,
    case: &'a Case,
    section: Section,
) -> Result<Start<'a>, AllocError> {
    let before = Section {
        from: 0,
        to: section.from,
    };
    let mut host = MemHost::new(alloc)?;
    give_all(alloc, &mut host, case)?;
    let _ran = run_steps(
        program,
        rt,
        alloc,
        &mut host,
        case,
        before,
        Trouble::Nothing,
    )?;
    Ok(Start {
        case,
        section,
        host,
    })
}

impl Start<'_> {
    /// Returns the numbers of the section's commands, counted from 0 at the first one of the case.
    pub fn commands(&self) -> Range<usize> {
        self.commands_before(self.section.from)..self.commands_before(self.section.to)
    }

    /// Returns the number of commands before the step at this index.
    fn commands_before(&self, at: usize) -> usize {
        let before = self.case.steps.iter().take(at);
        before.filter(|step| is_command(&step.action)).count()
    }

    /// Returns whether the command with this number is an install.
    pub fn is_install(&self, number: usize) -> bool {
        let steps = self.case.steps.iter();
        let mut commands = steps.filter(|step| is_command(&step.action));
        match commands.nth(number) {
            Some(step) => is_install(&step.action),
            None => false,
        }
    }

    /// Runs the commands of the section on a new host.
    pub fn replay<P: Program, R: Threads + Sync>(
        &self,
        program: &P,
        rt: &R,
        alloc: Global,
        trouble: Trouble,
    ) -> Result<Replay, AllocError> {
        let mut host = self.new_host(alloc)?;
        if let Trouble::Host(Failure { call, is_done }) = trouble {
            host.fail_calls(&[(call, is_done)])?;
        }
        let (case, section) = (self.case, self.section);
        let ran = run_steps(program, rt, alloc, &mut host, case, section, trouble)?;
        let StepsRun {
            other_status,
            remote_calls,
        } = ran;
        Ok(Replay {
            host,
            other_status,
            remote_calls,
        })
    }

    /// Creates a host on which everything before the section is durable.
    fn new_host(&self, alloc: Global) -> Result<MemHost, AllocError> {
        match present_image(alloc, &self.host, self.host.calls())? {
            Some(image) => MemHost::from_image(alloc, image),
            None => MemHost::new(alloc),
        }
    }
}

fn is_command(action: &Action) -> bool {
    matches!(action, Action::Run(_))
}

fn is_install(action: &Action) -> bool {
    match action {
        Action::Run(command) => match command.words.first() {
            Some(word) => word.as_str() == "install",
            None => false,
        },
        _ => false,
    }
}

/// Puts everything there that the case gives to the installation.
fn give_all(alloc: Global, host: &mut MemHost, case: &Case) -> Result<(), AllocError> {
    for step in &case.steps {
        if let Action::Give(given) = &step.action {
            if given.owner.is_installation() {
                unless_fault(give(alloc, host, given, step.bytes()))?;
            }
        }
    }
    Ok(())
}

/// The outcome of the commands of a section, up to the first that ends with an unexpected status.
#[derive(Drop)]
struct StepsRun {
    /// The unexpected status; none if all are as expected.
    other_status: Option<u8>,
    /// The number of calls of the remotes that each command made.
    remote_calls: Vec<RemoteCalls>,
}

/// Runs the commands of a section. Steps before it only change the remotes.
fn run_steps<P: Program, R: Threads + Sync>(
    program: &P,
    rt: &R,
    alloc: Global,
    host: &mut MemHost,
    case: &Case,
    section: Section,
    trouble: Trouble,
) -> Result<StepsRun, AllocError> {
    let mut wares = Wares::new(alloc);
    let mut number: usize = 0;
    let mut remote_calls = Vec::new(alloc);
    for (at, step) in case.steps.iter().take(section.to).enumerate() {
        wares.take_next(rt, &case.steps, at)?;
        let Action::Run(command) = &step.action else {
            continue;
        };
        let failing = failing_at(trouble, number);
        number = number.saturating_add(1);
        if at < section.from {
            continue;
        }
        let ran = run_in_memory(program, rt, alloc, host, command, failing, &wares)?;
        remote_calls.push(ran.remote_calls)?;
        if ran.status != command.status {
            return Ok(StepsRun {
                other_status: Some(ran.status),
                remote_calls,
            });
        }
    }
    Ok(StepsRun {
        other_status: None,
        remote_calls,
    })
}

/// Returns what fails in the command with this number.
fn failing_at(trouble: Trouble, number: usize) -> Failing {
    let mut failing = Failing::none();
    match trouble {
        Trouble::Remotes { command, call } if command == number => failing.remotes = Some(call),
        Trouble::Turned { command, read } if command == number => failing.turned = Some(read),
        _ => {}
    }
    failing
}

/// Returns the remotes of a case before the step at this index.
pub fn wares_of<R: Threads + Sync>(
    rt: &R,
    alloc: Global,
    case: &Case,
    to: usize,
) -> Result<Wares, AllocError> {
    let mut wares = Wares::new(alloc);
    for at in 0..to {
        wares.take_next(rt, &case.steps, at)?;
    }
    Ok(wares)
}
