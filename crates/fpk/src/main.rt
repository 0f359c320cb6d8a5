//! The command `fpk`: runs the words of the command line on the directory of an installation.
#![tactic(auto)]

ghost use Rattle.std.specs.Prelude.{◌≡◌, ◌↔◌, Some, true, IfOk, map, option_map, string_bytes};
ghost use Rattle.fl_words.specs.Forms.{command_of};
ghost use Rattle.fl_words.specs.Words.{may_change};
ghost use Rattle.fl_top.specs.Status.{IsStatus, IsOfWords};

use fl_top::run;
use fl_words::{Command, WordsError, help, read_words};
use fp_progress::{Progress, Task, Watched};
use fp_realhost::{HostDir, Screen};
use fp_realinput::{DirRemotes, StdinSource};
use fp_realroot::System;
use fp_realsync::Access;
use fpk_messages::{
    Asked, Refusals, is_unread, say, say_failed, say_no_memory, say_reason, say_refused,
    say_unprinted, tell_absence, tell_damage, tell_done, tell_hints, tell_refused,
};
use std::alloc::{AllocError, Global};
use std::env::{self, VarError};
use std::fs;
use std::io::{self, ErrorKind, Input};
use std::process::ExitCode;
use std::rt::{Env, Files};
use std::thread::Threads;
use std::time::Clock;

fn main(rt: HostRuntime) -> ExitCode {
    let first = hold_place(&rt);
    let second = hold_place(&rt);
    let third = hold_place(&rt);
    let status = start(&rt, rt.alloc());
    drop(first);
    drop(second);
    drop(third);
    ExitCode::from(status)
}

/// Opens the directory `/`. Called three times, this occupies those of the file descriptors 0, 1
/// and 2 that were closed when fpk started, so that no file opened later becomes standard input,
/// output or error. It can be neither read nor written, so printing to it fails and changes no
/// file. If `/` can't be opened, opens `/dev/null`.
fn hold_place<R: Files>(rt: &R) -> io::Result<R::File> {
    match fs::open(rt, "/") {
        Ok(folder) => Ok(folder),
        Err(_) => fs::open(rt, "/dev/null"),
    }
}

/// Handles `--help` and `--version`, and runs all other words. Returns the exit status.
fn start(rt: &(impl System + Env + Print + Input + Clock + Threads + Sync), alloc: Global) -> u8 {
    let words = match words_of(rt, alloc) {
        Ok(words) => words,
        Err(error) => {
            return match error.kind() {
                ErrorKind::OutOfMemory => out_of_memory(rt),
                _ => no_text(rt),
            };
        }
    };
    let words = words.as_slice();
    if let [word] = words {
        if word.as_str() == "--help" {
            return print_help(rt, alloc);
        }
        if word.as_str() == "--version" {
            return print(rt, "fpk 1.0\n", 0);
        }
    }
    match env::var(rt, "FPK_INSTALLATION") {
        Ok(folder) if !folder.is_empty() => run_in(rt, alloc, &folder, words),
        Ok(_) | Err(VarError::NotPresent) => run_in(rt, alloc, "installation", words),
        Err(VarError::NotUnicode) => complain(rt, "fpk: FPK_INSTALLATION is no UTF-8", 3),
        Err(VarError::OutOfMemory) => out_of_memory(rt),
    }
}

/// Prints all commands. Returns the exit status.
fn print_help(rt: &(impl Print + Eprint), alloc: Global) -> u8 {
    match help(alloc) {
        Ok(text) => print(rt, text.as_str(), 0),
        Err(_) => out_of_memory(rt),
    }
}

/// Refuses words of which one isn't UTF-8. Returns the exit status.
fn no_text(rt: &(impl Print + Eprint)) -> u8 {
    let status = print(rt, "error: words 0\n", 2);
    if status == 2 {
        say(rt, "fpk: a word is not UTF-8\n");
    }
    status
}

/// Returns the words after the program's name.
fn words_of(rt: &(impl Env + AllocGlobal), alloc: Global) -> io::Result<Vec<String>> {
    let mut words = Vec::new(alloc);
    let mut args = env::args(rt)?;
    let _name = args.next();
    for word in args {
        words.push(word)?;
    }
    Ok(words)
}

/// Runs the words on the installation in this directory. Returns the exit status.
fn run_in(
    rt: &(impl System + Print + Input + Clock + Threads + Sync),
    alloc: Global,
    folder: &str,
    words: &[String],
) -> u8 {
    let Ok(access) = access_of(alloc, words) else {
        return out_of_memory(rt);
    };
    let asked = Asked {
        installation: folder,
        words,
        access,
    };
    run_on(rt, alloc, asked)
}

/// Opens the installation and runs the words. Returns the exit status.
fn run_on(
    rt: &(impl System + Print + Input + Clock + Threads + Sync),
    alloc: Global,
    asked: Asked<'_>,
) -> u8 {
    let task = task_of(asked.words);
    let progress = Progress::new(rt, alloc, task, rt.complains_to_terminal());
    let system = Watched::host(rt, &progress);
    let screen = Screen::new(&system, alloc, rt.prints_to_terminal());
    let printed = Refusals::on(screen, alloc);
    match HostDir::with_maker(
        &system,
        rt,
        &printed,
        alloc,
        asked.installation,
        asked.access,
    ) {
        Ok(mut host) => run_over(rt, alloc, &mut host, &progress, &printed, asked),
        Err(_) => out_of_memory(rt),
    }
}

/// Runs the words on this host and returns their exit status. Prints on standard error why the
/// status is not 0, what a successful command didn't do (`tell_done`), which installed ref needs a
/// missing or damaged metadata object, or that a command that only reads found no installation.
fn run_over<R: System + Print + Input + Clock + Threads + Sync>(
    rt: &R,
    alloc: Global,
    host: &mut HostDir<'_, Watched<'_, R>, R, Refusals<'_, Watched<'_, R>>>,
    progress: &Progress<'_, R>,
    printed: &Refusals<'_, Watched<'_, R>>,
    asked: Asked<'_>,
) -> u8
    ensures status { IsStatus result }
    ensures words { IsOfWords (command_of (map string_bytes asked.entry.words.now)) result }
{
    let system = Watched::remotes(rt, progress);
    let mut remotes = DirRemotes::new(&system, alloc);
    let mut input = input_of(rt, alloc, asked.words);
    let status = run(rt, alloc, asked.words, &mut input, host, &mut remotes);
    host.finish();
    progress.end();
    if asked.access == Access::Look && host.is_absent() {
        tell_absence(rt, alloc, asked.installation);
    }
    let is_idle = asked.is_update_of_all() && !printed.has_printed();
    if asked.access == Access::Change && status < 2 && !is_idle && !progress.has_listed_objects() {
        tell_damage(rt, alloc, host);
    }
    match status {
        0 => tell_done(rt, alloc, asked),
        1 => tell_refused(rt, alloc, asked, printed.take_last(), input.kept()),
        2 => {
            say_reason(rt, alloc, asked.words);
            tell_hints(rt, alloc, asked);
        }
        3 if asked.access == Access::Look && is_unread(host.last_error()) => {}
        3 => say_failed(rt, host.last_error()),
        4 => say_refused(rt, remotes.last_error()),
        5 => say_refused(rt, input.last_error()),
        6 => say_no_memory(rt),
        _ => {}
    }
    status
}

/// Returns `Change` if the words are a command that may change the installation, else `Look`. Errs
/// if memory runs out.
fn access_of(alloc: Global, words: &[String]) -> Result<Access, AllocError>
    ensures { IfOk result (λ access. (access ≡ Access.Change)
        ↔ (option_map may_change (command_of (map string_bytes words.now)) ≡ Some true)) }
{
    match read_words(alloc, words) {
        Ok(command) => Ok(access_for(&command)),
        Err(WordsError::BadWords { index: _ }) => Ok(Access::Look),
        Err(WordsError::NoMemory) => Err(AllocError),
    }
}

fn access_for(command: &Command) -> Access
    ensures { (result ≡ Access.Change) ↔ (may_change command.now ≡ true) }
{
    match command.changes() {
        true => Access::Change,
        false => Access::Look,
    }
}

/// Returns the purpose of the command, for the progress line.
fn task_of(words: &[String]) -> Task {
    match words {
        [first, ..] => match first.as_str() {
            "install" => Task::Install,
            "update" => Task::Update,
            "uninstall" => Task::Uninstall,
            "fsck" => Task::Check,
            _ => Task::Other,
        },
        [] => Task::Other,
    }
}

/// Returns the standard input. It keeps what is read if a message may have to quote a line of it.
fn input_of<'a, R: Input>(rt: &'a R, alloc: Global, words: &[String]) -> StdinSource<'a, R> {
    match words {
        [word, ..] if matches!(word.as_str(), "batch" | "export" | "filter") => {
            StdinSource::keeping(rt, alloc)
        }
        _ => StdinSource::new(rt),
    }
}

/// Prints a text on standard output. Returns this exit status, or 3 if printing fails.
fn print(rt: &(impl Print + Eprint), text: &str, status: u8) -> u8 {
    match print!(rt; "{text}") {
        Ok(()) => status,
        Err(error) => {
            say_unprinted(rt, &error);
            3
        }
    }
}

/// Prints a message on standard error and returns this exit status.
fn complain(rt: &impl Eprint, text: &str, status: u8) -> u8
    ensures { result ≡ status }
{
    let _said = eprintln!(rt; "{text}");
    status
}

fn out_of_memory(rt: &impl Eprint) -> u8 {
    say_no_memory(rt);
    6
}
