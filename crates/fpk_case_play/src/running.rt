//! Playing the files of cases that a program's arguments name.
use crate::places::{play_in_folder, play_in_memory};
use crate::stops::play_stops;
use fpk_case_hosts::{Program, is_for_folder};
use fpk_case_system::System;
use fpk_case_text::{Case, CaseError, Parser, Wrong};
use std::alloc::Global;
use std::{env, fs, io};

/// Plays the cases in the files that the arguments name, and prints each line that doesn't hold.
/// Returns the exit status: 0 if all hold, 1 if not, 2 without arguments.
pub fn run_files<P: Program, R: System>(program: &P, rt: &R, alloc: Global) -> io::Result<u8> {
    let names = names_of(rt, alloc)?;
    try_files(program, rt, alloc, &names)
}

/// Plays the cases in these files. Returns the exit status: 0 if all hold, 1 if not, 2 if there are
/// no files.
fn try_files<P: Program, R: System>(
    program: &P,
    rt: &R,
    alloc: Global,
    names: &[String],
) -> io::Result<u8> {
    let mut wrong = say_others(rt, names)?;
    for name in names {
        wrong = wrong.saturating_add(try_file(program, rt, alloc, name.as_str())?);
    }
    if names.is_empty() {
        println!(rt; "the arguments name files of cases")?;
        return Ok(2);
    }
    say_end(rt, wrong)
}

/// Prints whether all cases hold, and returns the exit status.
fn say_end<R: System>(rt: &R, wrong: u64) -> io::Result<u8> {
    if wrong > 0 {
        println!(rt; "{wrong} wrong")?;
        return Ok(1);
    }
    println!(rt; "all cases passed")?;
    Ok(0)
}

/// Returns the arguments.
fn names_of<R: System>(rt: &R, alloc: Global) -> io::Result<Vec<String>> {
    let mut names = Vec::new(alloc);
    let mut args = env::args(rt)?;
    let _program = args.next();
    for name in args {
        names.push(name)?;
    }
    Ok(names)
}

/// Prints which files of cases in the current directory aren't named. Returns their number.
fn say_others<R: System>(rt: &R, names: &[String]) -> io::Result<u64> {
    let mut count = 0u64;
    for entry in fs::read_dir(rt, ".")? {
        let entry = entry?;
        count = count.saturating_add(judge_name(rt, names, entry.file_name())?);
    }
    Ok(count)
}

/// Prints the name of a file of cases that isn't named, and returns 1; else returns 0.
fn judge_name<R: System>(rt: &R, names: &[String], name: &str) -> io::Result<u64> {
    if !name.ends_with(".case") || names.iter().any(|named| named.as_str() == name) {
        return Ok(0);
    }
    println!(rt; "{name}: the arguments don't name it")?;
    Ok(1)
}

/// Plays the cases of a file, and prints each line that doesn't hold. Returns the number of printed
/// lines.
fn try_file<P: Program, R: System>(
    program: &P,
    rt: &R,
    alloc: Global,
    name: &str,
) -> io::Result<u64> {
    match fs::read_to_string(rt, name) {
        Ok(text) => try_text(program, rt, alloc, name, text.as_str()),
        Err(error) => {
            println!(rt; "{name}: {error}")?;
            Ok(1)
        }
    }
}

/// Plays the cases of a text, and prints each line that doesn't hold. Returns the number of printed
/// lines.
fn try_text<P: Program, R: System>(
    program: &P,
    rt: &R,
    alloc: Global,
    name: &str,
    text: &str,
) -> io::Result<u64> {
    let mut parser = Parser::new(alloc);
    match parser.take_all(text) {
        Ok(()) => try_cases(program, rt, alloc, name, &parser.into_cases()),
        Err(fault) => say_fault(rt, name, parser.line(), fault),
    }
}

/// Prints which line can't be read, and returns 1.
fn say_fault<R: System>(rt: &R, name: &str, line: u64, fault: CaseError) -> io::Result<u64> {
    let text = fault.text();
    println!(rt; "{name}:{line}: {text}")?;
    Ok(1)
}

fn try_cases<P: Program, R: System>(
    program: &P,
    rt: &R,
    alloc: Global,
    name: &str,
    cases: &[Case],
) -> io::Result<u64> {
    let mut count = 0u64;
    for case in cases {
        count = count.saturating_add(try_case(program, rt, alloc, name, case)?);
    }
    Ok(count)
}

/// Plays a case in memory, over a directory and with crashes, and prints the first line that
/// doesn't hold. Returns the number of printed lines.
fn try_case<P: Program, R: System>(
    program: &P,
    rt: &R,
    alloc: Global,
    name: &str,
    case: &Case,
) -> io::Result<u64> {
    if let Some(wrong) = play_in_memory(program, rt, alloc, case)? {
        return say(rt, name, case, "in memory", &wrong);
    }
    if let Some(wrong) = in_folder(program, rt, alloc, case)? {
        return say(rt, name, case, "in a folder", &wrong);
    }
    if let Some(wrong) = with_stops(program, rt, alloc, case)? {
        return say(rt, name, case, "with stops", &wrong);
    }
    Ok(0)
}

/// Plays a case over a directory, if it can be played there.
fn in_folder<P: Program, R: System>(
    program: &P,
    rt: &R,
    alloc: Global,
    case: &Case,
) -> io::Result<Option<Wrong>> {
    match is_for_folder(case) {
        true => play_in_folder(program, rt, alloc, case),
        false => Ok(None),
    }
}

/// Plays a case with a crash and a failure at each call, if it asks for that.
fn with_stops<P: Program, R: System>(
    program: &P,
    rt: &R,
    alloc: Global,
    case: &Case,
) -> io::Result<Option<Wrong>> {
    match &case.stops {
        Some(stops) => Ok(play_stops(program, rt, alloc, case, stops)?),
        None => Ok(None),
    }
}

/// Prints the line of a case that doesn't hold, and returns 1.
fn say<R: System>(rt: &R, name: &str, case: &Case, place: &str, wrong: &Wrong) -> io::Result<u64> {
    let line = wrong.line;
    let title = case.name.as_str();
    let text = wrong.text.as_str();
    println!(rt; "{name}:{line}: {title}, {place}: {text}")?;
    Ok(1)
}
