//! Parsing of lines into cases.
use crate::case::{
    Action, Case, Command, CommitLine, Expected, Failure, Fixture, FixtureKind, Owner, Pieces,
    ShownText, Step, Stops, What,
};
use crate::fault::CaseError;
use crate::name::{Name, name_of};
use crate::sign::{Form, Line, Sign, line_of};
use crate::words::{
    cut_words, number, path_and_mode, push_hex, push_line, push_text, size, status, word_and_rest,
};
use std::alloc::Global;

/// A parser of cases, with the cases so far.
#[derive(Drop)]
pub struct Parser {
    alloc: Global,
    cases: Vec<Case>,
    /// The number of the current line, from 1.
    line: u64,
}

impl Parser {
    /// Creates a parser that has taken no line yet.
    pub fn new(alloc: Global) -> Self {
        Parser {
            alloc,
            cases: Vec::new(alloc),
            line: 0,
        }
    }

    /// Returns the number of the line that was taken last, from 1.
    pub fn line(&self) -> u64 {
        self.line
    }

    /// Returns the cases, in order.
    pub fn into_cases(self) -> Vec<Case> {
        let Parser {
            alloc: _,
            cases,
            line: _,
        } = self;
        cases
    }

    /// Takes the lines of a text. Errs at the first one that can't be read, and with `NoCase` if
    /// there is no case.
    pub fn take_all(&mut self, text: &str) -> Result<(), CaseError> {
        for line in text.lines() {
            self.take(line)?;
        }
        if self.cases.is_empty() {
            return Err(CaseError::NoCase);
        }
        Ok(())
    }

    /// Takes the next line.
    fn take(&mut self, line: &str) -> Result<(), CaseError> {
        self.line = self.line.saturating_add(1);
        let line = line_of(line);
        match line.sign {
            Sign::Blank => Ok(()),
            Sign::Unknown => Err(CaseError::NoKind),
            Sign::Case => self.begin_case(line.text),
            Sign::Content => self.take_content(line.text),
            Sign::Stops => self.begin_stops(),
            Sign::ShownText => self.begin_shown(),
            Sign::Next => self.take_next(line.text),
            Sign::Input(_)
            | Sign::Zeros
            | Sign::Pieces
            | Sign::Status
            | Sign::FailureUndone
            | Sign::FailureDone
            | Sign::Calls
            | Sign::Makes
            | Sign::Appends
            | Sign::Cuts => self.take_of_command(line),
            Sign::Times | Sign::Fill => self.take_of_fixture(line),
            _ => self.begin_step(line),
        }
    }

    fn begin_case(&mut self, name: &str) -> Result<(), CaseError> {
        let name = String::from_str(self.alloc, name)?;
        let case = Case {
            line: self.line,
            name,
            steps: Vec::new(self.alloc),
            stops: None,
        };
        self.cases.push(case)?;
        Ok(())
    }

    fn begin_step(&mut self, line: Line<'_>) -> Result<(), CaseError> {
        let Some(case) = self.cases.last_mut() else {
            return Err(CaseError::NoCase);
        };
        if needs_remote(line.sign) && !has_remote(&case.steps) {
            return Err(CaseError::NoRemote);
        }
        let step = Step {
            line: self.line,
            action: action_of(self.alloc, line, owner_after(case.steps.last()))?,
            content: Vec::new(self.alloc),
            form: form_of(line.sign),
        };
        case.steps.push(step)?;
        Ok(())
    }

    fn begin_stops(&mut self) -> Result<(), CaseError> {
        let stops = Stops {
            line: self.line,
            open: Vec::new(self.alloc),
            next: None,
            shown: Vec::new(self.alloc),
        };
        let Some(case) = self.cases.last_mut() else {
            return Err(CaseError::NoCase);
        };
        case.stops = Some(stops);
        Ok(())
    }

    fn begin_shown(&mut self) -> Result<(), CaseError> {
        let shown = ShownText {
            line: self.line,
            text: Vec::new(self.alloc),
        };
        let Some(case) = self.cases.last_mut() else {
            return Err(CaseError::NoCase);
        };
        let Some(stops) = &mut case.stops else {
            return Err(CaseError::NoStops);
        };
        stops.shown.push(shown)?;
        Ok(())
    }

    /// Takes the words of the command that is run on whatever a crash left.
    fn take_next(&mut self, text: &str) -> Result<(), CaseError> {
        let words = cut_words(self.alloc, text)?;
        let Some(case) = self.cases.last_mut() else {
            return Err(CaseError::NoCase);
        };
        let Some(stops) = &mut case.stops else {
            return Err(CaseError::NoStops);
        };
        stops.next = Some(words);
        Ok(())
    }

    /// Takes an indented line, which is content of a line above.
    fn take_content(&mut self, text: &str) -> Result<(), CaseError> {
        let alloc = self.alloc;
        let Some(case) = self.cases.last_mut() else {
            return Err(CaseError::NoCase);
        };
        match &mut case.stops {
            Some(stops) => take_of_stops(stops, text),
            None => take_of_steps(alloc, &mut case.steps, text),
        }
    }

    /// Takes a line about the command above.
    fn take_of_command(&mut self, line: Line<'_>) -> Result<(), CaseError> {
        let alloc = self.alloc;
        let Some(case) = self.cases.last_mut() else {
            return Err(CaseError::NoCase);
        };
        let Some(step) = case.steps.last_mut() else {
            return Err(CaseError::NoCommand);
        };
        let Action::Run(command) = &mut step.action else {
            return Err(CaseError::NoCommand);
        };
        tell(alloc, command, line)
    }

    /// Takes a line about the file, directory or link above.
    fn take_of_fixture(&mut self, line: Line<'_>) -> Result<(), CaseError> {
        let Some(case) = self.cases.last_mut() else {
            return Err(CaseError::NoCase);
        };
        let Some(step) = case.steps.last_mut() else {
            return Err(CaseError::NoFixture);
        };
        let Action::Give(given) = &mut step.action else {
            return Err(CaseError::NoFixture);
        };
        match line.sign {
            Sign::Times if given.owner.is_installation() => given.times = number(line.text)?,
            Sign::Fill => fill(&mut step.content, line.text)?,
            _ => return Err(CaseError::NotInstallation),
        }
        Ok(())
    }
}

/// Returns whether a line of this kind needs a line `remote` above it.
fn needs_remote(sign: Sign) -> bool {
    matches!(
        sign,
        Sign::Commit | Sign::Offer | Sign::Break | Sign::Replace
    )
}

fn has_remote(steps: &[Step]) -> bool {
    steps
        .iter()
        .any(|step| matches!(&step.action, Action::BeginRemote { .. }))
}

/// Returns what a file, directory or link belongs to that is given after this step.
fn owner_after(step: Option<&Step>) -> Owner {
    let Some(step) = step else {
        return Owner::Installation;
    };
    match &step.action {
        Action::BeginRemote { .. } => Owner::Remote,
        Action::Commit(_) => Owner::Commit,
        Action::Give(given) => given.owner,
        _ => Owner::Installation,
    }
}

/// Returns how the content of a step is written.
fn form_of(sign: Sign) -> Form {
    match sign {
        Sign::Fixture(form) | Sign::File(form) => form,
        _ => Form::Lines,
    }
}

fn take_of_stops(stops: &mut Stops, text: &str) -> Result<(), CaseError> {
    match stops.shown.last_mut() {
        Some(shown) => push_line(&mut shown.text, text),
        None => push_line(&mut stops.open, text),
    }
}

fn take_of_steps(alloc: Global, steps: &mut Vec<Step>, text: &str) -> Result<(), CaseError> {
    let Some(step) = steps.last_mut() else {
        return Err(CaseError::NoStep);
    };
    match step.form {
        Form::Lines | Form::Open => push_line(&mut step.content, text),
        Form::Hex => push_hex(alloc, &mut step.content, text),
    }
}

/// Appends a text to the last line of the content, as many times as the number before it says.
fn fill(content: &mut Vec<u8>, text: &str) -> Result<(), CaseError> {
    let (count, text) = word_and_rest(text)?;
    let count = size(count)?;
    let _newline = content.pop();
    for _ in 0..count {
        content.extend_from_slice(text.as_bytes())?;
    }
    content.push(b'\n')?;
    Ok(())
}

/// Parses the line of a step.
fn action_of(alloc: Global, line: Line<'_>, owner: Owner) -> Result<Action, CaseError> {
    match line.sign {
        Sign::Fixture(_) => give_file_action(alloc, line.text, owner),
        Sign::Folder => give_action(alloc, line.text, FixtureKind::Folder, owner),
        Sign::Link => give_link_action(alloc, line.text, owner),
        Sign::HardLink => give_hard_link_action(alloc, line.text, owner),
        Sign::Remote => remote_action(alloc, line.text),
        Sign::Commit => commit_action(alloc, line.text),
        Sign::Offer => offer_action(alloc, line.text),
        Sign::Break => break_action(alloc, line.text),
        Sign::Replace => replace_action(alloc, line.text),
        Sign::Command => run_action(alloc, line.text),
        Sign::FromHere => Ok(Action::FromHere),
        Sign::File(_) => expect_file_action(alloc, line.text),
        Sign::FoundFolder => expect_action(alloc, line.text, What::Folder),
        Sign::FoundLink => expect_link_action(alloc, line.text),
        Sign::FoundHardLink => expect_hard_link_action(alloc, line.text),
        Sign::Absent => expect_action(alloc, line.text, What::Nothing),
        _ => Err(CaseError::NoKind),
    }
}

fn give_action(
    alloc: Global,
    path: &str,
    kind: FixtureKind,
    owner: Owner,
) -> Result<Action, CaseError> {
    let path = String::from_str(alloc, path)?;
    Ok(Action::Give(Fixture {
        owner,
        path,
        kind,
        times: 1,
    }))
}

fn give_file_action(alloc: Global, text: &str, owner: Owner) -> Result<Action, CaseError> {
    let (path, mode) = path_and_mode(text)?;
    give_action(alloc, path, FixtureKind::File { mode }, owner)
}

fn give_link_action(alloc: Global, text: &str, owner: Owner) -> Result<Action, CaseError> {
    let (path, text) = word_and_rest(text)?;
    let text = String::from_str(alloc, text)?;
    give_action(alloc, path, FixtureKind::Link { text }, owner)
}

fn remote_action(alloc: Global, text: &str) -> Result<Action, CaseError> {
    let url = String::from_str(alloc, text)?;
    Ok(Action::BeginRemote { url })
}

fn commit_action(alloc: Global, text: &str) -> Result<Action, CaseError> {
    let (label, rest) = word_and_rest(text)?;
    let (name, time) = word_and_rest(rest)?;
    let time = number(time)?;
    let label = String::from_str(alloc, label)?;
    let name = String::from_str(alloc, name)?;
    Ok(Action::Commit(CommitLine { label, name, time }))
}

fn offer_action(alloc: Global, text: &str) -> Result<Action, CaseError> {
    let (name, label) = word_and_rest(text)?;
    let name = String::from_str(alloc, name)?;
    let label = String::from_str(alloc, label)?;
    Ok(Action::Offer { name, label })
}

fn break_action(alloc: Global, text: &str) -> Result<Action, CaseError> {
    let Name { object, harm } = name_of(alloc, text)?;
    match harm {
        Some(harm) => Ok(Action::Break { object, harm }),
        None => Err(CaseError::NoHarm),
    }
}

fn replace_action(alloc: Global, text: &str) -> Result<Action, CaseError> {
    let Some((object, other)) = text.split_once(" by ") else {
        return Err(CaseError::NoReplacement);
    };
    let (object, other) = (name_of(alloc, object)?, name_of(alloc, other)?);
    if object.harm.is_some() || other.harm.is_some() {
        return Err(CaseError::NoReplacement);
    }
    let (object, other) = (object.object, other.object);
    Ok(Action::Replace { object, other })
}

/// Parses a hard link. Errs with `NotInstallation` if it is for a remote or a commit.
fn give_hard_link_action(alloc: Global, text: &str, owner: Owner) -> Result<Action, CaseError> {
    if !owner.is_installation() {
        return Err(CaseError::NotInstallation);
    }
    let (path, file) = word_and_rest(text)?;
    let file = String::from_str(alloc, file)?;
    give_action(alloc, path, FixtureKind::HardLink { file }, owner)
}

fn expect_file_action(alloc: Global, text: &str) -> Result<Action, CaseError> {
    let (path, mode) = path_and_mode(text)?;
    expect_action(alloc, path, What::File { mode })
}

fn expect_link_action(alloc: Global, text: &str) -> Result<Action, CaseError> {
    let (path, text) = word_and_rest(text)?;
    let text = String::from_str(alloc, text)?;
    expect_action(alloc, path, What::Link { text })
}

fn expect_hard_link_action(alloc: Global, text: &str) -> Result<Action, CaseError> {
    let (path, file) = word_and_rest(text)?;
    let file = String::from_str(alloc, file)?;
    expect_action(alloc, path, What::HardLink { file })
}

fn expect_action(alloc: Global, path: &str, what: What) -> Result<Action, CaseError> {
    let path = String::from_str(alloc, path)?;
    Ok(Action::Expect(Expected { path, what }))
}

fn run_action(alloc: Global, text: &str) -> Result<Action, CaseError> {
    let words = cut_words(alloc, text)?;
    Ok(Action::Run(Command::new(words, Vec::new(alloc))))
}

/// Adds to a command what a line about it says.
fn tell(alloc: Global, command: &mut Command, line: Line<'_>) -> Result<(), CaseError> {
    match line.sign {
        Sign::Input(form) => push_input(alloc, &mut command.input, form, line.text),
        Sign::Zeros => push_zeros(alloc, &mut command.input, line.text),
        _ => tell_more(command, line),
    }
}

fn push_input(alloc: Global, input: &mut Vec<u8>, form: Form, text: &str) -> Result<(), CaseError> {
    match form {
        Form::Lines => push_line(input, text),
        Form::Open => push_text(input, text),
        Form::Hex => push_hex(alloc, input, text),
    }
}

/// Adds to a command what a line says about anything but its input.
fn tell_more(command: &mut Command, line: Line<'_>) -> Result<(), CaseError> {
    match line.sign {
        Sign::Pieces => command.pieces = Some(pieces_of(line.text)?),
        Sign::Status => command.status = status(line.text)?,
        Sign::FailureUndone => command.failure = Some(failure_of(line.text, false)?),
        Sign::FailureDone => command.failure = Some(failure_of(line.text, true)?),
        Sign::Calls => command.calls = Some(number(line.text)?),
        Sign::Makes => command.makes = Some(number(line.text)?),
        Sign::Appends => command.appends = Some(number(line.text)?),
        Sign::Cuts => command.has_cuts = true,
        _ => return Err(CaseError::NoKind),
    }
    Ok(())
}

fn push_zeros(alloc: Global, bytes: &mut Vec<u8>, text: &str) -> Result<(), CaseError> {
    let zeros = vec![in alloc; 0u8; size(text)?]?;
    bytes.extend_from_slice(&zeros)?;
    Ok(())
}

fn pieces_of(text: &str) -> Result<Pieces, CaseError> {
    let (first, second) = word_and_rest(text)?;
    let size = size(first)?;
    let calls = number(second)?;
    Ok(Pieces { size, calls })
}

fn failure_of(text: &str, is_done: bool) -> Result<Failure, CaseError> {
    let call = number(text)?;
    Ok(Failure { call, is_done })
}
