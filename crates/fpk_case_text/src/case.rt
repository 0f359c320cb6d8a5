//! A case: what is given, the commands, and what is expected of them.
use crate::sign::Form;
use fp_base::ObjKind;

/// A case: the lines from one `case` to the next.
#[derive(Drop)]
pub struct Case {
    /// The number of its first line, from 1.
    pub line: u64,
    /// The title of the case: what it shows.
    pub name: String,
    /// The steps, in order: what is given, run and expected.
    pub steps: Vec<Step>,
    /// The expectations after a crash and a failure at each call of the host, if the case is also
    /// run with these.
    pub stops: Option<Stops>,
}

/// A line that isn't indented, with the lines that belong to it.
#[derive(Drop)]
pub struct Step {
    /// The number of its line, from 1.
    pub line: u64,
    /// The action that the line describes.
    pub action: Action,
    /// The content below the line, each indented line with a newline. If it is written in
    /// hexadecimal, its bytes.
    pub content: Vec<u8>,
    /// The form in which the content is written.
    pub form: Form,
}

impl Step {
    /// Returns the bytes of the content, without the last newline if its form is `Open`.
    pub fn bytes(&self) -> &[u8] {
        let bytes = self.content.as_slice();
        match (self.form, bytes) {
            (Form::Open, [front @ .., b'\n']) => front,
            _ => bytes,
        }
    }
}

/// An action of a step: something that it does or expects.
#[derive(Drop)]
pub enum Action {
    /// Puts a file, directory or link somewhere.
    Give(Fixture),
    /// Begins the lines about the remote with this URL.
    BeginRemote {
        url: String,
    },
    /// Makes a commit of the remote, which offers it. What it contains follows.
    Commit(CommitLine),
    /// Offers the commit with this label under the ref.
    Offer {
        name: String,
        label: String,
    },
    /// Damages an object of the remote.
    Break {
        object: ObjectWords,
        harm: Harm,
    },
    /// Puts another object in the place of an object of the remote.
    Replace {
        object: ObjectWords,
        other: ObjectWords,
    },
    /// Runs a command.
    Run(Command),
    /// Treats everything so far as durable: crashes and failures are tried from here on.
    FromHere,
    /// Checks what is at a path now.
    Expect(Expected),
}

/// An expectation about a path.
#[derive(Drop)]
pub struct Expected {
    /// The path in the installation.
    pub path: String,
    /// The thing that is expected there.
    pub what: What,
}

/// The thing that is expected at a path. The bytes of a file are the content of the step.
#[derive(Drop)]
pub enum What {
    /// A file with these permission bits.
    File { mode: u32 },
    /// A directory, with any content.
    Folder,
    /// A symlink with this text.
    Link { text: String },
    /// A hard link of the file at this other path.
    HardLink { file: String },
    /// Nothing, not even a symlink.
    Nothing,
}

/// A commit of a remote, bound to a ref.
#[derive(Drop)]
pub struct CommitLine {
    /// The commit's name in the case.
    pub label: String,
    /// The ref that the commit is bound to.
    pub name: String,
    /// The commit's time, in seconds since 1970.
    pub time: u64,
}

/// The words that name an object of a commit.
#[derive(Drop)]
pub struct ObjectWords {
    /// The commit's name in the case.
    pub label: String,
    /// The kind of the object. A dirtree or a dirmeta is that of the commit's root.
    pub kind: ObjKind,
    /// The path of a file or symlink in the commit; empty for another object.
    pub path: String,
}

/// The damage of an object.
#[derive(Clone, Copy)]
pub enum Harm {
    /// It is missing.
    Absent,
    /// A directory is in its place.
    Folder,
    /// It lacks its last byte.
    Cut,
    /// A zero byte follows its last one.
    Longer,
    /// The lowest bit of its first byte is inverted.
    Turned,
    /// It has these permission bits.
    Mode(u32),
}

/// The owner of a file, directory or link that a case gives.
#[derive(Clone, Copy)]
pub enum Owner {
    /// The installation.
    Installation,
    /// The remote itself.
    Remote,
    /// The commit above.
    Commit,
}

impl Owner {
    /// Returns whether it is the installation.
    pub fn is_installation(self) -> bool {
        matches!(self, Owner::Installation)
    }

    /// Returns whether it is the remote itself.
    pub fn is_remote(self) -> bool {
        matches!(self, Owner::Remote)
    }
}

/// A file, directory or link that is put somewhere.
#[derive(Drop)]
pub struct Fixture {
    /// Its owner.
    pub owner: Owner,
    /// The path below the owner.
    pub path: String,
    /// The thing that is put there. The bytes of a file are the content of the step.
    pub kind: FixtureKind,
    /// The number of times that it is put there. Each time, the next number from 0 replaces
    /// `{number}` in the path.
    pub times: u64,
}

/// A thing that is put at a path.
#[derive(Drop)]
pub enum FixtureKind {
    /// A file with these permission bits.
    File { mode: u32 },
    /// An empty directory.
    Folder,
    /// A symlink with this text.
    Link { text: String },
    /// A hard link of the file at this path.
    HardLink { file: String },
}

/// A command. The output that is expected of it is the content of its step.
#[derive(Drop)]
pub struct Command {
    /// The words after the name of the program.
    pub words: Vec<String>,
    /// The bytes of its input.
    pub input: Vec<u8>,
    /// The pieces in which the input comes, if that matters.
    pub pieces: Option<Pieces>,
    /// The expected exit status.
    pub status: u8,
    /// The call of the host that fails, if one does.
    pub failure: Option<Failure>,
    /// The expected number of calls of the host, if that matters.
    pub calls: Option<u64>,
    /// The expected number of files that it creates, if that matters.
    pub makes: Option<u64>,
    /// The expected number of bytes that it appends to files, if that matters.
    pub appends: Option<u64>,
    /// Whether it is first run with its input truncated after each byte.
    pub has_cuts: bool,
}

impl Command {
    /// Creates a command with these words and this input. It is expected to end with status 0.
    pub fn new(words: Vec<String>, input: Vec<u8>) -> Self {
        Command {
            words,
            input,
            pieces: None,
            status: 0,
            failure: None,
            calls: None,
            makes: None,
            appends: None,
            has_cuts: false,
        }
    }
}

/// An input in pieces of one size, with the most calls that the command may make to take it. First,
/// each of these calls fails in turn.
#[derive(Clone, Copy)]
pub struct Pieces {
    /// The most bytes of a piece.
    pub size: usize,
    /// The most calls that take the input, including the one that finds its end.
    pub calls: u64,
}

/// A call of the host that fails.
#[derive(Clone, Copy)]
pub struct Failure {
    /// The number of the call, counted from 0 at the command.
    pub call: u64,
    /// Whether the call is done in spite of its failure.
    pub is_done: bool,
}

/// The failures while a command runs. Each number counts from 0.
#[derive(Clone, Copy)]
pub struct Failing {
    /// The call of its input that fails.
    pub input: Option<u64>,
    /// The call of the remotes that fails.
    pub remotes: Option<u64>,
    /// The read of the remotes whose first byte is changed. Only reads that return bytes count.
    pub turned: Option<u64>,
}

impl Failing {
    /// Creates it without any failure.
    pub fn none() -> Self {
        Failing {
            input: None,
            remotes: None,
            turned: None,
        }
    }
}

/// The expectations of a case that is also run with a crash and with a failure at each call.
#[derive(Drop)]
pub struct Stops {
    /// The number of its line, from 1.
    pub line: u64,
    /// The names at which a crash may bring something back, at the last moment where it may bring
    /// back anything, each on a line with the number of its earlier entries. Not checked if empty.
    pub open: Vec<u8>,
    /// The words of the command that has to work on whatever a crash left; none for the default
    /// command.
    pub next: Option<Vec<String>>,
    /// The lists that the installation shows at first and after each printed line. Not checked if
    /// empty.
    pub shown: Vec<ShownText>,
}

/// The lists that the installation is expected to show at one moment.
#[derive(Drop)]
pub struct ShownText {
    /// The number of its line, from 1.
    pub line: u64,
    /// The output of the list commands, with names in braces in place of digests.
    pub text: Vec<u8>,
}
