//! The kinds of lines in a case, by their first characters.

/// The form in which the bytes of a content or an input are written.
#[derive(Clone, Copy)]
pub enum Form {
    /// As lines, each with a newline.
    Lines,
    /// As lines, the last one without a newline.
    Open,
    /// As hexadecimal digits.
    Hex,
}

/// The kind of a line.
#[derive(Clone, Copy)]
pub enum Sign {
    /// `case NAME`: begins a case. The lines up to the next one are played over a new host.
    Case,
    /// `+ PATH`: puts a file there, with the content that follows.
    Fixture(Form),
    /// `/ PATH`: makes a directory there.
    Folder,
    /// `@ PATH TEXT`: makes a symlink with this text there.
    Link,
    /// `& PATH FILE`: makes a hard link of the file at the path FILE there.
    HardLink,
    /// `times NUMBER`: puts what is given above at this many paths, with a number in each.
    Times,
    /// `fill NUMBER TEXT`: appends this many copies of the text to the last line of the file's
    /// content.
    Fill,
    /// `remote URL`: begins the lines about the remote with this URL.
    Remote,
    /// `commit LABEL REF TIME`: makes a commit of what follows, which the remote offers under the
    /// ref.
    Commit,
    /// `offer REF LABEL`: lets the remote offer this commit under the ref.
    Offer,
    /// `break LABEL KIND HOW`, `break LABEL file PATH HOW`: damages an object of the remote.
    Break,
    /// `replace NAME by OTHER`: puts another object in the place of an object of the remote.
    Replace,
    /// `$ WORDS`: runs a command, which is expected to print the lines that follow.
    Command,
    /// `< LINE`: adds a line to the input of the command.
    Input(Form),
    /// `<0 NUMBER`: adds this many zero bytes to the input.
    Zeros,
    /// `<! SIZE CALLS`: splits the input into pieces of this size, which at most this many calls
    /// take. First, each of these calls fails in turn.
    Pieces,
    /// `? NUMBER`: the expected exit status, which is 0 without this line.
    Status,
    /// `! NUMBER`: lets this call of the host fail without being done.
    FailureUndone,
    /// `!+ NUMBER`: lets this call of the host fail, although it is done.
    FailureDone,
    /// `calls NUMBER`: the expected number of calls of the host.
    Calls,
    /// `makes NUMBER`: the expected number of files that are created.
    Makes,
    /// `appends NUMBER`: the expected number of bytes that are appended to files.
    Appends,
    /// `cuts`: runs the command with its input truncated after each byte first.
    Cuts,
    /// `= PATH`: expects a file there now, with exactly the content that follows.
    File(Form),
    /// `=/ PATH`: expects a directory there now.
    FoundFolder,
    /// `=@ PATH TEXT`: expects a symlink with this text there now.
    FoundLink,
    /// `=& PATH FILE`: expects the same file there and at the path FILE now.
    FoundHardLink,
    /// `- PATH`: expects nothing there now.
    Absent,
    /// `from here`: treats everything so far as durable. Crashes are tried from here on.
    FromHere,
    /// `stops`: runs the case again, with a crash and with a failure at each call of the host.
    Stops,
    /// `next WORDS`: the command that is run on whatever a crash left.
    Next,
    /// `shown`: what the installation shows before the first line that is printed, or after the
    /// next one.
    ShownText,
    /// Two spaces, and a line of content of a line above.
    Content,
    /// An empty line, or a comment, which begins with `#`.
    Blank,
    /// Anything else.
    Unknown,
}

/// A line, split into its sign and the rest.
#[derive(Clone, Copy)]
pub struct Line<'a> {
    /// The kind of the line.
    pub sign: Sign,
    /// The text after the sign.
    pub text: &'a str,
}

/// The signs that are followed by a text.
const BEFORE_TEXT: [(&str, Sign); 36] = [
    ("  ", Sign::Content),
    ("#", Sign::Blank),
    ("case ", Sign::Case),
    ("+ ", Sign::Fixture(Form::Lines)),
    ("+- ", Sign::Fixture(Form::Open)),
    ("+x ", Sign::Fixture(Form::Hex)),
    ("/ ", Sign::Folder),
    ("@ ", Sign::Link),
    ("& ", Sign::HardLink),
    ("times ", Sign::Times),
    ("fill ", Sign::Fill),
    ("remote ", Sign::Remote),
    ("commit ", Sign::Commit),
    ("offer ", Sign::Offer),
    ("break ", Sign::Break),
    ("replace ", Sign::Replace),
    ("$ ", Sign::Command),
    ("< ", Sign::Input(Form::Lines)),
    ("<- ", Sign::Input(Form::Open)),
    ("<x ", Sign::Input(Form::Hex)),
    ("<0 ", Sign::Zeros),
    ("<! ", Sign::Pieces),
    ("? ", Sign::Status),
    ("! ", Sign::FailureUndone),
    ("!+ ", Sign::FailureDone),
    ("calls ", Sign::Calls),
    ("makes ", Sign::Makes),
    ("appends ", Sign::Appends),
    ("next ", Sign::Next),
    ("= ", Sign::File(Form::Lines)),
    ("=- ", Sign::File(Form::Open)),
    ("=x ", Sign::File(Form::Hex)),
    ("=/ ", Sign::FoundFolder),
    ("=@ ", Sign::FoundLink),
    ("=& ", Sign::FoundHardLink),
    ("- ", Sign::Absent),
];

/// The signs that are a whole line.
const ALONE: [(&str, Sign); 7] = [
    ("", Sign::Blank),
    ("$", Sign::Command),
    ("<", Sign::Input(Form::Lines)),
    ("cuts", Sign::Cuts),
    ("from here", Sign::FromHere),
    ("stops", Sign::Stops),
    ("shown", Sign::ShownText),
];

/// Finds the kind of a line by its first characters.
pub fn line_of(line: &str) -> Line<'_> {
    for (word, sign) in &ALONE {
        if *word == line {
            return Line {
                sign: *sign,
                text: "",
            };
        }
    }
    for (front, sign) in &BEFORE_TEXT {
        if let Some(text) = line.strip_prefix(*front) {
            return Line { sign: *sign, text };
        }
    }
    Line {
        sign: Sign::Unknown,
        text: line,
    }
}
