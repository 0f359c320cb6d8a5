//! Texts that are printed to a terminal.
use fp_realhost::Screen;
use fp_realplay::{Kind, Log, Logged};
use std::panic::Expect;
use std::process::Abort;

/// Texts, and what is printed of them to a terminal: what would control it is escaped.
const SHOWN: [(&str, &str); 5] = [
    ("plain\n", "plain\n"),
    (
        "a\u{1b}[31m\r\t\u{7f}\0.",
        "a\\u{1b}[31m\\u{d}\\u{9}\\u{7f}\\u{0}.",
    ),
    ("ü\u{9b}1", "ü\\u{9b}1"),
    (
        "\u{202e}\u{2066}\u{61c}\u{200e}\u{2028}",
        "\\u{202e}\\u{2066}\\u{61c}\\u{200e}\u{2028}",
    ),
    ("", ""),
];

/// Prints these bytes, to a terminal or elsewhere.
fn print_bytes(
    rt: &HostRuntime,
    test: &impl Abort,
    log: &Log<'_>,
    is_terminal: bool,
    bytes: &[u8],
) {
    let system = Logged { rt, log };
    let screen = Screen::new(&system, rt.alloc(), is_terminal);
    screen.write_all(bytes).expect(test, "a write");
}

/// Returns whether the text is printed as expected to a terminal, and unchanged elsewhere.
fn is_shown(rt: &HostRuntime, test: &impl Abort, log: &Log<'_>, text: &str, want: &str) -> bool {
    print_bytes(rt, test, log, true, text.as_bytes());
    let terminal = log.is_one("print", want);
    print_bytes(rt, test, log, false, text.as_bytes());
    terminal && log.is_one("print", text)
}

fn all_shown(rt: &HostRuntime, test: &impl Abort, log: &Log<'_>) {
    for (i, (text, want)) in (&SHOWN).iter().enumerate() {
        log.demand(is_shown(rt, test, log, text, want), i, want);
    }
}

#[test]
fn nothing_drives_a_terminal(rt: HostRuntime) {
    let log = Log::new(rt.alloc(), Kind::Plain);
    all_shown(&rt, &rt, &log);
    assert!(rt; log.all_held(&rt));
}

#[test]
fn bytes_that_are_no_text_are_shown_so(rt: HostRuntime) {
    let log = Log::new(rt.alloc(), Kind::Plain);
    print_bytes(&rt, &rt, &log, true, b"a\x9b\xff\x1b\n");
    assert!(rt; log.is_noted("print a\\x9b\\xff\\u{1b}\n"));
}

/// Returns whether printing errs if the system fails to print, to a terminal or elsewhere.
fn is_told(rt: &HostRuntime, is_terminal: bool) -> bool {
    let log = Log::new(rt.alloc(), Kind::Failing("print words"));
    let system = Logged { rt, log: &log };
    let screen = Screen::new(&system, rt.alloc(), is_terminal);
    screen.write_all(b"words").is_err()
}

#[test]
fn what_cannot_be_printed_is_told(rt: HostRuntime) {
    assert!(rt; is_told(&rt, false) && is_told(&rt, true));
}
