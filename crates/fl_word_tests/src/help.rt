//! The output of `fpk --help`.

use crate::rows::agree;
use fl_words::help;
use std::panic::Expect;
use std::slice::Iter;

/// The commands, in the order in which the help shows them.
const COMMANDS: [&str; 36] = [
    "  fpk install NAME REF ",
    "  fpk update ",
    "  fpk update REF ",
    "  fpk uninstall REF ",
    "  fpk uninstall --unused ",
    "  fpk list ",
    "  fpk list --exports ",
    "  fpk info REF ",
    "  fpk launch APP [OPTION..] ",
    "  fpk remote-add NAME URL ",
    "  fpk remote-modify NAME URL ",
    "  fpk remote-delete NAME ",
    "  fpk list --remotes ",
    "  fpk export NAME REF ",
    "  fpk override OPTION [OPTION..] ",
    "  fpk override OPTION [OPTION..] ID ",
    "  fpk override --reset ",
    "  fpk override --reset ID ",
    "  fpk override --show ",
    "  fpk override --show ID ",
    "  fpk pin PATTERN ",
    "  fpk unpin PATTERN ",
    "  fpk list --pins ",
    "  fpk rollback REF ",
    "  fpk fsck ",
    "  fpk batch ",
    "  fpk exercise COUNT ",
    "  fpk filter [RULE..] ",
    "  fpk filter --from=APP ",
    "  fpk filter --system --from=APP ",
    "  fpk show commit ",
    "  fpk show dirtree ",
    "  fpk show dirmeta ",
    "  fpk show value TYPE ",
    "  fpk --help ",
    "  fpk --version ",
];

/// Returns whether a line begins with the next command, or shows none.
fn is_in_order(wanted: &mut Iter<'_, &str>, line: &str) -> bool {
    if !line.starts_with("  fpk ") {
        return true;
    }
    match wanted.next() {
        Some(command) => line.starts_with(*command),
        None => false,
    }
}

/// Checks that each command is at the beginning of one line, in this order, that no other command
/// is, and that a line has at most 80 columns.
#[test]
fn help_has_each_command(rt: HostRuntime) {
    let text = help(rt.alloc()).expect(&rt, "memory");
    let mut wanted = COMMANDS.iter();
    for line in text.as_str().lines() {
        let is_short = line.is_ascii() && line.len() <= 80;
        agree(&rt, line, is_short && is_in_order(&mut wanted, line));
    }
    assert!(rt; wanted.next().is_none());
}
