//! Reasons why words are no command, and why a line of a batch asks for no change.

/// Words that are no command, and the reason.
pub const REASONS: &str = "\
override|org.x.App|--share=ipc|=> \
    fpk: 'org.x.App' is an ID, and stands after at least one option (as --share=network)|\
    usage: fpk override OPTION [OPTION..]|\
    usage: fpk override OPTION [OPTION..] ID|\
    usage: fpk override --reset|\
    usage: fpk override --reset ID|\
    usage: fpk override --show|\
    usage: fpk override --show ID|
override|--share=ipc|--shrae=ipc|=> \
    fpk: '--shrae=ipc' is neither an option (as --share=network) nor an ID (as org.gnome.Calculator)|\
    usage: fpk override OPTION [OPTION..]|\
    usage: fpk override OPTION [OPTION..] ID|
launch|app/org.x.App/x86_64/stable|--env=FOO|=> \
    fpk: '--env=FOO' needs =VAR=VALUE (as --env=LANG=C)|\
    usage: fpk launch APP [OPTION..]|
launch|app/org.x.App/x86_64/stable|--talk-name=foo|=> \
    fpk: '--talk-name=foo' needs =N (a name on the bus, with a dot, as org.gnome.Shell)|\
    usage: fpk launch APP [OPTION..]|
launch|app/org.x.App/x86_64/stable|--socket=x11;wayland|=> \
    fpk: '--socket=x11;wayland' needs =X (one name without ;, = and !)|\
    usage: fpk launch APP [OPTION..]|
launch|app/org.x.App/x86_64/stable|--persist|=> \
    fpk: '--persist' needs =X (one name without ;, = and !)|\
    usage: fpk launch APP [OPTION..]|
filter|--see=org.x|--own=foo|=> \
    fpk: '--own=foo' needs =N (a name on the bus, with a dot, as org.gnome.Shell)|\
    usage: fpk filter [RULE..]|
filter|--see=org.x|--call=org.x|=> \
    fpk: '--call=org.x' needs =N=RULE (as --call=org.gnome.Shell=*)|\
    usage: fpk filter [RULE..]|
filter|--see=org.x|--from=org.x.App|=> \
    fpk: '--from=org.x.App' is not a rule of the filter|\
    usage: fpk filter [RULE..]|
override|--share|=> \
    fpk: '--share' needs =X (one name without ;, = and !)|\
    usage: fpk override OPTION [OPTION..]|\
    usage: fpk override OPTION [OPTION..] ID|\
    usage: fpk override --reset|\
    usage: fpk override --reset ID|\
    usage: fpk override --show|\
    usage: fpk override --show ID|
override|--share=ipc|global|=> \
    fpk: 'global' is neither an option (as --share=network) nor an ID (as org.gnome.Calculator)|\
    usage: fpk override OPTION [OPTION..]|\
    usage: fpk override OPTION [OPTION..] ID|
override|--share=ipc|org.x.App|org.x.App|=> \
    fpk: 'org.x.App' is one word too many|\
    usage: fpk override OPTION [OPTION..] ID|
filter|--see=org.x|--see|=> \
    fpk: '--see' needs =N (a name on the bus, with a dot, as org.gnome.Shell)|\
    usage: fpk filter [RULE..]|
filter|--system|--see=org.x|=> \
    fpk: '--see=org.x' is not --from=APP (expected --from=app/ID/ARCH/BRANCH)|\
    usage: fpk filter --system --from=APP|
launch|org.x.App|=> \
    fpk: 'org.x.App' is not a ref of an application (expected app/ID/ARCH/BRANCH)|\
    usage: fpk launch APP [OPTION..]|
launch|app/org.x.App/x86_64/stable|--share=ipc|x|=> \
    fpk: 'x' is not an option of a launch|\
    usage: fpk launch APP [OPTION..]|
override|--show|global|=> \
    fpk: 'global' is not an ID of an application (expected three parts or more, as org.gnome.Calculator)|\
    usage: fpk override --show|\
    usage: fpk override --show ID|
install|hub|org.x.App|=> \
    fpk: 'org.x.App' is not a ref (expected KIND/ID/ARCH/BRANCH)|\
    usage: fpk install NAME REF|
update|org.x.App|=> \
    fpk: 'org.x.App' is not a ref (expected KIND/ID/ARCH/BRANCH)|\
    usage: fpk update|\
    usage: fpk update REF|
uninstall|=> fpk: missing REF|usage: fpk uninstall REF|usage: fpk uninstall --unused|
uninstall|--unused|x|=> fpk: 'x' is one word too many|usage: fpk uninstall --unused|
pin|app/*/*|=> \
    fpk: 'app/*/*' is not a pattern (expected KIND/ID/ARCH/BRANCH)|\
    usage: fpk pin PATTERN|
unpin|=> fpk: missing PATTERN|usage: fpk unpin PATTERN|
remote-add|a/b|file:///lab|=> \
    fpk: 'a/b' is not a name of a remote (expected letters, digits, _, - and ., as lab-1)|\
    usage: fpk remote-add NAME URL|
remote-modify|lab|/lab|=> \
    fpk: '/lab' is not a URL of a remote (expected file:///PATH with no blank, as file:///srv/lab)|\
    usage: fpk remote-modify NAME URL|
list|pins|=> \
    fpk: 'pins' is not known here|\
    usage: fpk list|\
    usage: fpk list --remotes|\
    usage: fpk list --pins|\
    usage: fpk list --exports|
list|--pins|x|y|=> fpk: 'x' is one word too many|usage: fpk list --pins|
show|value|si|=> fpk: 'si' is not a type of GVariant|usage: fpk show value TYPE|
exercise|65|=> fpk: '65' is not a number from 1 to 64|usage: fpk exercise COUNT|
exercise|4|4|=> fpk: '4' is one word too many|usage: fpk exercise COUNT|
batch|\u{e9}|=> fpk: '\u{e9}' is one word too many|usage: fpk batch|
batch||=> fpk: '' is one word too many|usage: fpk batch|
";

/// Words that a beginner may try, and the reason why they are no command.
pub const FIRST_WORDS: &str = "\
=> fpk: a word is missing|see fpk --help|
|=> fpk: '' is not known here|see fpk --help|
pins|app/*/*/*|=> fpk: 'pins' is not known here|see fpk --help|
remote-ls|hub|=> fpk: 'remote-ls' is not known here|see fpk --help|
-h|=> see fpk --help|
help|=> see fpk --help|
--help|pin|=> see fpk --help|
install|--help|=> usage: fpk install NAME REF|
install|hub|-h|=> usage: fpk install NAME REF|
update|--help|=> usage: fpk update|usage: fpk update REF|
batch|--help|=> usage: fpk batch|
launch|app/org.x.App/x86_64/stable|--filesystem|home|=> \
    fpk: '--filesystem' needs =X (one name without ;, = and !)|\
    usage: fpk launch APP [OPTION..]|
launch|app/org.x.App/x86_64/stable|--command=|=> \
    fpk: '--command=' needs =X (one name without ;, = and !)|\
    usage: fpk launch APP [OPTION..]|
override|--share=ipc|--env|=> \
    fpk: '--env' needs =VAR=VALUE (as --env=LANG=C)|\
    usage: fpk override OPTION [OPTION..]|\
    usage: fpk override OPTION [OPTION..] ID|
override|--share=ipc|--talk-name=|=> \
    fpk: '--talk-name=' needs =N (a name on the bus, with a dot, as org.gnome.Shell)|\
    usage: fpk override OPTION [OPTION..]|\
    usage: fpk override OPTION [OPTION..] ID|
filter|--call|=> \
    fpk: '--call' needs =N=RULE (as --call=org.gnome.Shell=*)|\
    usage: fpk filter [RULE..]|\
    usage: fpk filter --from=APP|\
    usage: fpk filter --system --from=APP|
";

/// A bad word of 1 MiB with 1,100 more after it. It is shown whole.
pub const LONG_WORDS: &str = "\
show|commit|<a*1048576>|<x|*1100>=> fpk: '<a*1048576>' is one word too many|usage: fpk show commit|
";

/// Batches, and the reason why the first bad line asks for no change.
pub const LINES: &str = "\
=> nothing
pin app/*/*/*|unpin app/*/*/*=> nothing
pin app/*/*/*|pin app/*/*|pin x=> \
    fpk: line 2: 'app/*/*' is not a pattern (expected KIND/ID/ARCH/BRANCH)|\
    usage: pin PATTERN|
pin app/*/*/* |=> fpk: line 1: '' is one word too many|usage: pin PATTERN|
remote-add lab file:///lab a b c d e f=> \
    fpk: line 1: 'a' is one word too many|\
    usage: remote-add NAME URL|
remote-delete=> fpk: line 1: missing NAME|usage: remote-delete NAME|
unpin app/*/*/\u{ff}\u{1}|=> \
    fpk: line 1: 'app/*/*/\u{fffd}\\01' is not a pattern (expected KIND/ID/ARCH/BRANCH)|\
    usage: unpin PATTERN|
pin app/*/*/*||list --pins|=> fpk: line 2: '' is not known here|see fpk --help|
";

/// A line with 100,000 spaces at its end, of which the first empty word is shown; and a bad line
/// with the number 1,101.
pub const LONG_LINES: &str = "\
remote-delete lab< *100000>=> \
    fpk: line 1: '' is one word too many|\
    usage: remote-delete NAME|
<remote-delete lab|*1100>remote-delete a/b=> \
    fpk: line 1101: 'a/b' is not a name of a remote \
    (expected letters, digits, _, - and ., as lab-1)|\
    usage: remote-delete NAME|
";
