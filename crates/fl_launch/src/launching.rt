//! The text of an application's launch.

ghost use Rattle.std.specs.Prelude.{◌≡◌, ◌++◌, [], IsSome, IfOk, OnOk, string_bytes};
ghost use Rattle.std.specs.Option.{option_copied};
ghost use Rattle.fl_meta.specs.declared.permission.Permission.{Permission};
ghost use Rattle.fl_context.specs.Grants.{IsAscending, last_mention, value_in};
ghost use Rattle.fl_launch.specs.Layers.{all_mentions, granted_by};
ghost use Rattle.fl_launch.specs.Launch as spec;

use crate::extensions::{commit_of, extensions_of};
use crate::granted::{granted_groups, has_session_bus};
use crate::layers::grants_of;
use crate::mounts::push_mounts;
use crate::writing::{push_groups, push_header, push_line, push_line_if};
use fl_context::Grants;
use fl_extension::Point;
use fl_meta::{Layer, Meta};
use fp_base::{Items, Text};
use fp_name::RefName;
use fp_small::State;
use std::alloc::{AllocError, Global};

/// The description of a launch's sandbox.
#[derive(Drop)]
pub struct LaunchText {
    /// The text, in the style of the file `/.flatpak-info` (flatpak-run(1)).
    pub text: Text,
    /// The last mention of each permission, which grants or denies it, ascending.
    pub grants: Grants,
}

/// Returns the command of the options, or else that of the metadata.
fn command_of<'a>(word: Option<&'a str>, app: &'a Meta) -> Option<&'a str>
    ensures { option_copied result ≡ spec.command_of (option_copied word.entry) app.now.command }
{
    match (word, &app.command) {
        (Some(word), _) => Some(word),
        (None, Some(command)) => Some(command.as_str()),
        (None, None) => None,
    }
}

/// Appends the line of the command, if there is one.
fn push_command(out: &mut String, command: Option<&str>) -> Result<(), AllocError>
    ensures { OnOk result (string_bytes out.new ≡ string_bytes out.old ++ spec.command_line
        (option_copied command.entry)) }
{
    match command {
        Some(command) => push_line(out, "command", command),
        None => Ok(()),
    }
}

/// Appends the group `Application`.
#[tactic(auto, unfolding(crate::specs::Launch::application))]
fn push_application(
    out: &mut String,
    name: &RefName,
    runtime: &RefName,
    command: Option<&str>,
) -> Result<(), AllocError>
    ensures { OnOk result (string_bytes out.new ≡ string_bytes out.old ++ spec.application name.now
        runtime.now (option_copied command.entry)) }
{
    push_header(out, "Application")?;
    push_line(out, "name", name.id())?;
    push_line(out, "runtime", runtime.as_str())?;
    push_command(out, command)
}

/// Appends the header of the group `Instance`, and the lines with the commits of the application
/// and its runtime, the architecture and the branch.
#[tactic(auto, unfolding(crate::specs::Launch::commits))]
fn push_commits(
    alloc: Global,
    out: &mut String,
    state: &State,
    name: &RefName,
    runtime: &RefName,
) -> Result<(), AllocError>
    ensures { OnOk result (string_bytes out.new ≡ string_bytes out.old ++ spec.commits state.now
        name.now runtime.now) }
{
    let app_commit = commit_of(alloc, state, name)?;
    let runtime_commit = commit_of(alloc, state, runtime)?;
    push_header(out, "Instance")?;
    push_line(out, "app-commit", app_commit.as_str())?;
    push_line(out, "runtime-commit", runtime_commit.as_str())?;
    push_line(out, "arch", name.arch())?;
    push_line(out, "branch", name.branch())
}

/// Appends the lines with the extensions of the application and of its runtime; leaves out a line
/// without extensions.
#[tactic(auto, unfolding(crate::specs::Launch::extension_lines))]
fn push_extensions(
    alloc: Global,
    out: &mut String,
    state: &State,
    app_points: &[Point],
    runtime_points: &[Point],
) -> Result<(), AllocError>
    ensures { OnOk result (string_bytes out.new ≡ string_bytes out.old ++ spec.extension_lines
        state.now app_points.now runtime_points.now) }
{
    let of_app = extensions_of(alloc, state, app_points)?;
    let of_runtime = extensions_of(alloc, state, runtime_points)?;
    push_line_if(out, "app-extensions", &of_app)?;
    push_line_if(out, "runtime-extensions", &of_runtime)
}

/// Appends the line that records whether the session bus goes through a proxy: it does, unless the
/// socket `session-bus` is granted.
#[tactic(auto, unfolding(crate::specs::Launch::proxy_line))]
fn push_proxy(alloc: Global, out: &mut String, grants: &Grants) -> Result<(), AllocError>
    ensures { OnOk result (string_bytes out.new ≡ string_bytes out.old ++ spec.proxy_line
        grants.now) }
{
    let word = if has_session_bus(alloc, grants)? {
        "false"
    } else {
        "true"
    };
    push_line(out, "session-bus-proxy", word)
}

/// Returns the text of a launch with this runtime, command and permissions.
fn text_with(
    alloc: Global,
    state: &State,
    name: &RefName,
    runtime: &RefName,
    app_points: &[Point],
    runtime_points: &[Point],
    command: Option<&str>,
    grants: &Grants,
) -> Result<String, AllocError>
    ensures { IfOk result (λ text. string_bytes text ≡ spec.text_with state.now name.now runtime.now
        app_points.now runtime_points.now (option_copied command.entry) grants.now) }
{
    let mut out = String::new(alloc);
    push_application(&mut out, name, runtime, command)?;
    push_commits(alloc, &mut out, state, name, runtime)?;
    push_extensions(alloc, &mut out, state, app_points, runtime_points)?;
    push_proxy(alloc, &mut out, grants)?;
    let groups = granted_groups(alloc, grants.as_slice())?;
    push_groups(&mut out, groups.as_slice())?;
    push_mounts(alloc, &mut out, state, app_points, runtime_points)?;
    Ok(out)
}

/// Returns the launch of an application with extension points. The application's metadata has to
/// name a runtime.
///
/// Its text has the groups `Application` and `Instance`, in which `app-extensions` and
/// `runtime-extensions` list the extension that is found for each point; then the granted
/// permissions, written as in an override, with a group `Unknown` for those that aren't known; and
/// last the group `Mounts` with a line for each extension that is found. The last mention of a
/// permission decides, in this order: the metadata of the runtime and of the application, the
/// global override, the application's override, and the options.
#[tactic(auto, unfolding(crate::specs::Launch::launch_text))]
pub fn launch_extended(
    alloc: Global,
    state: &State,
    name: &RefName,
    app: &Meta,
    runtime: &Meta,
    app_points: &Items<Point>,
    runtime_points: &Items<Point>,
    words: &Layer,
    command: Option<&str>,
) -> Result<LaunchText, AllocError>
    requires { IsSome app.now.runtime }
    ensures text { IfOk result (λ t. t.text ≡ spec.launch_text state.now name.now app.now
        app_points.now runtime_points.now (option_copied command.entry) t.grants) }
    ensures grants { IfOk result (λ t. t.grants ≡ granted_by
        (all_mentions state.now name.now.id app.now runtime.now words.now)) }
    ensures last { IfOk result (λ t. (p : Permission) → value_in t.grants p ≡ last_mention
        (all_mentions state.now name.now.id app.now runtime.now words.now) p) }
    ensures ascending { IfOk result (λ t. IsAscending t.grants) }
{
    let base = app.runtime.as_ref().unwrap();
    let grants = grants_of(alloc, state, name.id(), app, runtime, words)?;
    let text = text_with(
        alloc,
        state,
        name,
        base,
        app_points.as_slice(),
        runtime_points.as_slice(),
        command_of(command, app),
        &grants,
    )?;
    Ok(LaunchText {
        text: Text::from_string(text),
        grants,
    })
}

/// Returns the launch of an application, as `launch_extended` does if there are no extension
/// points.
pub fn launch(
    alloc: Global,
    state: &State,
    name: &RefName,
    app: &Meta,
    runtime: &Meta,
    words: &Layer,
    command: Option<&str>,
) -> Result<LaunchText, AllocError>
    requires { IsSome app.now.runtime }
    ensures text { IfOk result (λ t. t.text ≡ spec.launch_text state.now name.now app.now [] []
        (option_copied command.entry) t.grants) }
    ensures grants { IfOk result (λ t. t.grants ≡ granted_by
        (all_mentions state.now name.now.id app.now runtime.now words.now)) }
    ensures last { IfOk result (λ t. (p : Permission) → value_in t.grants p ≡ last_mention
        (all_mentions state.now name.now.id app.now runtime.now words.now) p) }
    ensures ascending { IfOk result (λ t. IsAscending t.grants) }
{
    let none = Items::from_vec(Vec::new(alloc));
    launch_extended(
        alloc, state, name, app, runtime, &none, &none, words, command,
    )
}
