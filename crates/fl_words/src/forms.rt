//! The forms of command lines: the place of each word, and the command that the words ask for.
ghost use Rattle.std.specs.Prelude.{◌≡◌, IfOk, IfErr, map, string_bytes};
ghost use Rattle.fl_words.specs.Forms.{place_of, repeats as may_repeat, forms, slots_of, form_command};
ghost use Rattle.fl_words.specs.Reading.{IsMisfit};
ghost use Rattle.fl_words.specs.Reasons.{change_forms};

use crate::command::{Change, Command, Listing, PolicySource, Shown, WordsError};
use crate::limits::CHANGES;
use crate::override_name::OverrideName;
use crate::values::{
    app_override, count_at, from_at, global_name, id_at, name_at, override_at, pattern_at, ref_at,
    remote_in, texts_from, type_at,
};
use std::alloc::Global;

/// A place in a form: what the word there may be. Some places take any number of words.
#[derive(Clone, Copy)]
pub enum Slot {
    /// The given word alone.
    Word(&'static str),
    /// The pattern of a pin.
    Pattern,
    /// The name of a remote.
    Remote,
    /// The URL of a remote.
    Url,
    /// A ref.
    Ref,
    /// A ref of an application.
    App,
    /// An application's ID.
    Id,
    /// The type string of a GVariant type.
    Type,
    /// An option that changes permissions.
    Permission,
    /// Any number of options that change permissions.
    Permissions,
    /// Any number of options of a launch.
    LaunchOptions,
    /// Any number of filter rules.
    Rules,
    /// `--from=` and a ref of an application.
    FromApp,
    /// The number of an exercise's applications.
    Count,
}

impl Slot {
    /// Returns whether any number of words may be at the place.
    pub fn repeats(&self) -> bool
        ensures { result ≡ may_repeat (place_of self.now) }
    {
        matches!(self, Slot::Permissions | Slot::LaunchOptions | Slot::Rules)
    }
}

/// A form of a command line: the words of one command, in which some places vary.
#[derive(Clone, Copy)]
pub enum Form {
    /// `pin PATTERN`.
    Pin,
    /// `unpin PATTERN`.
    Unpin,
    /// `remote-add NAME URL`.
    RemoteAdd,
    /// `remote-modify NAME URL`.
    RemoteModify,
    /// `remote-delete NAME`.
    RemoteDelete,
    /// `install NAME REF`.
    Install,
    /// `update`.
    UpdateAll,
    /// `update REF`.
    UpdateOne,
    /// `uninstall REF`.
    Uninstall,
    /// `uninstall --unused`.
    UninstallUnused,
    /// `rollback REF`.
    Rollback,
    /// `override OPTION [OPTION..]`.
    Override,
    /// `override OPTION [OPTION..] ID`.
    OverrideApp,
    /// `override --reset`.
    OverrideReset,
    /// `override --reset ID`.
    OverrideResetApp,
    /// `list`.
    ListRefs,
    /// `list --remotes`.
    ListRemotes,
    /// `list --pins`.
    ListPins,
    /// `list --exports`.
    ListExports,
    /// `info REF`.
    Info,
    /// `launch APP [OPTION..]`.
    Launch,
    /// `override --show`.
    OverrideShow,
    /// `override --show ID`.
    OverrideShowApp,
    /// `filter [RULE..]`.
    Filter,
    /// `filter --from=APP`.
    FilterFrom,
    /// `filter --system --from=APP`.
    FilterSystemFrom,
    /// `batch`.
    Batch,
    /// `fsck`.
    Fsck,
    /// `export NAME REF`.
    Export,
    /// `exercise COUNT`.
    Exercise,
    /// `show commit`.
    ShowCommit,
    /// `show dirtree`.
    ShowDirTree,
    /// `show dirmeta`.
    ShowDirMeta,
    /// `show value TYPE`.
    ShowValue,
}

/// A form's row of the table: its places, and what the help shows of it.
#[derive(Clone, Copy)]
pub(crate) struct Row {
    /// The form's places, in the order of the words.
    pub slots: &'static [Slot],
    /// The section of the help that shows the form.
    pub section: Section,
    /// The description of the command for the help.
    pub does: &'static str,
}

/// A section of the help, in the order in which the help shows them. A section shows its forms in
/// the order of `Form::all`.
#[derive(Clone, Copy, PartialEq, Eq)]
pub(crate) enum Section {
    /// Installed applications and runtimes.
    Applications,
    /// Remotes.
    Remotes,
    /// Permissions of applications.
    Permissions,
    /// Pins, which keep runtimes that nothing needs.
    Pins,
    /// Commands for use when something is wrong.
    Repair,
    /// Batches and exercises.
    Scripts,
    /// The D-Bus filter.
    Buses,
    /// Commands that print objects and values.
    Objects,
}

impl Form {
    /// Returns all forms, in the order in which they are tried. Those that ask for a `Change` come
    /// first.
    pub fn all() -> &'static [Form]
        ensures { result.now ≡ forms }
    {
        &[
            Form::Pin,
            Form::Unpin,
            Form::RemoteAdd,
            Form::RemoteModify,
            Form::RemoteDelete,
            Form::Install,
            Form::UpdateAll,
            Form::UpdateOne,
            Form::Uninstall,
            Form::UninstallUnused,
            Form::Rollback,
            Form::Override,
            Form::OverrideApp,
            Form::OverrideReset,
            Form::OverrideResetApp,
            Form::ListRefs,
            Form::ListRemotes,
            Form::ListPins,
            Form::ListExports,
            Form::Info,
            Form::Launch,
            Form::OverrideShow,
            Form::OverrideShowApp,
            Form::Filter,
            Form::FilterFrom,
            Form::FilterSystemFrom,
            Form::Batch,
            Form::Fsck,
            Form::Export,
            Form::Exercise,
            Form::ShowCommit,
            Form::ShowDirTree,
            Form::ShowDirMeta,
            Form::ShowValue,
        ]
    }

    /// Returns the forms that ask for a `Change`. The lines of a batch have to be of one of these.
    pub fn changes() -> &'static [Form]
        ensures { result.now ≡ change_forms }
    {
        &Form::all()[..CHANGES]
    }

    /// Returns the form's row of the table.
    pub(crate) fn row(self) -> Row
        ensures { map place_of result.slots.now ≡ slots_of self }
    {
        match self {
            Form::Pin => Row {
                slots: &[Slot::Word("pin"), Slot::Pattern],
                section: Section::Pins,
                does: "keeps the runtimes of a pattern",
            },
            Form::Unpin => Row {
                slots: &[Slot::Word("unpin"), Slot::Pattern],
                section: Section::Pins,
                does: "takes a pin away",
            },
            Form::RemoteAdd => Row {
                slots: &[Slot::Word("remote-add"), Slot::Remote, Slot::Url],
                section: Section::Remotes,
                does: "adds a remote",
            },
            Form::RemoteModify => Row {
                slots: &[Slot::Word("remote-modify"), Slot::Remote, Slot::Url],
                section: Section::Remotes,
                does: "gives a remote another URL",
            },
            Form::RemoteDelete => Row {
                slots: &[Slot::Word("remote-delete"), Slot::Remote],
                section: Section::Remotes,
                does: "takes a remote away",
            },
            Form::Install => Row {
                slots: &[Slot::Word("install"), Slot::Remote, Slot::Ref],
                section: Section::Applications,
                does: "installs a ref from a remote",
            },
            Form::UpdateAll => Row {
                slots: &[Slot::Word("update")],
                section: Section::Applications,
                does: "updates all that is installed",
            },
            Form::UpdateOne => Row {
                slots: &[Slot::Word("update"), Slot::Ref],
                section: Section::Applications,
                does: "updates one ref",
            },
            Form::Uninstall => Row {
                slots: &[Slot::Word("uninstall"), Slot::Ref],
                section: Section::Applications,
                does: "takes a ref away",
            },
            Form::UninstallUnused => Row {
                slots: &[Slot::Word("uninstall"), Slot::Word("--unused")],
                section: Section::Applications,
                does: "takes away runtimes that nothing needs",
            },
            Form::Rollback => Row {
                slots: &[Slot::Word("rollback"), Slot::Ref],
                section: Section::Repair,
                does: "goes back to the commit before",
            },
            Form::Override => Row {
                slots: &[Slot::Word("override"), Slot::Permission, Slot::Permissions],
                section: Section::Permissions,
                does: "changes what all applications may do",
            },
            Form::OverrideApp => Row {
                slots: &[
                    Slot::Word("override"),
                    Slot::Permission,
                    Slot::Permissions,
                    Slot::Id,
                ],
                section: Section::Permissions,
                does: "changes what one application may do",
            },
            Form::OverrideReset => Row {
                slots: &[Slot::Word("override"), Slot::Word("--reset")],
                section: Section::Permissions,
                does: "takes the override for all away",
            },
            Form::OverrideResetApp => Row {
                slots: &[Slot::Word("override"), Slot::Word("--reset"), Slot::Id],
                section: Section::Permissions,
                does: "takes an application's override away",
            },
            Form::ListRefs => Row {
                slots: &[Slot::Word("list")],
                section: Section::Applications,
                does: "prints what is installed",
            },
            Form::ListRemotes => Row {
                slots: &[Slot::Word("list"), Slot::Word("--remotes")],
                section: Section::Remotes,
                does: "prints the remotes",
            },
            Form::ListPins => Row {
                slots: &[Slot::Word("list"), Slot::Word("--pins")],
                section: Section::Pins,
                does: "prints the pins",
            },
            Form::ListExports => Row {
                slots: &[Slot::Word("list"), Slot::Word("--exports")],
                section: Section::Applications,
                does: "prints exported desktop files and icons",
            },
            Form::Info => Row {
                slots: &[Slot::Word("info"), Slot::Ref],
                section: Section::Applications,
                does: "prints what is known of an installed ref",
            },
            Form::Launch => Row {
                slots: &[Slot::Word("launch"), Slot::App, Slot::LaunchOptions],
                section: Section::Applications,
                does: "prints the sandbox of an application",
            },
            Form::OverrideShow => Row {
                slots: &[Slot::Word("override"), Slot::Word("--show")],
                section: Section::Permissions,
                does: "prints the override for all",
            },
            Form::OverrideShowApp => Row {
                slots: &[Slot::Word("override"), Slot::Word("--show"), Slot::Id],
                section: Section::Permissions,
                does: "prints an application's override",
            },
            Form::Filter => Row {
                slots: &[Slot::Word("filter"), Slot::Rules],
                section: Section::Buses,
                does: "filters a recording of a bus by rules",
            },
            Form::FilterFrom => Row {
                slots: &[Slot::Word("filter"), Slot::FromApp],
                section: Section::Buses,
                does: "the same by the grants of an application",
            },
            Form::FilterSystemFrom => Row {
                slots: &[Slot::Word("filter"), Slot::Word("--system"), Slot::FromApp],
                section: Section::Buses,
                does: "the same on the system bus",
            },
            Form::Batch => Row {
                slots: &[Slot::Word("batch")],
                section: Section::Scripts,
                does: "does the commands of the input's lines",
            },
            Form::Fsck => Row {
                slots: &[Slot::Word("fsck")],
                section: Section::Repair,
                does: "prints what is wrong in the store",
            },
            Form::Export => Row {
                slots: &[Slot::Word("export"), Slot::Remote, Slot::Ref],
                section: Section::Remotes,
                does: "makes a remote of the tree in the input",
            },
            Form::Exercise => Row {
                slots: &[Slot::Word("exercise"), Slot::Count],
                section: Section::Scripts,
                does: "tries 1 to 64 made applications",
            },
            Form::ShowCommit => Row {
                slots: &[Slot::Word("show"), Slot::Word("commit")],
                section: Section::Objects,
                does: "prints what a commit says",
            },
            Form::ShowDirTree => Row {
                slots: &[Slot::Word("show"), Slot::Word("dirtree")],
                section: Section::Objects,
                does: "prints the names in a dirtree",
            },
            Form::ShowDirMeta => Row {
                slots: &[Slot::Word("show"), Slot::Word("dirmeta")],
                section: Section::Objects,
                does: "prints the mode of a dirmeta",
            },
            Form::ShowValue => Row {
                slots: &[Slot::Word("show"), Slot::Word("value"), Slot::Type],
                section: Section::Objects,
                does: "prints the size of a GVariant",
            },
        }
    }

    /// Returns the form's places, in the order of the words.
    pub fn slots(self) -> &'static [Slot]
        ensures { map place_of result.now ≡ slots_of self }
    {
        self.row().slots
    }

    /// Returns the command that words of this form ask for. Errs with `BadWords` only if the words
    /// aren't of this form.
    pub(crate) fn command(self, alloc: Global, words: &[String]) -> Result<Command, WordsError>
        ensures ok { IfOk result (λ command. command ≡ form_command self
            (map string_bytes words.now)) }
        ensures bad { IfErr result (IsMisfit self (map string_bytes words.now)) }
    {
        Ok(match self {
            Form::Pin => Command::Change(Change::Pin(pattern_at(alloc, words, 1)?)),
            Form::Unpin => Command::Change(Change::Unpin(pattern_at(alloc, words, 1)?)),
            Form::RemoteAdd => Command::Change(Change::RemoteAdd(remote_in(alloc, words)?)),
            Form::RemoteModify => Command::Change(Change::RemoteModify(remote_in(alloc, words)?)),
            Form::RemoteDelete => Command::Change(Change::RemoteDelete(name_at(alloc, words, 1)?)),
            Form::Install => Command::Change(Change::Install {
                remote: name_at(alloc, words, 1)?,
                name: ref_at(alloc, words, 2)?,
            }),
            Form::UpdateAll => Command::Change(Change::UpdateAll),
            Form::UpdateOne => Command::Change(Change::UpdateOne(ref_at(alloc, words, 1)?)),
            Form::Uninstall => Command::Change(Change::Uninstall(ref_at(alloc, words, 1)?)),
            Form::UninstallUnused => Command::Change(Change::UninstallUnused),
            Form::Rollback => Command::Change(Change::Rollback(ref_at(alloc, words, 1)?)),
            Form::Override => Command::Change(Change::OverrideChange {
                name: OverrideName::global(alloc)?,
                options: texts_from(alloc, words, 1)?,
            }),
            Form::OverrideApp => Command::Change(app_override(alloc, words)?),
            Form::OverrideReset => Command::Change(Change::OverrideReset {
                name: OverrideName::global(alloc)?,
            }),
            Form::OverrideResetApp => Command::Change(Change::OverrideReset {
                name: override_at(alloc, words, 2)?,
            }),
            Form::ListRefs => Command::List(Listing::Refs),
            Form::ListRemotes => Command::List(Listing::Remotes),
            Form::ListPins => Command::List(Listing::Pins),
            Form::ListExports => Command::List(Listing::Exports),
            Form::Info => Command::List(Listing::Info(ref_at(alloc, words, 1)?)),
            Form::Launch => Command::List(Listing::Launch {
                name: ref_at(alloc, words, 1)?,
                options: texts_from(alloc, words, 2)?,
            }),
            Form::OverrideShow => Command::List(Listing::OverrideShow {
                name: global_name(alloc)?,
            }),
            Form::OverrideShowApp => Command::List(Listing::OverrideShow {
                name: id_at(alloc, words, 2)?,
            }),
            Form::Filter => { Command::Filter(PolicySource::Rules(texts_from(alloc, words, 1)?)) }
            Form::FilterFrom => Command::Filter(PolicySource::Session(from_at(alloc, words, 1)?)),
            Form::FilterSystemFrom => {
                Command::Filter(PolicySource::System(from_at(alloc, words, 2)?))
            }
            Form::Batch => Command::Batch,
            Form::Fsck => Command::Fsck,
            Form::Export => {
                let remote = name_at(alloc, words, 1)?;
                let name = ref_at(alloc, words, 2)?;
                Command::Export { remote, name }
            }
            Form::Exercise => Command::Exercise(count_at(alloc, words, 1)?),
            Form::ShowCommit => Command::Show(Shown::Commit),
            Form::ShowDirTree => Command::Show(Shown::DirTree),
            Form::ShowDirMeta => Command::Show(Shown::DirMeta),
            Form::ShowValue => Command::Show(Shown::Value(type_at(alloc, words, 2)?)),
        })
    }
}
