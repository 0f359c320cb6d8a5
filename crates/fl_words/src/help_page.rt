//! The output of `fpk --help`: all forms by section, and what may be at their places.

use crate::forms::{Form, Section};
use crate::reasons::push_places;
use fp_base::Text;
use std::alloc::{AllocError, Global};

/// The column of a command's description, counted from 0.
const COLUMN: usize = 37;

/// The text before the sections.
const HEAD: &str = "fpk installs applications of Flatpak from OSTree repositories.\n";

/// The text after the sections.
const FOOT: &str = "
This:
  fpk --help                         prints this
  fpk --version                      prints the version

Words:
  REF      KIND/ID/ARCH/BRANCH, where KIND is app or runtime
  APP      a REF of an application
  ID       the ID of an application, as org.gnome.Calculator
  NAME     the name of a remote, and URL the folder of its repository as
           file:///PATH
  PATTERN  a REF in which * may stand for ID, ARCH or BRANCH
  OPTION   --share=X, --unshare=X, --socket=X, --nosocket=X, --device=X,
           --nodevice=X, --allow=X, --disallow=X, --filesystem=X,
           --nofilesystem=X, --persist=X, --env=VAR=VALUE, --talk-name=N,
           --own-name=N, --no-talk-name=N, --system-talk-name=N,
           --system-own-name=N or --system-no-talk-name=N; launch takes
           --command=X too
  RULE     --see=N, --talk=N, --own=N, --call=N=RULE or --broadcast=N=RULE,
           where N is a name on the bus, or ends in .* for all below it

Standard input is read by batch (commands), export (a tree), filter (a
recording of a bus) and show (an object of OSTree, or a value of GVariant).

The installation is the folder that FPK_INSTALLATION names, else the folder
`installation` here.
";

impl Section {
    /// Returns all sections, in the order in which the help shows them.
    fn all() -> &'static [Section] {
        &[
            Section::Applications,
            Section::Remotes,
            Section::Permissions,
            Section::Pins,
            Section::Repair,
            Section::Scripts,
            Section::Buses,
            Section::Objects,
        ]
    }

    /// Returns the section's heading, without a newline.
    fn title(self) -> &'static str {
        match self {
            Section::Applications => "Applications:",
            Section::Remotes => "Remotes:",
            Section::Permissions => "Permissions:",
            Section::Pins => "Pins:",
            Section::Repair => "When something is wrong:",
            Section::Scripts => "Scripts and trials:",
            Section::Buses => "The filter of D-Bus:",
            Section::Objects => "Objects and values:",
        }
    }
}

/// Returns the help. It shows each form once, in lines of at most 80 columns.
pub fn help(alloc: Global) -> Result<Text, AllocError> {
    let mut text = String::new(alloc);
    text.push_str(HEAD)?;
    for section in Section::all() {
        push_section(&mut text, *section)?;
    }
    text.push_str(FOOT)?;
    Ok(Text::from_string(text))
}

/// Appends a section to a text.
fn push_section(text: &mut String, section: Section) -> Result<(), AllocError> {
    text.push('\n')?;
    text.push_str(section.title())?;
    text.push('\n')?;
    for form in Form::all() {
        push_form(text, *form, section)?;
    }
    Ok(())
}

/// Appends the line of a form to a text, if the form belongs to the section.
fn push_form(text: &mut String, form: Form, section: Section) -> Result<(), AllocError> {
    let row = form.row();
    if row.section != section {
        return Ok(());
    }
    let before = text.len();
    text.push_str("  fpk")?;
    push_places(text, row.slots)?;
    for _ in text.len().saturating_sub(before)..COLUMN {
        text.push(' ')?;
    }
    text.push_str(row.does)?;
    text.push('\n')
}
