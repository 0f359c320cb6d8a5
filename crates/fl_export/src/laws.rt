//! Laws of the definitions in the contracts, for crates that build on them. Each law is the
//! contract of a function with an empty body.
ghost use Rattle.std.specs.Prelude.{◌≡◌, ◌∷◌, [], codes, Some, None};
ghost use Rattle.fl_export.specs.declared.contents.TheConstants.{MOST_BYTES};
ghost use Rattle.fl_export.specs.Exported.{exported, ExportedIsLocal};
ghost use Rattle.fl_export.specs.Rewritten.{rewritten};
ghost use Rattle.fl_export.specs.Sample as sample;

/// States that the exports depend only on the objects of the deployed commits, also if the commits
/// have faults.
pub fn what_is_exported_depends_on_the_objects()
    ensures { ExportedIsLocal }
{}

/// States what a small application exports: its desktop file and its icon, but no file with another
/// name and no icon of another theme. A runtime, and a commit whose objects are missing, export
/// nothing.
pub fn a_small_application_is_exported()
    ensures stable { exported sample.have (sample.state (sample.row sample.stable ∷ []))
        ≡ sample.exports sample.stable
        (codes "[Desktop Entry]\nName=App\nExec=fpk launch app/org.x.App/x86_64/stable --command=run\n") }
    // If two refs export the same path, the export of the first is kept.
    ensures both { exported sample.have
        (sample.state (sample.row sample.beta ∷ sample.row sample.stable ∷ []))
        ≡ sample.exports sample.beta
        (codes "[Desktop Entry]\nName=App\nExec=fpk launch app/org.x.App/x86_64/beta --command=run\n") }
    ensures runtime { exported sample.have (sample.state (sample.row sample.runtime ∷ [])) ≡ [] }
    ensures absent { exported (λ d kind. None) (sample.state (sample.row sample.stable ∷ [])) ≡ [] }
{}

/// States how `Exec` is rewritten: the command is handed on only if no desktop can read it as other
/// words.
pub fn commands_are_rewritten()
    ensures path { rewritten (codes "[A]\nExec=/app/bin/r-u_n.s+h %F\n") sample.stable
        ≡ Some (codes "[A]\nExec=fpk launch app/org.x.App/x86_64/stable --command=/app/bin/r-u_n.s+h\n") }
    ensures field { rewritten (codes "[A]\nExec=%i x\n") sample.stable
        ≡ Some (codes "[A]\nExec=fpk launch app/org.x.App/x86_64/stable\n") }
    ensures quote { rewritten (codes "[A]\nExec=\"run\" x\n") sample.stable
        ≡ Some (codes "[A]\nExec=fpk launch app/org.x.App/x86_64/stable\n") }
    ensures dollar { rewritten (codes "[A]\nExec=$HOME/run\n") sample.stable
        ≡ Some (codes "[A]\nExec=fpk launch app/org.x.App/x86_64/stable\n") }
    ensures backslash { rewritten (codes "[A]\nExec=r\\\\sun\n") sample.stable
        ≡ Some (codes "[A]\nExec=fpk launch app/org.x.App/x86_64/stable\n") }
    ensures empty { rewritten (codes "[A]\nExec=\n") sample.stable
        ≡ Some (codes "[A]\nExec=fpk launch app/org.x.App/x86_64/stable\n") }
    ensures no_key_file { rewritten (codes "Exec=run\n") sample.stable ≡ None }
{}

/// States which pairs are left out of an exported desktop file, by their keys.
pub fn pairs_are_left_out()
    ensures language { rewritten (codes "[A]\nExec[de]=a\nTryExec[de]=b\nTryExec=c\nName=d\n")
        sample.stable ≡ Some (codes "[A]\nName=d\n") }
    ensures foreign { rewritten
        (codes "[A]\nX-Flatpak=a\nX-GNOME-Bugzilla-ExtraInfoScript=b\nName=d\n")
        sample.stable ≡ Some (codes "[A]\nName=d\n") }
    ensures folder { rewritten (codes "[A]\nPath=/srv\nName=d\n") sample.stable
        ≡ Some (codes "[A]\nName=d\n") }
    ensures service { rewritten (codes "[A]\nDBusActivatable=true\nName=d\n") sample.stable
        ≡ Some (codes "[A]\nName=d\n") }
    ensures expanded { rewritten (codes "[A]\nIcon[$e]=$HOME/x\nIcon[de][$e]=a\nName=d\n")
        sample.stable ≡ Some (codes "[A]\nName=d\n") }
    ensures odd { rewritten (codes "[A]\nIcon\\x=a\nIcon[de=b\nIcon[]=c\nName=d\n") sample.stable
        ≡ Some (codes "[A]\nName=d\n") }
    ensures kept { rewritten (codes "[A]\nX-A9=a\nName[sr_RS.UTF-8@latin]=b\n") sample.stable
        ≡ Some (codes "[A]\nX-A9=a\nName[sr_RS.UTF-8@latin]=b\n") }
{}

/// States the maximum length of an exported desktop file as a number of bytes: 1 MiB.
pub fn desktop_files_are_short()
    ensures { MOST_BYTES ≡ 1048576 }
{}
