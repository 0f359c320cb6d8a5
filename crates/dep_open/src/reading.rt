//! Reading the state of an installation.
ghost use Rattle.std.specs.Prelude.{◌≡◌, IfOk, IsErrOf};
ghost use Rattle.fp_host.specs.OverHost.{AtReturn, ChangesNothing, FailsAlone};
ghost use Rattle.dep_states.specs.After.{IsGood};
ghost use Rattle.dep_open.specs.Open.{Reads, IsJoined};

use crate::open_end::OpenEnd;
use crate::overrides::read_overrides;
use crate::part::{Part, lesser};
use crate::refs::read_refs;
use crate::settings::read_settings;
use dep_states::Setup;
use fp_base::Items;
use fp_host::Host;
use fp_small::{OverrideRow, RefRow, State};
use std::alloc::Global;

/// Reads the state of the present image, and changes nothing. Errs with `Damaged` only if the image
/// shows no state, with the first damaged path by the bytes of its text.
pub fn read_state<H: Host>(alloc: Global, host: &mut H) -> Result<State, OpenEnd>
    ensures unchanged { ChangesNothing H.Host host.old host.new }
    ensures good { IfOk result IsGood }
    ensures tells { AtReturn H.Host host.old host.new (λ u w. Reads u result) }
    ensures fault_has_cause { FailsAlone H.Host host.old host.new (IsErrOf result OpenEnd.Fault) }
{
    let settings = read_settings(alloc, host)?;
    let refs = read_refs(alloc, host)?;
    let overrides = read_overrides(alloc, host)?;
    state_of_parts(settings, refs, overrides)
}

/// Joins the parts to a state. Errs with the first damaged path, if any.
fn state_of_parts(
    settings: Part<Setup>,
    refs: Part<Items<RefRow>>,
    overrides: Part<Items<OverrideRow>>,
) -> Result<State, OpenEnd>
    ensures { IsJoined settings refs overrides result }
{
    match lesser(lesser(settings.damaged, refs.damaged), overrides.damaged) {
        Some(path) => Err(OpenEnd::Damaged(path)),
        None => Ok(State {
            layout: settings.found.layout,
            refs: refs.found,
            remotes: settings.found.settings.remotes,
            pins: settings.found.settings.pins,
            overrides: overrides.found,
        }),
    }
}
