//! The host in memory.
ghost use Rattle.std.specs.Prelude.{◌≡◌, ◌≤◌, ◌+◌, ◌-◌, ◌^◌, ℕ, List, Option, Some, Ok, Err, IsTrue, IfOk, IfSome, OnOk, OnErr, min, length};
ghost use Rattle.fp_host.specs.Calls.{Can};
ghost use Rattle.fp_memhost.specs.Scenes.{seen};
ghost use Rattle.fp_memhost.specs.Replay.{change_of};
ghost use Rattle.fp_memhost.specs.Appended.{TellsAppended};
ghost use Rattle.fp_memhost.specs.Images.{opened, IsImage, GivesImage, ChoicesOf};
ghost use Rattle.fp_memhost.specs.Start.{Begins, TellsPrinted, empty_view};
ghost use Rattle.fp_memhost.specs.Story.{fails_at};
ghost use Rattle.fp_memhost.specs.Plays.{done_by, Played, Looked, IsStarved};

use crate::choosing::{can_choose, choices_of, choose};
use crate::event::Event;
use crate::history::History;
use crate::image::{Choice, Image};
use crate::opening::open_image;
use crate::scene::Scene;
use crate::story::Recorder;
use fp_base::Items;
use fp_host::{Host, HostError, Path};
use std::alloc::{AllocError, Global};

/// A host in memory, for tests. It records its changes, and computes the images that a crash after
/// any number of its calls may leave.
#[derive(Drop)]
pub struct MemHost {
    history: History,
    failing: Vec<(u64, bool)>,
    pub(crate) faults: u64,
    starved: u64,
}

/// Returns whether the change of a call is done, by how the call is to fail. A failing sync changes
/// nothing.
fn is_to_be_done(verdict: Option<bool>, event: &Event) -> bool
    ensures { result ≡ done_by verdict event.now }
{
    match verdict {
        None => true,
        Some(is_late) => is_late && !event.is_sync(),
    }
}

impl MemHost {
    /// Creates an empty host: only the root exists, nothing is printed, and no call was made.
    pub fn new(alloc: Global) -> Result<Self, AllocError>
        ensures { IfOk result (λ m. Begins empty_view (⟦<MemHost as Recorder>⟧.story m)
            (⟦<MemHost as Host>⟧.moments m) (⟦<MemHost as Host>⟧.faults m)) }
    {
        let start = Image {
            names: Items::from_vec(Vec::new(alloc)),
            files: Items::from_vec(Vec::new(alloc)),
        };
        let history = History::new(start, Scene::empty(alloc)?);
        Ok(MemHost {
            history,
            failing: Vec::new(alloc),
            faults: 0,
            starved: 0,
        })
    }

    /// Creates a host that opens the image again: a name counts only if each of its ancestors is a
    /// directory. No call was made, and nothing is printed.
    pub fn from_image(alloc: Global, image: Image) -> Result<Self, AllocError>
        requires { IsImage image }
        ensures { IfOk result (λ m. Begins (opened image) (⟦<MemHost as Recorder>⟧.story m)
            (⟦<MemHost as Host>⟧.moments m) (⟦<MemHost as Host>⟧.faults m)) }
    {
        let scene = open_image(alloc, &image)?;
        let history = History::new(image, scene);
        Ok(MemHost {
            history,
            failing: Vec::new(alloc),
            faults: 0,
            starved: 0,
        })
    }

    /// Returns the chosen image among those that a crash after this number of calls may leave.
    /// Returns `None` exactly if a listed name has no entry with its number, a listed file wasn't
    /// created since the last sync at that moment, or fewer calls were made. Errs if memory runs
    /// out.
    pub fn image_after(&self, calls: u64, choice: &Choice) -> Result<Option<Image>, AllocError>
        ensures gives { IfOk result (GivesImage ((⟦<MemHost as Recorder>⟧.story self.now).after
            calls) choice.now) }
        ensures good { IfOk result (λ given. IfSome given IsImage) }
    {
        if calls > self.history.calls {
            return Ok(None);
        }
        let scene = self.history.scene_after(calls)?;
        if !can_choose(&scene, choice) {
            return Ok(None);
        }
        Ok(Some(choose(self.alloc(), &scene, choice)?))
    }

    /// Returns the names with earlier entries, which a crash after this number of calls may bring
    /// back, ascending by their texts, each with the number of these entries. The list is empty if
    /// fewer calls were made. Errs if memory runs out.
    pub fn choices(&self, calls: u64) -> Result<Items<(Path, u64)>, AllocError>
        ensures { IfOk result (ChoicesOf ((⟦<MemHost as Recorder>⟧.story self.now).after calls)) }
    {
        if calls > self.history.calls {
            return Ok(Items::from_vec(Vec::new(self.alloc())));
        }
        choices_of(self.alloc(), &self.history.scene_after(calls)?)
    }

    /// Returns the number of bytes that were appended to files created below this path since the
    /// start, at most 2^64 - 1. Allocates nothing.
    pub fn appended(&self, front: &Path) -> u64
        ensures { TellsAppended front.now (⟦<MemHost as Host>⟧.moments self.now)
            (⟦<MemHost as Recorder>⟧.story self.now).made result }
    {
        self.history.appended(front)
    }

    /// Returns all printed bytes. Allocates nothing.
    pub fn printed(&self) -> &[u8]
        ensures { TellsPrinted (⟦<MemHost as Host>⟧.moments self.now) result.now }
    {
        &self.history.scene.printed
    }

    /// Returns the number of calls so far; it stays at 2^64 - 1 once it gets there.
    pub fn calls(&self) -> u64
        ensures { result ≡ (⟦<MemHost as Recorder>⟧.story self.now).calls }
    {
        self.history.calls
    }

    /// Returns the number of calls that failed because memory for their record ran out; it stays at
    /// 2^64 - 1 once it gets there.
    pub fn starved(&self) -> u64
        ensures { result ≡ (⟦<MemHost as Recorder>⟧.story self.now).starved }
    {
        self.starved
    }

    /// Makes the calls with these numbers, counted from 0 over all calls, fail. The flag is whether
    /// the call's change is done nevertheless; if not, a crash may still leave it done. A failing
    /// sync changes nothing, and neither does a failing call whose condition doesn't hold. If a
    /// number is listed twice, the first counts. The list replaces an earlier one. Errs if memory
    /// runs out, and then nothing changes.
    pub fn fail_calls(&mut self, list: &[(u64, bool)]) -> Result<(), AllocError>
        ensures ok { OnOk result (⟦<MemHost as Recorder>⟧.story self.new ≡ record
            (⟦<MemHost as Recorder>⟧.story self.old) { fails = fails_at list.now }) }
        ensures err { OnErr result (⟦<MemHost as Recorder>⟧.story self.new ≡
            ⟦<MemHost as Recorder>⟧.story self.old) }
        ensures any_moment { ⟦<MemHost as Host>⟧.moments self.new ≡ ⟦<MemHost as Host>⟧.moments
            self.old }
        ensures faults { ⟦<MemHost as Host>⟧.faults self.new ≡ ⟦<MemHost as Host>⟧.faults self.old }
    {
        self.failing = list.to_vec(self.alloc())?;
        Ok(())
    }

    /// Returns `None` if the next call isn't to fail, else whether its change is done nevertheless.
    fn verdict(&self) -> Option<bool>
        ensures { result ≡ fails_at self.now.failing.items self.now.history.calls }
    {
        let call = self.history.calls;
        for (number, is_late) in &self.failing {
            if *number == call {
                return Some(*is_late);
            }
        }
        None
    }

    /// Counts a call that changes nothing, and returns its answer, or `Failed` if the call is to
    /// fail.
    pub(crate) fn look<T: Drop>(&mut self, answer: Result<T, HostError>) -> Result<T, HostError>
        ensures { Looked answer self.old self.new result }
    {
        let verdict = self.verdict();
        self.history.skip();
        match verdict {
            None => answer,
            Some(_) => {
                self.faults = self.faults.saturating_add(1);
                Err(HostError::Failed)
            }
        }
    }

    /// Counts a call that fails because memory for its record ran out.
    fn starve(&mut self) -> Result<(), HostError>
        ensures { IsStarved self.old self.new result }
    {
        self.history.skip();
        self.faults = self.faults.saturating_add(1);
        self.starved = self.starved.saturating_add(1);
        Err(HostError::Failed)
    }

    /// Counts a call that makes a change, and does and records it if its condition holds. `None` as
    /// the event means that memory for it ran out.
    pub(crate) fn play(&mut self, can: bool, event: Option<Event>) -> Result<(), HostError>
        requires { IsTrue can → IfSome event (λ e. Can (change_of e)
            (seen self.old.history.scene)) }
        ensures { Played can event self.old self.new result }
    {
        let verdict = self.verdict();
        if !can {
            return self.look(Err(HostError::Clash));
        }
        let Some(event) = event else {
            return self.starve();
        };
        let is_done = is_to_be_done(verdict, &event);
        if !self.history.note(event, is_done) {
            self.faults = self.faults.saturating_add(1);
            self.starved = self.starved.saturating_add(1);
            return Err(HostError::Failed);
        }
        match verdict {
            None => Ok(()),
            Some(_) => {
                self.faults = self.faults.saturating_add(1);
                Err(HostError::Failed)
            }
        }
    }

    /// Returns the host's allocator.
    pub(crate) fn alloc(&self) -> Global {
        *self.failing.allocator()
    }

    /// Returns the present content.
    pub(crate) fn scene(&self) -> &Scene
        ensures { result.now ≡ self.now.history.scene }
    {
        &self.history.scene
    }
}
