//! The history of a host in memory.
ghost use Rattle.std.specs.Prelude.{◌≡◌, ◌≤◌, ◌+◌, ◌-◌, ◌^◌, ◌++◌, ◌∷◌, [], false, IfOk, IsTrue, min};
ghost use Rattle.fp_host.specs.View.{IsTree};
ghost use Rattle.fp_host.specs.Calls.{Can};
ghost use Rattle.fp_memhost.specs.Scenes.{seen};
ghost use Rattle.fp_memhost.specs.Appended.{appended_below};
ghost use Rattle.fp_memhost.specs.Images.{opened};
ghost use Rattle.fp_memhost.specs.Replay.{change_of, stepped, view_now, view_after, IsNumbered, AreTrees};
ghost use Rattle.fp_memhost.specs.Made.{made_by, made_of};

use crate::event::{Event, Noted};
use crate::files::size_of;
use crate::folders::is_below;
use crate::image::Image;
use crate::opening::open_image;
use crate::scene::Scene;
use fp_host::Path;
use std::alloc::{AllocError, Global};

/// The history of a host: its content at the start, the changes since then, and its present
/// content.
#[derive(Drop)]
pub struct History {
    /// The content at the start.
    pub start: Image,
    /// The present content.
    pub scene: Scene,
    /// The changes since the start, in order.
    pub log: Vec<Noted>,
    /// The number of calls since the start; it stays at 2^64 - 1 once it gets there.
    pub calls: u64,
    ghost agrees: { seen scene ≡ view_now (opened start) log.items },
    ghost numbered: { IsNumbered calls log.items },
    ghost trees: { ∥ AreTrees (opened start) log.items ∥₁ },
}

/// Does a step and records it. Returns whether there was memory for both; otherwise neither is
/// done.
fn keep(scene: &mut Scene, log: &mut Vec<Noted>, noted: Noted) -> bool
    ensures yes_scene { IsTrue result → seen scene.new ≡ stepped noted (seen scene.old) }
    ensures yes_log { IsTrue result → log.new.items ≡ log.old.items ++ noted ∷ [] }
    ensures no_scene { result ≡ false → seen scene.new ≡ seen scene.old }
    ensures no_log { result ≡ false → log.new.items ≡ log.old.items }
{
    if log.try_reserve(1).is_err() {
        return false;
    }
    if scene.play(&noted).is_err() {
        return false;
    }
    log.push(noted).unwrap();
    true
}

impl History {
    /// Creates a history without calls. The scene must be the image's, as it is when it is opened
    /// again.
    pub fn new(start: Image, scene: Scene) -> Self
        requires same { seen scene ≡ opened start }
        requires tree { IsTree (opened start) }
        ensures start { result.start ≡ start }
        ensures log { result.log.items ≡ [] }
        ensures calls { result.calls ≡ 0 }
    {
        let log = Vec::new(*scene.names.allocator());
        History {
            start,
            scene,
            log,
            calls: 0,
        }
    }

    /// Counts a call that changes nothing.
    pub fn skip(&mut self)
        ensures start { self.new.start ≡ self.old.start }
        ensures log { self.new.log.items ≡ self.old.log.items }
        ensures calls { self.new.calls ≡ min (self.old.calls + 1) (2 ^ 64 - 1) }
        ensures later { self.old.calls ≤ self.new.calls }
    {
        self.calls = self.calls.saturating_add(1);
    }

    /// Counts a call, and records its change. The change is done, or, with `is_done` false, isn't,
    /// but a crash may leave it done. Returns whether there was memory for it; otherwise only the
    /// count changes.
    pub fn note(&mut self, event: Event, is_done: bool) -> bool
        requires { Can (change_of event) (seen self.old.scene) }
        ensures start { self.new.start ≡ self.old.start }
        ensures yes { IsTrue result
            → self.new.log.items ≡ self.old.log.items
            ++ record { call = self.old.calls; is_done = is_done; event = event } ∷ [] }
        ensures no { result ≡ false → self.new.log.items ≡ self.old.log.items }
        ensures calls { self.new.calls ≡ min (self.old.calls + 1) (2 ^ 64 - 1) }
        ensures later { self.old.calls ≤ self.new.calls }
    {
        let noted = Noted {
            call: self.calls,
            is_done,
            event,
        };
        self.calls = self.calls.saturating_add(1);
        keep(&mut self.scene, &mut self.log, noted)
    }
    /// Returns the allocator of the history.
    fn alloc(&self) -> Global {
        *self.log.allocator()
    }

    /// Returns the content after this number of calls, replayed from the start.
    pub fn scene_after(&self, calls: u64) -> Result<Scene, AllocError>
        ensures { IfOk result (λ s. seen s ≡ view_after (opened self.now.start) self.now.log.items
            calls) }
    {
        let mut scene = open_image(self.alloc(), &self.start)?;
        for noted in &self.log {
            if noted.call < calls {
                scene.play(noted)?;
            }
        }
        Ok(scene)
    }
    /// Returns the number of bytes in the files that were created below this path since the start,
    /// at most 2^64 - 1. They all were appended, since a file is created empty and only grows.
    pub fn appended(&self, front: &Path) -> u64
        ensures { result ≡ min (appended_below front.now (seen self.now.scene).files
            (made_of self.now.log.items)) (2 ^ 64 - 1) }
    {
        let mut count: u64 = 0;
        for noted in &self.log {
            count = count.saturating_add(self.grown_by(front, &noted.event));
        }
        count
    }

    /// Returns the length in bytes of the file that the event created below this path; 0 if it
    /// created none.
    fn grown_by(&self, front: &Path, event: &Event) -> u64
        ensures { result ≡ min (appended_below front.now (seen self.now.scene).files
            (made_by event.now)) (2 ^ 64 - 1) }
    {
        match event {
            Event::Create { path, id, .. } if is_below(path, front.text()) => {
                size_of(&self.scene.files, *id)
            }
            _ => 0,
        }
    }
}
