//! Digests by halves: each half of the items is hashed on a thread of its own.

ghost use Rattle.std.specs.Prelude.{◌≡◌, IfOk, length};
ghost use Rattle.std.specs.Thread.{IsSync};
ghost use Rattle.par_digest.specs.Digests.{item_digests};

use crate::gate::{Gate, NoGate};
use crate::item::Item;
use fp_base::Items;
use fp_name::Digest;
use std::alloc::{AllocError, Global};
use std::thread::{Threads, join_mut};

/// The most items that are hashed one after another. Longer lists are split.
const MOST_IN_TURN: usize = 16;

/// Returns the digest of each item, in order. Errs if memory runs out.
pub fn digests(
    rt: &(impl Threads + Sync),
    alloc: Global,
    items: &[Item],
) -> Result<Items<Digest>, AllocError>
    ensures { IfOk result (λ all. all ≡ item_digests items.now) }
{
    digests_gated(rt, alloc, items, &NoGate)
}

/// Returns the digest of each item, in order, whatever the gate does. With more than 16 items, each
/// half calls the gate when its work begins and ends. Errs if memory runs out.
pub fn digests_gated<G: Gate + Sync>(
    rt: &(impl Threads + Sync),
    alloc: Global,
    items: &[Item],
    gate: &G,
) -> Result<Items<Digest>, AllocError>
    ensures { IfOk result (λ all. all ≡ item_digests items.now) }
{
    let mut all = vec![in alloc; Digest::from_bytes([0; 32]); items.len()]?;
    hash_gated(rt, items, gate, &mut all);
    Ok(Items::from_vec(all))
}

/// Writes the digest of each item to `all`. If the items are split, each half calls the gate.
fn hash_gated<R: Threads + Sync, G: Gate + Sync>(
    rt: &R,
    items: &[Item],
    gate: &G,
    all: &mut [Digest],
)
    requires { length all.old ≡ length items.now }
    ensures { all.new ≡ item_digests items.now }
{
    if items.len() <= MOST_IN_TURN {
        hash_in_turn(items, all);
        return;
    }
    let (front, back) = items.split_at(items.len() / 2);
    let (front_digests, back_digests) = all.split_at_mut(items.len() / 2);
    join_mut(
        rt,
        &mut ||
            requires { IsSync R.row × IsSync G.row × (length front_digests.now ≡ length front.now) }
            ensures { front_digests.exit.now ≡ item_digests front.entry.now }
        { hash_half(rt, 0, front, gate, front_digests) },
        &mut ||
            requires { IsSync R.row × IsSync G.row × (length back_digests.now ≡ length back.now) }
            ensures { back_digests.exit.now ≡ item_digests back.entry.now }
        { hash_half(rt, 1, back, gate, back_digests) },
    );
}

/// Writes the digest of each item of this half to `all`, and calls the gate when the work begins
/// and ends.
fn hash_half<R: Threads + Sync, G: Gate + Sync>(
    rt: &R,
    half: u32,
    items: &[Item],
    gate: &G,
    all: &mut [Digest],
)
    requires { length all.old ≡ length items.now }
    ensures { all.new ≡ item_digests items.now }
{
    gate.reach(half);
    gate.watch(half, all);
    hash(rt, items, all);
    gate.watch(half, all);
}

/// Writes the digest of each item to `all`, by halves of halves.
fn hash<R: Threads + Sync>(rt: &R, items: &[Item], all: &mut [Digest])
    requires { length all.old ≡ length items.now }
    ensures { all.new ≡ item_digests items.now }
{
    if items.len() <= MOST_IN_TURN {
        hash_in_turn(items, all);
        return;
    }
    let (front, back) = items.split_at(items.len() / 2);
    let (front_digests, back_digests) = all.split_at_mut(items.len() / 2);
    join_mut(
        rt,
        &mut ||
            requires { IsSync R.row × (length front_digests.now ≡ length front.now) }
            ensures { front_digests.exit.now ≡ item_digests front.entry.now }
        { hash(rt, front, front_digests) },
        &mut ||
            requires { IsSync R.row × (length back_digests.now ≡ length back.now) }
            ensures { back_digests.exit.now ≡ item_digests back.entry.now }
        { hash(rt, back, back_digests) },
    );
}

/// Writes the digest of each item to `all`, one after another.
fn hash_in_turn(items: &[Item], all: &mut [Digest])
    requires { length all.old ≡ length items.now }
    ensures { all.new ≡ item_digests items.now }
{
    for (at, item) in items.iter().enumerate() {
        all[at] = item.digest();
    }
}
