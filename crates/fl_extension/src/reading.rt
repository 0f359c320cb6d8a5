//! Reading the extension points of a key file.

ghost use Rattle.std.specs.Prelude.{◌≡◌, ◌++◌, true, map, IfOk, OnOk, OnErr};
ghost use Rattle.std.specs.List.{flat_map};
ghost use Rattle.fp_keyfile.specs.KeyFile.{are_distinct};
ghost use Rattle.fp_name.specs.Grammar as grammar;
ghost use Rattle.fp_small.specs.Order.{sorted_by};
ghost use Rattle.fl_extension.specs.Points as spec;

use crate::candidates::candidates_of;
use crate::group::{is_directory, is_on};
use crate::point::Point;
use fl_meta::extension_name;
use fp_base::{Items, Text};
use fp_keyfile::{Group, KeyFile};
use fp_name::{AppId, RefName, is_id};
use std::alloc::{AllocError, Global};

/// Makes the point of a group with this NAME and directory.
fn point_with(
    alloc: Global,
    group: &Group,
    of: &RefName,
    name: &str,
    directory: &str,
) -> Result<Point, AllocError>
    requires { grammar.is_id name.now ≡ true }
    ensures { IfOk result (λ point. point ≡ spec.point_with group.now of.now name.now
        directory.now) }
{
    Ok(Point {
        name: AppId::of_id(alloc, name)?,
        directory: Text::from_str(alloc, directory)?,
        candidates: Items::from_vec(candidates_of(alloc, group, of, name)?),
        auto: !is_on(group, "no-autodownload"),
    })
}

/// Appends the point of a group with this NAME. Does nothing if the group isn't a valid one.
fn push_named(
    out: &mut Vec<Point>,
    group: &Group,
    of: &RefName,
    name: &str,
) -> Result<(), AllocError>
    ensures points { OnOk result (out.new.items ≡ out.old.items ++ spec.point_named group.now of.now
        name.now) }
    ensures error { OnErr result (spec.HasPoint (spec.point_named group.now of.now name.now)) }
{
    if !is_id(name) || is_on(group, "subdirectories") {
        return Ok(());
    }
    match group.get("directory") {
        Some(directory) if is_directory(directory) => {
            let point = point_with(*out.allocator(), group, of, name, directory)?;
            out.push(point)?;
            Ok(())
        }
        _ => Ok(()),
    }
}

/// Appends the point of a group. Does nothing if the group isn't a valid group `Extension NAME`.
#[tactic(auto, using(crate::proofs::Having::has_more), unfolding(crate::specs::Points::point_of))]
fn push_point(out: &mut Vec<Point>, group: &Group, of: &RefName) -> Result<(), AllocError>
    ensures points { OnOk result (out.new.items ≡ out.old.items ++ spec.point_of of.now group.now) }
    ensures error { OnErr result (spec.HasPoint (spec.point_of of.now group.now)) }
{
    match extension_name(group) {
        Some(name) => push_named(out, group, of, name),
        None => Ok(()),
    }
}

/// Returns the points of the groups, in the order of the groups.
fn points_in(alloc: Global, groups: &[Group], of: &RefName) -> Result<Vec<Point>, AllocError>
    ensures points { IfOk result (λ points. points.items ≡ flat_map (spec.point_of of.now)
        groups.now) }
    ensures error { OnErr result (spec.HasPoint (flat_map (spec.point_of of.now) groups.now)) }
{
    let mut points = Vec::new(alloc);
    for group in groups {
        push_point(&mut points, group, of)?;
    }
    Ok(points)
}

/// Sorts points by the bytes of their names, which are distinct.
fn sort_by_name(points: &mut Vec<Point>)
    requires { are_distinct (map spec.name_of points.old.items) ≡ true }
    ensures { points.new.items ≡ sorted_by spec.name_of points.old.items }
{
    points.sort_unstable_by(|a, b| a.name.as_str().cmp(b.name.as_str()));
}

/// Returns the extension points in the metadata of a ref, ascending by the bytes of their names, as
/// flatpak-metadata(5) describes.
///
/// A group `Extension NAME` is a point if NAME is an ID, `directory` is a path other than the root,
/// without `=` and control characters and without a space or tab at its end, and `subdirectories`
/// isn't `true`. Its candidates are the runtimes NAME of the ref's architecture at the branches
/// that `versions` lists, or else at the branch `version`, or else at the ref's own. A version that
/// isn't a branch is left out, and a branch that is listed again counts only at its first position.
/// `versions` is split as a list of permissions. The point is automatic unless `no-autodownload` is
/// `true`.
#[tactic(auto, unfolding(crate::specs::Points::points_of))]
pub fn points(alloc: Global, file: &KeyFile, of: &RefName) -> Result<Items<Point>, AllocError>
    ensures points { IfOk result (λ points. points ≡ spec.points_of file.now of.now) }
    // Memory runs out only if there is a point.
    ensures error { OnErr result (spec.HasPoint (flat_map (spec.point_of of.now) file.now)) }
{
    let mut points = points_in(alloc, file.groups().as_slice(), of)?;
    sort_by_name(&mut points);
    Ok(Items::from_vec(points))
}
