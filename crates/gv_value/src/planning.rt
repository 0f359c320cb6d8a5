//! Plans of types.
ghost use Rattle.std.specs.Prelude.{◌≡◌, IsTrue, IfOk};
ghost use Rattle.gv_value.specs.Capped.{IsExtent, IsRun};
ghost use Rattle.gv_value.specs.Layout.{greatest_align, end_of};
ghost use Rattle.gv_value.specs.Plans.{plan_shape, is_plan, plan_shapes, are_plans, IsPlanOf, ArePlansOf};
ghost use Rattle.gv_value.specs.Views.{shape_of, shapes_of};

use crate::extent::Extent;
use crate::kind::Kind;
use crate::plan::Plan;
use crate::types::GvType;
use std::alloc::{AllocError, Global};

impl Plan {
    /// Returns the extent of the plan's type.
    pub fn extent(&self) -> Extent
        requires { IsTrue (is_plan self.now) }
        ensures { IsExtent result (plan_shape self.now) }
    {
        match self {
            Plan::Basic(basic) => Extent::of_basic(*basic),
            Plan::Variant => Extent::variant(),
            Plan::Array(extent, _) => *extent,
            Plan::Maybe(extent, _) => *extent,
            Plan::Tuple(run, _) => run.filled(),
            Plan::Entry(run, _) => run.filled(),
        }
    }
}

/// Returns the extent of a run of members: their greatest alignment, and where the last one ends.
fn extent_of_plans(plans: &[Plan]) -> Extent
    requires { IsTrue (are_plans plans.now) }
    ensures { IsRun result (greatest_align (plan_shapes plans.now))
        (end_of 0 (plan_shapes plans.now)) }
{
    let mut run = Extent::no_members();
    for plan in plans {
        run = run.with_member(plan.extent());
    }
    run
}

/// Computes the plan of a type.
#[cycle(plan)]
pub fn plan_of(alloc: Global, of: &GvType) -> Result<Plan, AllocError>
    ensures { IfOk result (λ p. IsPlanOf p (shape_of of.now)) }
{
    match of.kind() {
        Kind::Basic(basic) => Ok(Plan::Basic(basic)),
        Kind::Variant => Ok(Plan::Variant),
        Kind::Array(element) => {
            let element = plan_of(alloc, element)?;
            let extent = element.extent().open();
            Ok(Plan::Array(extent, Box::new(alloc, element)?))
        }
        Kind::Maybe(child) => {
            let child = plan_of(alloc, child)?;
            let extent = child.extent().open();
            Ok(Plan::Maybe(extent, Box::new(alloc, child)?))
        }
        Kind::Tuple(members) => {
            let plans = plans_of(alloc, members)?;
            Ok(Plan::Tuple(extent_of_plans(&plans), plans))
        }
        Kind::Entry(key, value) => {
            let mut plans = Vec::with_capacity(alloc, 2)?;
            plans.push(plan_of(alloc, key)?)?;
            plans.push(plan_of(alloc, value)?)?;
            Ok(Plan::Entry(extent_of_plans(&plans), plans))
        }
    }
}

/// Computes the plans of members.
#[cycle(plan)]
fn plans_of(alloc: Global, members: &[GvType]) -> Result<Vec<Plan>, AllocError>
    ensures { IfOk result (λ ps. ArePlansOf ps.items (shapes_of members.now)) }
{
    let mut plans = Vec::with_capacity(alloc, members.len())?;
    for member in members {
        plans.push(plan_of(alloc, member)?)?;
    }
    Ok(plans)
}
