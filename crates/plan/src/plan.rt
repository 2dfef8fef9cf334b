// A plan: its nodes, and what is known of them since they were filled in.
ghost use Rattle.std.specs.Prelude.{◌≡◌, ◌<◌, length};
ghost use Rattle.ordered.specs.Lists.{items_in};
ghost use Rattle.plan.specs.Filling.{Earlier};
ghost use Rattle.plan.specs.Gathering.{leaves_of};
ghost use Rattle.plan.specs.Parts.{Measured, Offsets, Roomy};
ghost use Rattle.plan.specs.Steps.{nodes_in, widths_in, starts_in};

use crate::leaf::PlanLeaf;
use crate::step::Step;
use ordered::Few;

pub mod fill;
pub mod naming;
pub mod truth;

#[derive(Clone, Copy)]
pub struct Plan {
    steps: Few<Step, 16>,
    leaves: Few<PlanLeaf, 6>,
    ghost some: { 0 < length (nodes_in (items_in steps)) },
    ghost early: { Earlier (nodes_in (items_in steps)) },
    ghost wide: { Measured (nodes_in (items_in steps)) (length (nodes_in (items_in steps))) (widths_in (items_in steps)) },
    ghost starts: { Offsets (nodes_in (items_in steps)) (widths_in (items_in steps)) (starts_in (items_in steps)) },
    ghost room: { Roomy (length (nodes_in (items_in steps))) (widths_in (items_in steps)) (starts_in (items_in steps)) },
    ghost stand: { items_in leaves ≡ leaves_of (nodes_in (items_in steps)) },
}
