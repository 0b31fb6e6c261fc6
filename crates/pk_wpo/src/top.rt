// The constraint that an edge gives.

ghost use Rattle.std.specs.Prelude.{◌<◌, length};
ghost use Rattle.pk_plan.specs.Nests.{Holds};
ghost use Rattle.pk_wpo.specs.Constraints.{Top, exit_of};
ghost use Rattle.pk_wpo.specs.Targets.{IsTarget};

use crate::layout::Layout;

/// The exit of the outermost component that holds u and not v, or u itself where there is none.
pub fn top(layout: &Layout, u: u32, v: u32) -> u32
    requires from { u < length layout.now.graph }
    requires to { v < length layout.now.graph }
    ensures { Top (Holds layout.now.items) (exit_of layout.now.graph layout.now.items) u v result }
{
    layout.laid();
    let mut top = u;
    let mut next = layout.innermost(u);
    while let Some(h) = next {
        if layout.holds(h, v) {
            return top;
        }
        top = layout.exit(h);
        next = layout.home(h);
    }
    top
}

/// What the top of u constrains by an edge from u to v: v, or its exit where v is the head of a component that holds u.
pub fn target(layout: &Layout, u: u32, v: u32) -> u32
    requires from { u < length layout.now.graph }
    requires to { v < length layout.now.graph }
    ensures { IsTarget (Holds layout.now.items) (exit_of layout.now.graph layout.now.items) u v result }
{
    layout.laid();
    if layout.holds(v, u) {
        layout.exit(v)
    } else {
        v
    }
}
