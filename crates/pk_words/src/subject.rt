// What a board is about.

ghost use Rattle.std.specs.Prelude.{◌≡◌, ◌^◌, ◌<◌};
ghost use Rattle.pk_layout.specs.Wirings.{IsWired};

use pk_iterate::System;
use pk_layout::Layout;
use pk_plan::Plan;
use std::marker::Model;

/// A system with its plan, the slots of its elements, how often each element may run, and whether cells are let go of once nothing
/// reads them any more.
#[derive(Drop)]
pub struct Subject<'a, Y: System> {
    system: &'a Y,
    plan: &'a Plan,
    layout: Layout,
    limit: u64,
    lean: bool,
}

impl<'a, Y: System> Model for Subject<'a, Y> {
    ghost use Rattle.pk_words.specs.Subjects.{SubjectView};
    ghost use Rattle.pk_layout.specs.Wirings.{IsWired};

    ghost Value = { SubjectView Y };

    ghost view = { λ s. record {
      system = s.system.now;
      wiring = record { plan = s.plan.now; limit = s.limit; layout = s.layout };
      lean = s.lean;
    } };

    ghost invariant = { λ s. IsWired (Y.meaning s.system.now) (record {
      plan = s.plan.now;
      limit = s.limit;
      layout = s.layout;
    }) };
}

impl<'a, Y: System> Subject<'a, Y> {
    pub fn new(
        system: &'a Y,
        plan: &'a Plan,
        layout: Layout,
        limit: u64,
        lean: bool,
    ) -> Subject<'a, Y>
        requires { IsWired (Y.meaning system.now) (record { plan = plan.now; limit = limit; layout = layout }) }
        ensures { result ≡ record {
          system = system.now;
          wiring = record { plan = plan.now; limit = limit; layout = layout };
          lean = lean;
        } }
    {
        Subject {
            system,
            plan,
            layout,
            limit,
            lean,
        }
    }

    /// All that a board asks of them holds.
    pub fn wired(&self)
        ensures { IsWired (Y.meaning self.now.system) self.now.wiring }
    {
        let _limit = self.limit;
    }

    /// The system.
    pub fn system(&self) -> &'a Y
        ensures { result.now ≡ self.now.system }
    {
        self.system
    }

    /// The plan.
    pub fn plan(&self) -> &'a Plan
        ensures { result.now ≡ self.now.wiring.plan }
    {
        self.plan
    }

    /// The slots.
    pub fn layout(&self) -> &Layout
        ensures { result.now ≡ self.now.wiring.layout }
    {
        &self.layout
    }

    /// Whether cells are let go of.
    pub fn is_lean(&self) -> bool
        ensures { result ≡ self.now.lean }
    {
        self.lean
    }

    /// How often an element may run.
    pub fn limit(&self) -> u64
        ensures { result ≡ self.now.wiring.limit }
    {
        self.limit
    }
}
