// What changes a core's elements.

ghost use Rattle.std.specs.Prelude.{◌≡◌, ◌-◌, ◌^◌, ◌<◌, IsTrue, OnOk, OnErr, Some, slice_get};
ghost use Rattle.std.specs.Arc.{arc_value};
ghost use Rattle.pk_plan.specs.Plans.{successors_of};
ghost use Rattle.pk_plan.specs.Axioms.{Axioms};
ghost use Rattle.pk_plan.specs.Shape.{component_of, exits};
ghost use Rattle.pk_core.specs.declared.events.Status.TheVariants.{Done};
ghost use Rattle.pk_core.specs.Shown.{Standing};
ghost use Rattle.pk_core.specs.Entries.{changed, with_new_status, without_send, with_arrival, with_sends, after_run, restarted};

use crate::cores::Core;
use crate::entries::{finish, send, set_status};
use crate::events::Status;
use crate::restarts::restart;
use pk_iterate::System;
use std::alloc::AllocError;
use std::sync::Arc;

impl<'a, Y: System> Core<'a, Y> {
    pub(crate) fn mark(&mut self, e: u32, status: Status)
        requires { e < self.old.plan.elements }
        ensures { self.new ≡ record self.old { elements = changed self.old.elements e (with_new_status status) } }
    {
        set_status(&mut self.entries, e, status);
    }

    pub(crate) fn tell(&mut self, u: u32, v: u32)
        requires u { u < self.old.plan.elements }
        requires v { v < self.old.plan.elements }
        ensures { self.new ≡ record self.old
            { elements = changed (changed self.old.elements u (without_send v)) v with_arrival } }
    {
        send(&mut self.entries, u, v);
    }

    /// A run of e that gives this cell, after which e is done and has all its sends left.
    pub(crate) fn finish(&mut self, e: u32, cell: Arc<Y::Cell>) -> Result<(), AllocError>
        requires e { e < self.old.plan.elements }
        requires room { (x : Standing Y.Cell) → slice_get self.old.elements e ≡ Some x → x.run < 2 ^ 64 - 1 }
        requires held { Y.may_hold self.old.system e (arc_value cell) }
        ensures ok { OnOk result (self.new
            ≡ record self.old {
              elements = changed (changed self.old.elements e (after_run Done (arc_value cell))) e
                  (with_sends (successors_of self.old.plan e));
            }) }
        ensures err { OnErr result (self.new ≡ self.old) }
    {
        let sends = Vec::from_slice(self.alloc, self.plan.successors(e))?;
        finish(&mut self.entries, e, cell, sends);
        Ok(())
    }

    /// A run of the exit x that gives this cell, after which its component is gone through again.
    pub(crate) fn go_back(&mut self, x: u32, cell: Arc<Y::Cell>)
        requires exit { IsTrue (exits self.old.plan x) }
        requires room { (y : Standing Y.Cell) → slice_get self.old.elements x ≡ Some y → y.run < 2 ^ 64 - 1 }
        requires held { Y.may_hold self.old.system x (arc_value cell) }
        ensures axioms { Axioms self.old.plan }
        ensures new { self.new
            ≡ record self.old {
              elements = restarted self.old.plan (component_of self.old.plan x)
                  (arc_value cell) self.old.elements;
            } }
    {
        self.plan.axioms();
        let component = self.plan.component_of(x);
        restart(&mut self.entries, self.plan, component, cell);
    }
}
