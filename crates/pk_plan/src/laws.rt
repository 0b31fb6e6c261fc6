// Laws of the definitions.

ghost use Rattle.pk_plan.specs.Shape.{ShapesMeet};

/// Of each plan that meets its axioms the shape meets those of shapes.
pub fn shapes_meet()
    ensures { ShapesMeet }
{}
