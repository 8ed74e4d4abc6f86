//! What holds of each step, whatever shape it is taken from.

ghost use Rattle.lg_xform.specs.Laws.{StepsStayInside};

/// The index before a step is in the shape before it, for each index of the shape after it.
pub fn steps_stay_inside()
    ensures { StepsStayInside }
{}
