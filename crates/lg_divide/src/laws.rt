ghost use Rattle.lg_divide.specs.Reciprocals.{DividesByProduct, HasReciprocal};

/// A quotient of numbers of some bits is a product and a shift, and there is a factor for it with
/// one bit more (Granlund and Montgomery, "Division by Invariant Integers using Multiplication").
pub fn products()
    ensures product { DividesByProduct }
    ensures factor { HasReciprocal }
{}
