//! What holds of the common type and of kinds. Each law is a function's contract.

ghost use Rattle.lg_promote.specs.Laws.{Commutes, KeepsType, HoldsBoth, IsLeast, IsNoneHolds, IsReflexive, IsTransitive, HoldsKind};

/// The order of two types makes no difference, and a type is what it has in common with itself.
pub fn order_is_free()
    ensures commutes { Commutes }
    ensures same { KeepsType }
{}

/// The common type has all numbers of both types, and each type that has them has all of the common
/// type's; where there is no common type, no type has all numbers of both.
pub fn common_is_least()
    ensures both { HoldsBoth }
    ensures least { IsLeast }
    ensures none { IsNoneHolds }
{}

/// Same kind is an order, and each type that has all numbers of another is of the same kind.
pub fn kinds_are_ordered()
    ensures reflexive { IsReflexive }
    ensures transitive { IsTransitive }
    ensures holds { HoldsKind }
{}
