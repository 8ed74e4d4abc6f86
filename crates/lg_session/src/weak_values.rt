//! Expressions of weak numbers alone, as most lines of a loop have. Their values need no room for a
//! view, so they are evaluated by themselves.
ghost use Rattle.std.specs.Prelude.{◌≡◌, Ok, IfSome};
ghost use Rattle.lg_tree.specs.Tree.{name as name_tree};
ghost use Rattle.lg_tree.specs.View.{tree_of};
ghost use Rattle.lg_meaning.specs.Memory.{State};
ghost use Rattle.lg_meaning.specs.Operators.{arith_static};
ghost use Rattle.lg_meaning.specs.Static.{weak_value as weak_kind};
ghost use Rattle.lg_operations.specs.Operations.{weak_of, IsRanged};
ghost use Rattle.lg_session.specs.Standing.{StandsFor};
ghost use Rattle.lg_session.specs.Values.{Means};
ghost use Rattle.lg_session.specs.declared.value.Value.TheVariants.{Weak as WeakValue};

use crate::session::Session;
use lg_operations::{Weak, weak_arith};
use lg_tree::{Arith, Expr};

/// The value of an expression of numbers, names of weak numbers and arithmetic on them; none where
/// anything else stands in it, where it has a fault, and where an operation makes an array of two
/// weak numbers.
#[cycle(weak)]
pub(crate) fn weak_value(session: &Session, value: &Expr) -> Option<Weak>
    ensures ranged { IfSome result (λ w. IsRanged (weak_of w)) }
    ensures means { IfSome result (λ w. (state : State) → StandsFor session.now state
        → Means (tree_of value.now) state session.now (WeakValue w)) }
{
    match value {
        Expr::Number(n) => Some(Weak::Integer(i128::from(*n))),
        Expr::Truth(b) => Some(Weak::Truth(*b)),
        Expr::Name(name) => named_weak(session, name.as_slice()),
        Expr::Arith(op, a, b) => {
            let a = weak_value(session, a.get())?;
            let b = weak_value(session, b.get())?;
            let w = weak_operation(*op, a, b)?;
            Some(w)
        }
        _ => None,
    }
}

// The weak number that a name stands for, if it does.
fn named_weak(session: &Session, word: &[u8]) -> Option<Weak>
    ensures ranged { IfSome result (λ w. IsRanged (weak_of w)) }
    ensures means { IfSome result (λ w. (state : State) → StandsFor session.now state
        → Means (name_tree word.now) state session.now (WeakValue w)) }
{
    session.names.weak(word)
}

// What an operation on two weak numbers gives, if it is a weak number.
fn weak_operation(op: Arith, a: Weak, b: Weak) -> Option<Weak>
    requires first { IsRanged (weak_of a) }
    requires second { IsRanged (weak_of b) }
    ensures ranged { IfSome result (λ w. IsRanged (weak_of w)) }
    ensures computed { IfSome result (λ w. arith_static op (weak_kind (weak_of a))
        (weak_kind (weak_of b)) ≡ Ok (weak_kind (weak_of w))) }
{
    match weak_arith(op, a, b) {
        Some(Ok(w)) => Some(w),
        Some(Err(_)) | None => None,
    }
}
