//! Loops: their bounds, and what a turn binds.
ghost use Rattle.std.specs.Prelude.{◌≡◌, ℕ, [], true, false, IfOk, IfErr, OnOk, is_err};
ghost use Rattle.lg_tree.specs.View.{tree_of, maybe_of};
ghost use Rattle.lg_meaning.specs.Loops.{bounds_of};
ghost use Rattle.lg_meaning.specs.Memory.{State, weak as weak_bound};
ghost use Rattle.lg_meaning.specs.Step.{rebound};
ghost use Rattle.lg_meaning.specs.Weak.{integer as weak_integer};
ghost use Rattle.lg_operations.specs.Operations.{IsRanged};
ghost use Rattle.lg_session.specs.Roots.{contents};
ghost use Rattle.lg_session.specs.Standing.{StandsFor};
ghost use Rattle.lg_session.specs.Values.{IsUsable, IsFirstBound};
ghost use Rattle.lg_session.specs.Built.{is_built_tree, is_built_maybe};
ghost use Rattle.lg_session.specs.Turns.{bounds_in, AreRangedBounds, AreTurns, StopsOpening};

use crate::evaluation::evaluate;
use crate::forms::integer;
use crate::names::Bound;
use crate::session::{Session, Stop, StopEnd};
use crate::value::Value;
use lg_operations::{EvaluateEnd, Weak};
use lg_outside::NoMemory;
use lg_tile::Room;
use lg_tree::Expr;

/// The turns of a loop: its variable goes from one number up to below another.
#[derive(Clone, Copy, Debug, PartialEq, Eq)]
pub struct Turns {
    /// The first number.
    pub from: i128,

    /// What the variable stays below.
    pub to: i128,
}

impl Session {
    ghost use Rattle.lg_session.specs.Session.{IsTidyAt, is_spent, pieces_of};

    /// Performs the line of a loop by itself: gives the bounds of its turns. They are those of the
    /// moment; nothing that a turn does changes them.
    ///
    /// # Errors
    ///
    /// The fault of the bounds, with the number of the line, and `NoMemory`. The session is then
    /// spent.
    pub fn open_loop(
        &mut self,
        room: Room<'_>,
        line: u64,
        from: &Option<Expr>,
        to: &Expr,
    ) -> Result<Turns, Stop>
        requires going { is_spent self.old ≡ false }
        requires first { is_built_maybe (maybe_of from.now) ≡ true }
        requires second { is_built_tree (tree_of to.now) ≡ true }
        ensures done { IfOk result (λ turns. (state : State) → StandsFor self.old state
            → bounds_of (maybe_of from.now) (tree_of to.now) state.names ≡ Ok (bounds_in turns)) }
        ensures ranged { IfOk result AreRangedBounds }
        ensures same { OnOk result (self.new ≡ self.old) }
        ensures stopped { IfErr result (λ stop. (state : State) → StandsFor self.old state
            → StopsOpening stop.end line
            (bounds_of (maybe_of from.now) (tree_of to.now) state.names)) }
        ensures quiet { IfErr result (λ stop. stop.log.items ≡ []) }
        ensures spent { is_spent self.new ≡ is_err result }
        ensures tidy { (root : ℕ) → IsTidyAt self.old root → IsTidyAt self.new root }
        ensures pieces { pieces_of self.new ≡ pieces_of self.old }
    {
        match turns_of(room, self, from, to) {
            Ok(turns) => Ok(turns),
            Err(end) => {
                self.spent = true;
                Err(Stop {
                    log: Vec::new(room.alloc()),
                    end: StopEnd::at(line, end),
                })
            }
        }
    }

    /// Begins a turn of a loop: its variable stands for this number. Where it stands for something
    /// already, this takes no memory.
    ///
    /// # Errors
    ///
    /// `NoMemory`. The session is then spent.
    pub fn bind_turn(&mut self, name: &[u8], value: i128) -> Result<(), NoMemory>
        requires going { is_spent self.old ≡ false }
        requires ranged { IsRanged (weak_integer value) }
        ensures done { OnOk result ((state : State) → StandsFor self.old state → StandsFor self.new
            (rebound name.now (weak_bound (weak_integer value)) state)) }
        ensures spent { is_spent self.new ≡ is_err result }
        ensures tidy { (root : ℕ) → IsTidyAt self.old root → IsTidyAt self.new root }
        ensures pieces { pieces_of self.new ≡ pieces_of self.old }
    {
        match self.bind(name, Bound::Weak(Weak::Integer(value))) {
            Ok(()) => Ok(()),
            Err(_) => {
                self.spent = true;
                Err(NoMemory)
            }
        }
    }
}

// The turns of a loop with these bounds.
fn turns_of(
    room: Room<'_>,
    session: &Session,
    from: &Option<Expr>,
    to: &Expr,
) -> Result<Turns, EvaluateEnd>
    requires first { is_built_maybe (maybe_of from.now) ≡ true }
    requires second { is_built_tree (tree_of to.now) ≡ true }
    ensures outcome { (state : State) → StandsFor session.now state
        → AreTurns (bounds_of (maybe_of from.now) (tree_of to.now) state.names) result }
    ensures ranged { IfOk result AreRangedBounds }
{
    let from = first_bound(room, session, from)?;
    let to = evaluate(room, session, to)?;
    let from = integer(&from)?;
    let to = integer(&to)?;
    Ok(Turns { from, to })
}

// The first bound, 0 where it is left out.
fn first_bound(room: Room<'_>, session: &Session, from: &Option<Expr>) -> Result<Value, EvaluateEnd>
    requires { is_built_maybe (maybe_of from.now) ≡ true }
    ensures usable { IfOk result (IsUsable (contents session.now.roots)) }
    ensures outcome { (state : State) → StandsFor session.now state
        → IsFirstBound (maybe_of from.now) state session.now result }
{
    match from {
        Some(from) => evaluate(room, session, from),
        None => Ok(Value::Weak(Weak::Integer(0))),
    }
}
