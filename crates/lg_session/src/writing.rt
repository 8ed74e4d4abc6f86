//! Statements that write: `w[items] = e`, `w op= e` and `w[items] op= e`. The value is computed whole
//! before the first element changes.
ghost use Rattle.std.specs.Prelude.{◌≡◌, ℕ, ℤ, map, true, Ok, IfOk, List, Result};
ghost use Rattle.std.specs.FinMap.{get};
ghost use Rattle.lg_elem.specs.Types.{wrap};
ghost use Rattle.lg_shape.specs.Shapes.{whole};
ghost use Rattle.lg_tile.specs.Tiles.{dtype_of, numbers, rect_of};
ghost use Rattle.lg_xform.specs.Chains.{shape_of};
ghost use Rattle.lg_tree.specs.Tree.{name, arith, put as put_statement, update as update_statement, update_at as update_at_statement};
ghost use Rattle.lg_tree.specs.View.{tree_of, item_of, item_trees};
ghost use Rattle.lg_meaning.specs.declared.fault.FaultKind.{FaultKind};
ghost use Rattle.lg_meaning.specs.Assignments.{array_named, target_of};
ghost use Rattle.lg_meaning.specs.Expressions.{items_of};
ghost use Rattle.lg_meaning.specs.Memory.{State, View as ViewOf, writable};
ghost use Rattle.lg_meaning.specs.Step.{step, write_step, update_answer};
ghost use Rattle.lg_session.specs.Built.{is_built_tree, are_built_items};
ghost use Rattle.lg_operations.specs.Views.{view_of};
ghost use Rattle.lg_session.specs.Names.{environment};
ghost use Rattle.lg_operations.specs.Operations.{right_for};
ghost use Rattle.lg_session.specs.Roots.{contents};
ghost use Rattle.lg_session.specs.Session.{IsBound, IsDone, IsTidyAt};
ghost use Rattle.lg_session.specs.Standing.{StandsFor, roots_in, names_in};
ghost use Rattle.lg_session.specs.Stored.{IsHeld};
ghost use Rattle.lg_session.specs.Values.{value_static, value_in, IsUsable};
ghost use Rattle.lg_session.specs.Worlds.{IsInside, IsShown};
ghost use Rattle.lg_operations.specs.Taking.{put_rule, IsTakenBy};
ghost use Rattle.lg_session.specs.Writing.{IsTarget, ShowsTarget};

use crate::evaluation::{evaluate, evaluate_items, named};
use crate::forms::{arithmetic, operation};
use crate::names::Bound;
use crate::session::Session;
use crate::value::Value;
use crate::viewing::MOST_ITEMS;
use crate::views::index_view;
use lg_meaning::FaultKind;
use lg_operations::{EvaluateEnd, Fresh, binary, is_writable, rule_of_update, taken, taken_fresh};
use lg_store::{Right, View};
use lg_tile::Room;
use lg_tree::{Arith, Expr, Item};

impl Session {
    /// Performs `w[items] = e`.
    ///
    /// # Errors
    ///
    /// The statement's fault, and `NoMemory`.
    pub(crate) fn put(
        &mut self,
        room: Room<'_>,
        word: &[u8],
        items: &[Item],
        value: &Expr,
    ) -> Result<(), EvaluateEnd>
        requires items { are_built_items (item_trees (map item_of items.now)) ≡ true }
        requires value { is_built_tree (tree_of value.now) ≡ true }
        ensures outcome { (state : State) → StandsFor self.old state → IsDone (step
            (put_statement word.now (item_trees (map item_of items.now)) (tree_of value.now)) state)
            self.new result }
        ensures tidy { (root : ℕ) → IsTidyAt self.old root → IsTidyAt self.new root }
        ensures pieces { self.new.pieces ≡ self.old.pieces }
        ensures spent { self.new.spent ≡ self.old.spent }
    {
        let value = evaluate(room, self, value)?;
        let target = part_called(room, self, word, items)?;
        let taken = self.taken(room, &target, value)?;
        self.write(&target, taken)
    }

    /// Performs `w op= e`: an array that is no scalar is written, and anything else bound anew.
    ///
    /// # Errors
    ///
    /// The statement's fault, and `NoMemory`.
    pub(crate) fn update(
        &mut self,
        room: Room<'_>,
        word: &[u8],
        op: Arith,
        value: &Expr,
    ) -> Result<(), EvaluateEnd>
        requires { is_built_tree (tree_of value.now) ≡ true }
        ensures outcome { (state : State) → StandsFor self.old state
            → IsDone (step (update_statement word.now op (tree_of value.now)) state) self.new result }
        ensures tidy { (root : ℕ) → IsTidyAt self.old root → IsTidyAt self.new root }
        ensures pieces { self.new.pieces ≡ self.old.pieces }
        ensures spent { self.new.spent ≡ self.old.spent }
    {
        match self.names.get(word) {
            Some(Bound::Array(view)) => match view.right {
                Right::Scalar => self.update_anew(room, word, op, value),
                Right::Writable | Right::ReadOnly => self.update_view(room, &view, op, value),
            },
            Some(Bound::Weak(_)) | None => self.update_anew(room, word, op, value),
        }
    }

    /// Performs `w[items] op= e`.
    ///
    /// # Errors
    ///
    /// The statement's fault, and `NoMemory`.
    pub(crate) fn update_at(
        &mut self,
        room: Room<'_>,
        word: &[u8],
        items: &[Item],
        op: Arith,
        value: &Expr,
    ) -> Result<(), EvaluateEnd>
        requires items { are_built_items (item_trees (map item_of items.now)) ≡ true }
        requires value { is_built_tree (tree_of value.now) ≡ true }
        ensures outcome { (state : State) → StandsFor self.old state → IsDone (step
            (update_at_statement word.now (item_trees (map item_of items.now)) op
            (tree_of value.now)) state) self.new result }
        ensures tidy { (root : ℕ) → IsTidyAt self.old root → IsTidyAt self.new root }
        ensures pieces { self.new.pieces ≡ self.old.pieces }
        ensures spent { self.new.spent ≡ self.old.spent }
    {
        let target = part_called(room, self, word, items)?;
        self.update_view(room, &target, op, value)
    }

    // Lets a name stand for the result of the operation on what it stands for.
    fn update_anew(
        &mut self,
        room: Room<'_>,
        word: &[u8],
        op: Arith,
        value: &Expr,
    ) -> Result<(), EvaluateEnd>
        requires { is_built_tree (tree_of value.now) ≡ true }
        ensures outcome { (state : State) → StandsFor self.old state
            → IsBound word.now (arith op (name word.now) (tree_of value.now)) state self.new result }
        ensures tidy { (root : ℕ) → IsTidyAt self.old root → IsTidyAt self.new root }
        ensures pieces { self.new.pieces ≡ self.old.pieces }
        ensures spent { self.new.spent ≡ self.old.spent }
    {
        let a = named(self, word)?;
        let b = evaluate(room, self, value)?;
        let result = arithmetic(room, self, op, &a, &b)?;
        b.release(room);
        self.bind_value(word, result)
    }

    // Writes the result of the operation on what a view shows to the view.
    fn update_view(
        &mut self,
        room: Room<'_>,
        view: &View,
        op: Arith,
        value: &Expr,
    ) -> Result<(), EvaluateEnd>
        requires held { IsHeld (contents self.old.roots) view.now }
        requires value { is_built_tree (tree_of value.now) ≡ true }
        ensures outcome { (state : State) (target : Result ViewOf FaultKind) → StandsFor self.old state
            → ShowsTarget target state self.old view.now
            → IsDone (write_step state (update_answer op (tree_of value.now) state target))
            self.new result }
        ensures tidy { (root : ℕ) → IsTidyAt self.old root → IsTidyAt self.new root }
        ensures pieces { self.new.pieces ≡ self.old.pieces }
        ensures spent { self.new.spent ≡ self.old.spent }
    {
        let value = evaluate(room, self, value)?;
        let (a, b) = (self.read_view(view), self.read(&value));
        let made = binary(room, self.pieces, operation(op), &a, &b)?;
        value.release(room);
        rule_of_update(&made, view)?;
        let taken = taken_fresh(room, self.pieces, made, view.dtype, &view.chain.shape())?;
        self.write(view, taken)
    }

    // What a view takes of a value that is put there. A new array of its type and shape is not copied.
    fn taken(&self, room: Room<'_>, target: &View, value: Value) -> Result<Fresh, EvaluateEnd>
        requires held { IsHeld (contents self.now.roots) target.now }
        requires usable { IsUsable (contents self.now.roots) value }
        ensures { IsTakenBy (put_rule (view_of target.now).kind (value_static value))
            target.now.dtype (shape_of target.now.chain) (value_in (contents self.now.roots) value)
            result }
    {
        if !is_writable(target.right) {
            return Err(EvaluateEnd::Fault(FaultKind::ReadOnly));
        }
        let (t, shape) = (target.dtype, target.chain.shape());
        match value {
            Value::Fresh(fresh) => taken_fresh(room, self.pieces, fresh, t, &shape),
            Value::Weak(_) | Value::Shown(_) => {
                taken(room, self.pieces, &self.read(&value), t, &shape)
            }
        }
    }

    // Writes an array through a view. With a fault of an element it is written all the same.
    fn write(&mut self, target: &View, taken: Fresh) -> Result<(), EvaluateEnd>
        requires held { IsHeld (contents self.old.roots) target.now }
        requires right { right_for target.now.right ≡ writable }
        requires dtype { dtype_of taken.tile ≡ target.now.dtype }
        requires rect { rect_of taken.tile ≡ whole (shape_of target.now.chain) }
        ensures outcome { (state : State) (there : ViewOf) (values : List ℤ) → StandsFor self.old state
            → IsInside (roots_in state) there
            → IsShown (environment self.old.names) (names_in state) (view_of target.now) there
            → numbers taken.tile ≡ map (wrap target.now.dtype) values
            → IsDone (write_step state (Ok (record {
              target = there;
              numbers = values;
              fault = taken.fault;
            }))) self.new result }
        ensures tidy { (root : ℕ) → IsTidyAt self.old root → IsTidyAt self.new root }
        ensures pieces { self.new.pieces ≡ self.old.pieces }
        ensures spent { self.new.spent ≡ self.old.spent }
    {
        let Fresh { tile, fault, .. } = taken;
        self.freed = Some(self.roots.write(target, tile));
        match fault {
            None => Ok(()),
            Some(kind) => Err(EvaluateEnd::Fault(kind)),
        }
    }
}

// The array that a name stands for.
fn array_called(session: &Session, word: &[u8]) -> Result<View, EvaluateEnd>
    ensures held { IfOk result (IsHeld (contents session.now.roots)) }
    ensures target { (state : State) → StandsFor session.now state
        → IsTarget (array_named (get state.names word.now)) state session.now result }
{
    match session.names.get(word) {
        Some(Bound::Array(view)) => Ok(view),
        Some(Bound::Weak(_)) => Err(EvaluateEnd::Fault(FaultKind::TypeKind)),
        None => Err(EvaluateEnd::Fault(FaultKind::Name)),
    }
}

// The view that an index picks of the array that a name stands for, of one element too.
fn part_called(
    room: Room<'_>,
    session: &Session,
    word: &[u8],
    items: &[Item],
) -> Result<View, EvaluateEnd>
    requires { are_built_items (item_trees (map item_of items.now)) ≡ true }
    ensures held { IfOk result (IsHeld (contents session.now.roots)) }
    ensures target { (state : State) → StandsFor session.now state
        → IsTarget (target_of (get state.names word.now)
        (items_of (item_trees (map item_of items.now)) state.names)) state session.now result }
{
    let view = array_called(session, word)?;
    let Some(items) = evaluate_items(room, session, items)? else {
        return Err(EvaluateEnd::Fault(FaultKind::TypeKind));
    };
    if items.len() > MOST_ITEMS {
        return Err(EvaluateEnd::NoMemory);
    }
    Ok(index_view(room, &view, &items)?)
}
