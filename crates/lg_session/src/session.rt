ghost use Rattle.std.specs.Prelude.{◌≡◌, ◌≤◌, ℕ, List, [], Some, true, false, OnOk, OnErr, IfOk, IfErr, IsOk, is_err, bytes_eq, if◌then◌else◌};
ghost use Rattle.std.proofs.Props.{props};
ghost use Rattle.lg_tile.specs.Tiles.{numbers};
ghost use Rattle.lg_tree.specs.Tree.{Tree};
ghost use Rattle.lg_tree.specs.View.{tree_of, statement_of, line_of};
ghost use Rattle.lg_meaning.specs.Memory.{State};
ghost use Rattle.lg_meaning.specs.Run.{start};
ghost use Rattle.lg_meaning.specs.Step.{newly_bound};
ghost use Rattle.lg_session.specs.Names.{bound_at};
ghost use Rattle.lg_operations.specs.Views.{view_of};
ghost use Rattle.lg_session.specs.Roots.{contents, root_of};
ghost use Rattle.lg_session.specs.Stored.{AreHeld, AreRanged, IsHeld, IsStored, IsWholeOf};
ghost use Rattle.lg_operations.specs.Operations.{operand_static, operand_value, kind_of, fresh_kind, IsReady, IsWhole};

use crate::evaluation::evaluate;
use crate::names::{Bound, Names};
use crate::roots::Roots;
use crate::text::printed_operand;
use crate::value::Value;
use crate::weak_values::weak_value;
use lg_meaning::FaultKind;
use lg_operations::{EvaluateEnd, Fresh, Operand, shape_in};
use lg_outside::NoMemory;
use lg_store::{Right, View};
use lg_tile::laws::full_tiles;
use lg_tile::{AnyTile, Room};
use lg_tree::{Expr, Line, Statement};
use lg_xform::Chain;
use std::alloc::{AllocError, Global};

/// Evaluates statements one after another. It keeps what names stand for, and into how many tiles
/// an operation is cut at most. What the statements mean is defined in `lg_meaning`; the number of
/// pieces never changes it. Once a statement has not been performed the session is spent, and
/// nothing more is known of what its names stand for.
#[derive(Drop)]
pub struct Session {
    pub(crate) pieces: u32,
    pub(crate) names: Names,
    pub(crate) roots: Roots,
    pub(crate) spent: bool,

    // The elements of the root that was forgotten last, until their memory is given back.
    pub(crate) freed: Option<AnyTile>,
    ghost least: { 1 ≤ pieces },
    ghost most: { pieces ≤ 64 },
    ghost held: { AreHeld (contents roots) names } by { Prim.hlevel props },
    ghost ranged: { AreRanged names } by { Prim.hlevel props },
}

/// Where and why a statement was not performed.
#[derive(Debug, Drop)]
pub struct Stop {
    /// What is to be told of it. It is empty so far.
    pub log: Vec<u8>,

    /// Why.
    pub end: StopEnd,
}

/// Why a statement was not performed.
#[derive(Clone, Copy, Debug, PartialEq, Eq)]
pub enum StopEnd {
    /// The statement of this line has this fault.
    Fault {
        /// The line, from 1.
        line: u64,

        /// The fault.
        kind: FaultKind,
    },

    /// There was not enough memory.
    NoMemory,
}

impl Session {
    ghost use Rattle.lg_session.specs.Standing.{StandsFor};
    ghost use Rattle.lg_session.specs.Built.{is_built, is_built_tree};
    ghost use Rattle.lg_session.specs.Session.{Performs, StopsAt, IsExecuted, IsBound, IsText, IsTidyAt, is_spent, pieces_of};
    ghost use Rattle.lg_session.specs.Values.{value_static, value_in, IsUsable, Means};
    ghost use Rattle.lg_session.specs.Worlds.{shown_in};
    ghost use Rattle.lg_meaning.specs.Static.{array_value};
    ghost use Rattle.lg_meaning.specs.Value.{plain};

    /// A session in which no name is bound, and which cuts each operation into at most so many
    /// tiles. It takes no memory yet.
    pub fn new(alloc: Global, pieces: u32) -> Result<Session, NoMemory>
        requires least { 1 ≤ pieces }
        requires most { pieces ≤ 64 }
        ensures start { IfOk result (λ session. StandsFor session start) }
        ensures fresh { IfOk result (λ session. is_spent session ≡ false) }
        ensures tidy { IfOk result (λ session. (root : ℕ) → IsTidyAt session root) }
        ensures pieces { IfOk result (λ session. pieces_of session ≡ pieces) }
        ensures succeeds { IsOk result }
    {
        Ok(Session {
            pieces,
            names: Names::new(alloc),
            roots: Roots::new(alloc),
            spent: false,
            freed: None,
        })
    }

    /// Whether a statement was not performed. What the names stand for is then not known.
    pub fn spent(&self) -> bool
        ensures { result ≡ is_spent self.now }
    {
        self.spent
    }

    /// Performs the statement of a line, and gives the text that it prints. A root that no name
    /// reaches any more is dropped at once.
    ///
    /// # Errors
    ///
    /// The statement's fault, with the number of its line, and `NoMemory`. The session is then
    /// spent.
    pub fn step(&mut self, room: Room<'_>, line: &Line) -> Result<Vec<u8>, Stop>
        requires going { is_spent self.old ≡ false }
        requires built { is_built (line_of line.now).statement ≡ true }
        ensures done { IfOk result (λ text. (state : State) → StandsFor self.old state →
            Performs (line_of line.now) state text.items self.new) }
        ensures stopped { IfErr result (λ stop. (state : State) → StandsFor self.old state
            → StopsAt stop.end (line_of line.now) state) }
        ensures quiet { IfErr result (λ stop. stop.log.items ≡ []) }
        ensures spent { is_spent self.new ≡ is_err result }
        ensures tidy { (root : ℕ) → IsTidyAt self.old root → IsTidyAt self.new root }
        ensures pieces { pieces_of self.new ≡ pieces_of self.old }
    {
        match self.execute(room, &line.statement) {
            Ok(text) => {
                give_back(room, self.freed.take());
                room.shrink(self.roots.bytes());
                Ok(text)
            }
            Err(end) => {
                self.spent = true;
                Err(Stop {
                    log: Vec::new(room.alloc()),
                    end: StopEnd::at(line.number, end),
                })
            }
        }
    }

    // Performs a statement, and gives the text that it prints.
    fn execute(&mut self, room: Room<'_>, statement: &Statement) -> Result<Vec<u8>, EvaluateEnd>
        requires { is_built (statement_of statement.now) ≡ true }
        ensures outcome { (state : State) → StandsFor self.old state
            → IsExecuted (statement_of statement.now) state result self.new }
        ensures tidy { (root : ℕ) → IsTidyAt self.old root → IsTidyAt self.new root }
        ensures pieces { self.new.pieces ≡ self.old.pieces }
        ensures spent { self.new.spent ≡ self.old.spent }
    {
        match statement {
            Statement::Bind { name, value } => {
                self.assign(room, name.as_slice(), value)?;
                Ok(Vec::new(room.alloc()))
            }
            Statement::Print { value } => self.print(room, value),
            Statement::Update { name, op, value } => {
                self.update(room, name.as_slice(), *op, value)?;
                Ok(Vec::new(room.alloc()))
            }
            Statement::Put { name, index, value } => {
                self.put(room, name.as_slice(), index.as_slice(), value)?;
                Ok(Vec::new(room.alloc()))
            }
            Statement::UpdateAt {
                name,
                index,
                op,
                value,
            } => {
                self.update_at(room, name.as_slice(), index.as_slice(), *op, value)?;
                Ok(Vec::new(room.alloc()))
            }
            Statement::For { .. } | Statement::Load { .. } | Statement::Save { .. } => {
                unreachable!()
            }
        }
    }

    // What `print` writes of an expression.
    fn print(&self, room: Room<'_>, value: &Expr) -> Result<Vec<u8>, EvaluateEnd>
        requires { is_built_tree (tree_of value.now) ≡ true }
        ensures { (state : State) → StandsFor self.now state
            → IsText (tree_of value.now) state result }
    {
        let value = evaluate(room, self, value)?;
        printed_operand(room.alloc(), &self.read(&value))
    }

    // Lets a name stand for the value of an expression, which is computed first.
    fn assign(&mut self, room: Room<'_>, word: &[u8], value: &Expr) -> Result<(), EvaluateEnd>
        requires { is_built_tree (tree_of value.now) ≡ true }
        ensures outcome { (state : State) → StandsFor self.old state
            → IsBound word.now (tree_of value.now) state self.new result }
        ensures tidy { (root : ℕ) → IsTidyAt self.old root → IsTidyAt self.new root }
        ensures pieces { self.new.pieces ≡ self.old.pieces }
        ensures spent { self.new.spent ≡ self.old.spent }
    {
        if let Some(w) = weak_value(self, value) {
            return self.bind_value(word, Value::Weak(w));
        }
        let value = evaluate(room, self, value)?;
        self.bind_value(word, value)
    }

    /// Lets a name stand for a value: a view is shared, and a new array becomes a root. With a fault
    /// of an element the name is bound all the same.
    pub(crate) fn bind_value(&mut self, word: &[u8], value: Value) -> Result<(), EvaluateEnd>
        requires { IsUsable (contents self.old.roots) value }
        ensures outcome { (state : State) (e : Tree) → StandsFor self.old state
            → Means e state self.old value → IsBound word.now e state self.new result }
        ensures tidy { (root : ℕ) → IsTidyAt self.old root → IsTidyAt self.new root }
        ensures pieces { self.new.pieces ≡ self.old.pieces }
        ensures spent { self.new.spent ≡ self.old.spent }
    {
        match value {
            Value::Weak(w) => Ok(self.bind(word, Bound::Weak(w))?),
            Value::Shown(view) => Ok(self.bind(word, Bound::Array(view))?),
            Value::Fresh(fresh) => {
                let fault = fresh.fault;
                self.bind_new(word, fresh)?;
                match fault {
                    None => Ok(()),
                    Some(kind) => Err(EvaluateEnd::Fault(kind)),
                }
            }
        }
    }

    // Lets a name stand for the whole of a new root.
    fn bind_new(&mut self, word: &[u8], fresh: Fresh) -> Result<(), AllocError>
        requires { IsWhole fresh.tile }
        ensures stands { OnOk result ((state : State) → StandsFor self.old state
            → StandsFor self.new
            (newly_bound word.now (fresh_kind fresh) (numbers fresh.tile) state)) }
        ensures tidy { (root : ℕ) → IsTidyAt self.old root → IsTidyAt self.new root }
        ensures pieces { self.new.pieces ≡ self.old.pieces }
        ensures spent { self.new.spent ≡ self.old.spent }
    {
        let Fresh { tile, right, .. } = fresh;
        let mut view = whole_view(&tile, right);
        let root = self.roots.add(tile)?;
        view.root = root;
        match self.bind(word, Bound::Array(view)) {
            Ok(()) => Ok(()),
            Err(error) => {
                self.forget_if_free(root);
                Err(error)
            }
        }
    }

    /// A value as an operation reads it.
    pub(crate) fn read<'a>(&'a self, value: &'a Value) -> Operand<'a>
        requires { IsUsable (contents self.now.roots) value.now }
        ensures kind { operand_static result ≡ value_static value.now }
        ensures same { operand_value result ≡ value_in (contents self.now.roots) value.now }
        ensures ready { IsReady result }
    {
        match value {
            Value::Weak(w) => Operand::Weak(*w),
            Value::Shown(view) => self.read_view(view),
            Value::Fresh(fresh) => Operand::Array {
                tile: &fresh.tile,
                right: fresh.right,
                fault: fresh.fault,
            },
        }
    }

    /// A view as an operation reads it.
    pub(crate) fn read_view<'a>(&'a self, view: &'a View) -> Operand<'a>
        requires { IsHeld (contents self.now.roots) view.now }
        ensures kind { operand_static result ≡ array_value (view_of view.now).kind }
        ensures same { operand_value result
            ≡ plain (view_of view.now).kind.shape (shown_in (contents self.now.roots) (view_of view.now)) }
        ensures ready { IsReady result }
    {
        Operand::View {
            tile: self.roots.tile(view.root),
            chain: &view.chain,
            right: view.right,
        }
    }

    /// Lets a name stand for this. The root that the name stood for is forgotten where no name
    /// reaches it any more.
    pub(crate) fn bind(&mut self, word: &[u8], bound: Bound) -> Result<(), AllocError>
        requires { IsStored (contents self.old.roots) bound }
        ensures set { OnOk result ((w : List ℕ) → bound_at self.new.names w
            ≡ (if bytes_eq word.now w then Some bound else bound_at self.old.names w)) }
        ensures kept { (w : List ℕ) (view : View) → bound_at self.new.names w ≡ Some (Bound.Array view)
            → contents self.new.roots view.root ≡ contents self.old.roots view.root }
        ensures same { OnErr result ((w : List ℕ)
            → bound_at self.new.names w ≡ bound_at self.old.names w) }
        ensures tidy { (root : ℕ) → IsTidyAt self.old root → IsTidyAt self.new root }
        ensures pieces { self.new.pieces ≡ self.old.pieces }
        ensures spent { self.new.spent ≡ self.old.spent }
    {
        if let Some(root) = self.names.set(word, bound)? {
            self.forget_if_free(root);
        }
        Ok(())
    }

    // Forgets a root where no name reaches it.
    fn forget_if_free(&mut self, root: u64)
        ensures names { self.new.names ≡ self.old.names }
        ensures kept { (w : List ℕ) (view : View) → bound_at self.new.names w ≡ Some (Bound.Array view)
            → contents self.new.roots view.root ≡ contents self.old.roots view.root }
        ensures others { (other : ℕ) → (root ≡ other → ⊥)
            → contents self.new.roots other ≡ contents self.old.roots other }
        ensures tidy { IsTidyAt self.new root }
        ensures pieces { self.new.pieces ≡ self.old.pieces }
        ensures spent { self.new.spent ≡ self.old.spent }
    {
        if !self.names.reaches(root) {
            self.freed = self.roots.forget(root);
        }
    }
}

// Gives the memory of a root back, if there was one.
fn give_back(room: Room<'_>, tile: Option<AnyTile>) {
    if let Some(tile) = tile {
        room.keep(tile);
    }
}

impl StopEnd {
    ghost use Rattle.lg_session.specs.Ends.{stop_at};

    /// An end of the statement of a line.
    pub(crate) fn at(line: u64, end: EvaluateEnd) -> StopEnd
        ensures { result ≡ stop_at line end }
    {
        match end {
            EvaluateEnd::Fault(kind) => StopEnd::Fault { line, kind },
            EvaluateEnd::NoMemory => StopEnd::NoMemory,
        }
    }
}

// The view of the whole of a root with this tile. The root's number is still to be given.
fn whole_view(tile: &AnyTile, right: Right) -> View
    requires { IsWhole tile.now }
    ensures whole { IsWholeOf result (root_of tile.now) }
    ensures kind { (view_of result).kind ≡ kind_of tile.now right }
{
    full_tiles();
    // What is known of every rectangle and of every chain is told with its ranges and its root.
    let _limits = tile.rect().ranges();
    let chain = Chain::whole(&shape_in(tile));
    let _root = chain.root();
    View {
        root: 0,
        dtype: tile.dtype(),
        chain,
        right,
    }
}
