//! The walk over the lines of a script and their blocks, statement by statement.
ghost use Rattle.std.specs.Prelude.{◌≡◌, ◌<◌, ◌≤◌, None, true, false, OnOk, IfErr, IsErrOf};
ghost use Rattle.lg_outside.specs.Outside.{Rose};
ghost use Rattle.lg_tree.specs.View.{statement_of, line_of, lines_of};
ghost use Rattle.lg_meaning.specs.Memory.{State};
ghost use Rattle.lg_meaning.specs.Run.{looped, run_lines as run_of_lines, run_line as run_of_line};
ghost use Rattle.lg_session.specs.Built.{is_built, unbuilt_in, unbuilt_at};
ghost use Rattle.lg_session.specs.Session.{is_spent};
ghost use Rattle.lg_session.specs.Standing.{StandsFor};
ghost use Rattle.lg_session.specs.Turns.{bounds_in, AreRangedBounds};
ghost use Rattle.legate.specs.Running.{is_loop, block_turns, block_unbuilt, Goes, Halts, Cuts, Writes, StopsWriting};

use crate::running::RunStop;
use lg_meaning::FaultKind;
use lg_outside::{Sink, write_all};
use lg_session::{Room, Session, Turns};
use lg_tree::{Line, Statement};

/// How many statements are run at most, the line of a loop counted each time it is reached. A script
/// that reaches one more has a fault there.
const MAX_STATEMENTS: u64 = 100_000;

/// Runs lines in order, each with its block, and writes what they print. `count` is the number of
/// statements that the run has reached so far without a fault.
#[cycle(lines)]
pub(crate) fn run_lines<K: Sink>(
    room: Room<'_>,
    lines: &[Line],
    session: &mut Session,
    count: &mut u64,
    out: &mut K,
) -> Result<(), RunStop>
    requires going { is_spent session.old ≡ false }
    requires built { unbuilt_in (lines_of lines.now) ≡ None }
    requires few { count.old ≤ MAX_STATEMENTS }
    ensures unspent { OnOk result (is_spent session.new ≡ false) }
    ensures few { count.new ≤ MAX_STATEMENTS }
    ensures counted { count.old ≤ count.new }
    ensures done { OnOk result (Goes count.old count.new (run_of_lines (lines_of lines.now))
        (K.written out.old) (K.written out.new) session.old session.new) }
    ensures stopped { IfErr result (λ stop. Halts stop count.old
        (run_of_lines (lines_of lines.now)) (K.written out.old) (K.written out.new) session.old) }
    ensures cut { IsErrOf result RunStop.NoMemory → Cuts count.old count.new
        (run_of_lines (lines_of lines.now)) (K.written out.old) (K.written out.new) session.old }
    ensures fault { IsErrOf result RunStop.WriteFault → Rose (K.faults out.old) (K.faults out.new) }
    ensures later { K.faults out.old ≤ K.faults out.new }
{
    for line in lines {
        run_line(room, line, session, count, out)?;
    }
    Ok(())
}

// The same of one line.
#[cycle(lines)]
fn run_line<K: Sink>(
    room: Room<'_>,
    line: &Line,
    session: &mut Session,
    count: &mut u64,
    out: &mut K,
) -> Result<(), RunStop>
    requires going { is_spent session.old ≡ false }
    requires built { unbuilt_at (line_of line.now).number (line_of line.now).statement ≡ None }
    requires few { count.old ≤ MAX_STATEMENTS }
    ensures unspent { OnOk result (is_spent session.new ≡ false) }
    ensures few { count.new ≤ MAX_STATEMENTS }
    ensures counted { count.old ≤ count.new }
    ensures done { OnOk result (Goes count.old count.new
        (run_of_line (line_of line.now).number (line_of line.now).statement)
        (K.written out.old) (K.written out.new) session.old session.new) }
    ensures stopped { IfErr result (λ stop. Halts stop count.old
        (run_of_line (line_of line.now).number (line_of line.now).statement)
        (K.written out.old) (K.written out.new) session.old) }
    ensures cut { IsErrOf result RunStop.NoMemory → Cuts count.old count.new
        (run_of_line (line_of line.now).number (line_of line.now).statement)
        (K.written out.old) (K.written out.new) session.old }
    ensures fault { IsErrOf result RunStop.WriteFault → Rose (K.faults out.old) (K.faults out.new) }
    ensures later { K.faults out.old ≤ K.faults out.new }
{
    if *count == MAX_STATEMENTS {
        return Err(RunStop::Fault {
            line: line.number,
            kind: FaultKind::Limit,
        });
    }
    match &line.statement {
        Statement::For { .. } => {
            run_loop(room, line.number, &line.statement, session, count, out)
        }
        _ => step_line(room, line, session, count, out),
    }
}

// Runs a loop, with the number of its line.
#[cycle(lines)]
fn run_loop<K: Sink>(
    room: Room<'_>,
    number: u64,
    statement: &Statement,
    session: &mut Session,
    count: &mut u64,
    out: &mut K,
) -> Result<(), RunStop>
    requires going { is_spent session.old ≡ false }
    requires loops { is_loop (statement_of statement.now) ≡ true }
    requires built { unbuilt_at number (statement_of statement.now) ≡ None }
    requires few { count.old < MAX_STATEMENTS }
    ensures unspent { OnOk result (is_spent session.new ≡ false) }
    ensures few { count.new ≤ MAX_STATEMENTS }
    ensures counted { count.old ≤ count.new }
    ensures done { OnOk result (Goes count.old count.new
        (run_of_line number (statement_of statement.now))
        (K.written out.old) (K.written out.new) session.old session.new) }
    ensures stopped { IfErr result (λ stop. Halts stop count.old
        (run_of_line number (statement_of statement.now))
        (K.written out.old) (K.written out.new) session.old) }
    ensures cut { IsErrOf result RunStop.NoMemory → Cuts count.old count.new
        (run_of_line number (statement_of statement.now))
        (K.written out.old) (K.written out.new) session.old }
    ensures fault { IsErrOf result RunStop.WriteFault → Rose (K.faults out.old) (K.faults out.new) }
    ensures later { K.faults out.old ≤ K.faults out.new }
{
    match statement {
        Statement::For { from, to, .. } => {
            let turns = match session.open_loop(room, number, from, to) {
                Ok(turns) => turns,
                Err(stop) => return Err(RunStop::from(stop.end)),
            };
            *count += 1;
            run_block(room, turns, statement, session, count, out)
        }
        _ => unreachable!(),
    }
}

// Runs the turns of a statement that is a loop.
#[cycle(lines)]
fn run_block<K: Sink>(
    room: Room<'_>,
    turns: Turns,
    statement: &Statement,
    session: &mut Session,
    count: &mut u64,
    out: &mut K,
) -> Result<(), RunStop>
    requires going { is_spent session.old ≡ false }
    requires ranged { AreRangedBounds turns }
    requires built { block_unbuilt (statement_of statement.now) ≡ None }
    requires few { count.old ≤ MAX_STATEMENTS }
    ensures unspent { OnOk result (is_spent session.new ≡ false) }
    ensures few { count.new ≤ MAX_STATEMENTS }
    ensures counted { count.old ≤ count.new }
    ensures done { OnOk result (Goes count.old count.new
        (block_turns (statement_of statement.now) (bounds_in turns))
        (K.written out.old) (K.written out.new) session.old session.new) }
    ensures stopped { IfErr result (λ stop. Halts stop count.old
        (block_turns (statement_of statement.now) (bounds_in turns))
        (K.written out.old) (K.written out.new) session.old) }
    ensures cut { IsErrOf result RunStop.NoMemory → Cuts count.old count.new
        (block_turns (statement_of statement.now) (bounds_in turns))
        (K.written out.old) (K.written out.new) session.old }
    ensures fault { IsErrOf result RunStop.WriteFault → Rose (K.faults out.old) (K.faults out.new) }
    ensures later { K.faults out.old ≤ K.faults out.new }
{
    match statement {
        Statement::For { name, body, .. } => {
            run_turns(
                room,
                name.as_slice(),
                turns,
                body.as_slice(),
                session,
                count,
                out,
            )
        }
        _ => Ok(()),
    }
}

// Runs the turns of a loop: each binds the variable first, and then runs the lines of the block.
#[cycle(lines)]
fn run_turns<K: Sink>(
    room: Room<'_>,
    name: &[u8],
    turns: Turns,
    body: &[Line],
    session: &mut Session,
    count: &mut u64,
    out: &mut K,
) -> Result<(), RunStop>
    requires going { is_spent session.old ≡ false }
    requires ranged { AreRangedBounds turns }
    requires built { unbuilt_in (lines_of body.now) ≡ None }
    requires few { count.old ≤ MAX_STATEMENTS }
    ensures unspent { OnOk result (is_spent session.new ≡ false) }
    ensures few { count.new ≤ MAX_STATEMENTS }
    ensures counted { count.old ≤ count.new }
    ensures done { OnOk result (Goes count.old count.new
        (looped (run_of_lines (lines_of body.now)) name.now (bounds_in turns))
        (K.written out.old) (K.written out.new) session.old session.new) }
    ensures stopped { IfErr result (λ stop. Halts stop count.old
        (looped (run_of_lines (lines_of body.now)) name.now (bounds_in turns))
        (K.written out.old) (K.written out.new) session.old) }
    ensures cut { IsErrOf result RunStop.NoMemory → Cuts count.old count.new
        (looped (run_of_lines (lines_of body.now)) name.now (bounds_in turns))
        (K.written out.old) (K.written out.new) session.old }
    ensures fault { IsErrOf result RunStop.WriteFault → Rose (K.faults out.old) (K.faults out.new) }
    ensures later { K.faults out.old ≤ K.faults out.new }
{
    let mut value = turns.from;
    while value < turns.to {
        let Ok(()) = session.bind_turn(name, value) else {
            return Err(RunStop::NoMemory);
        };
        run_lines(room, body, session, count, out)?;
        value += 1;
    }
    Ok(())
}

// Runs a line without a block.
fn step_line<K: Sink>(
    room: Room<'_>,
    line: &Line,
    session: &mut Session,
    count: &mut u64,
    out: &mut K,
) -> Result<(), RunStop>
    requires going { is_spent session.old ≡ false }
    requires built { is_built (line_of line.now).statement ≡ true }
    requires few { count.old < MAX_STATEMENTS }
    ensures unspent { OnOk result (is_spent session.new ≡ false) }
    ensures few { count.new ≤ MAX_STATEMENTS }
    ensures counted { count.old ≤ count.new }
    ensures done { OnOk result (Goes count.old count.new
        (run_of_line (line_of line.now).number (line_of line.now).statement)
        (K.written out.old) (K.written out.new) session.old session.new) }
    ensures stopped { IfErr result (λ stop. Halts stop count.old
        (run_of_line (line_of line.now).number (line_of line.now).statement)
        (K.written out.old) (K.written out.new) session.old) }
    ensures cut { IsErrOf result RunStop.NoMemory → Cuts count.old count.new
        (run_of_line (line_of line.now).number (line_of line.now).statement)
        (K.written out.old) (K.written out.new) session.old }
    ensures fault { IsErrOf result RunStop.WriteFault → Rose (K.faults out.old) (K.faults out.new) }
    ensures later { K.faults out.old ≤ K.faults out.new }
{
    perform(room, line, session, out)?;
    *count += 1;
    Ok(())
}

// Performs the statement of a line, and writes what it prints.
fn perform<K: Sink>(
    room: Room<'_>,
    line: &Line,
    session: &mut Session,
    out: &mut K,
) -> Result<(), RunStop>
    requires going { is_spent session.old ≡ false }
    requires built { is_built (line_of line.now).statement ≡ true }
    ensures unspent { OnOk result (is_spent session.new ≡ false) }
    ensures done { OnOk result ((state : State) → StandsFor session.old state →
        Writes (line_of line.now) state (K.written out.old) (K.written out.new) session.new) }
    ensures stopped { IfErr result (λ stop. (state : State) → StandsFor session.old state →
        StopsWriting stop (line_of line.now) state (K.written out.old) (K.written out.new)) }
    ensures fault { IsErrOf result RunStop.WriteFault → Rose (K.faults out.old) (K.faults out.new) }
    ensures later { K.faults out.old ≤ K.faults out.new }
{
    let text = match session.step(room, line) {
        Ok(text) => text,
        Err(stop) => return Err(RunStop::from(stop.end)),
    };
    let Ok(()) = write_all(out, &text) else {
        return Err(RunStop::WriteFault);
    };
    Ok(())
}
