//! What one worker does: draws leases, and settles those whose rows it computed.
ghost use Rattle.std.specs.Prelude.{◌≡◌, ◌<◌, [], true, false, IfOk, IfErr};
ghost use Rattle.work_book.specs.Board.{seen_by, IsOf, IsLease, HasDrawn};
ghost use Rattle.work_book.specs.Views.{knows};
ghost use Rattle.work_book.specs.declared.rule.View.{View};
ghost use Rattle.workers.specs.Study.{study_of, StudyFits};
ghost use Rattle.workers.specs.Jobs.{jobs_of};
ghost use Rattle.workers.specs.Held.{AreTold, DoesAs, HoldsMore, HoldsRows, IsHeard, KnowsAsMuch, LeavesAs, WorkedFor};

use crate::gates::{Gate, Verdict};
use crate::jobs::row_of_job;
use crate::rows::RowBuffers;
use crate::study::Study;
use collector::Row;
use std::alloc::{AllocError, Global};
use work_book::{Board, Draw, Lease, Settled, WorkSeat};

/// What a worker gives back.
#[derive(Drop)]
pub(crate) struct Worked {
    /// Its seat.
    pub(crate) seat: WorkSeat,
    /// The rows that it holds, of the jobs that its seat kept.
    pub(crate) rows: Vec<Row>,
    /// Why it ended.
    pub(crate) ending: Ending,
}

/// Why a worker ended.
#[derive(Clone, Copy)]
pub(crate) enum Ending {
    /// It was told that all numbers are drawn.
    Nothing,
    /// The gate let it vanish.
    Vanished,
    /// It ran out of memory, and left its lease unsettled.
    Short,
    /// Its thread couldn't be started, and it drew nothing.
    Refused,
}

/// What a worker does after a lease.
#[derive(Clone, Copy)]
pub(crate) enum Next {
    /// It draws another.
    Draw,
    /// It ends.
    End(Ending),
}

/// The buffers that serve all rows of a worker, its seat, and the rows that it holds.
#[derive(Drop)]
struct Hands {
    buffers: RowBuffers,
    seat: WorkSeat,
    rows: Vec<Row>,
}

/// Draws leases until there is none, and does with each what the gate says, all with the same buffers.
pub(crate) fn work<G: Gate>(
    alloc: Global,
    study: &Study,
    board: &Board,
    seat: WorkSeat,
    gate: &G,
) -> Worked
    requires fits { StudyFits (study_of study.now) }
    requires jobs { board.now.jobs ≡ jobs_of (study_of study.now) }
    requires board { IsOf board.now seat }
    requires empty { ((seen_by seat).drawn ≡ []) × ((seen_by seat).kept ≡ []) }
    requires share { (seen_by seat).share ≡ 1 }
    ensures { WorkedFor board.now (study_of study.now) (G.decides gate.now) (G.was_told gate.now) result }
{
    let mut hands = Hands {
        buffers: RowBuffers::new(alloc),
        seat,
        rows: Vec::new(alloc),
    };
    while let Draw::Lease(lease) = board.draw(&mut hands.seat) {
        match take(alloc, study, board, gate, &mut hands, lease) {
            Next::Draw => {}
            Next::End(ending) => return given_back(hands, ending),
        }
    }
    given_back(hands, Ending::Nothing)
}

/// What is given back for a worker whose thread couldn't be started.
pub(crate) fn unstarted(alloc: Global, seat: WorkSeat) -> Worked
    ensures seat { result.seat ≡ seat }
    ensures rows { result.rows.items ≡ [] }
    ensures ending { result.ending ≡ Ending.Refused }
{
    Worked {
        seat,
        rows: Vec::new(alloc),
        ending: Ending::Refused,
    }
}

/// What a worker gives back of what it has in hand.
fn given_back(hands: Hands, ending: Ending) -> Worked
    ensures { result ≡ record { seat = hands.seat; rows = hands.rows; ending = ending } }
{
    let Hands {
        buffers,
        seat,
        rows,
    } = hands;
    drop(buffers);
    Worked { seat, rows, ending }
}

/// Passes over a lease whose job is settled, of which the gate isn't asked, and else does what the gate says.
fn take<G: Gate>(
    alloc: Global,
    study: &Study,
    board: &Board,
    gate: &G,
    hands: &mut Hands,
    lease: Lease,
) -> Next
    requires fits { StudyFits (study_of study.now) }
    requires jobs { board.now.jobs ≡ jobs_of (study_of study.now) }
    requires board { IsOf board.now hands.old.seat }
    requires lease { IsLease board.now lease × HasDrawn (seen_by hands.old.seat) lease }
    requires job { lease.job < board.now.jobs }
    requires rows { HoldsRows (study_of study.now) hands.old.rows.items (seen_by hands.old.seat).kept }
    ensures board { IsOf board.now hands.new.seat }
    ensures drawn { ((seen_by hands.new.seat).drawn ≡ (seen_by hands.old.seat).drawn)
        × ((seen_by hands.new.seat).told ≡ (seen_by hands.old.seat).told) }
    ensures share { (seen_by hands.new.seat).share ≡ (seen_by hands.old.seat).share }
    ensures rows { HoldsRows (study_of study.now) hands.new.rows.items (seen_by hands.new.seat).kept }
    ensures told { AreTold (G.decides gate.now) (G.was_told gate.now) (seen_by hands.old.seat).kept →
        AreTold (G.decides gate.now) (G.was_told gate.now) (seen_by hands.new.seat).kept }
    ensures known { KnowsAsMuch (seen_by hands.old.seat) (seen_by hands.new.seat) }
    ensures next { LeavesAs (G.decides gate.now) lease (seen_by hands.new.seat) result }
    ensures does { DoesAs (G.decides gate.now) (study_of study.now) lease (seen_by hands.old.seat)
        (seen_by hands.new.seat) hands.old.rows.items hands.new.rows.items result }
{
    if board.look(&mut hands.seat, lease.job) {
        return Next::Draw;
    }
    match ask(gate, &hands.seat, &lease) {
        Verdict::Work => {
            let done = settle_once(alloc, study, board, gate, hands, lease);
            next_of(done)
        }
        Verdict::Lose => Next::Draw,
        Verdict::Vanish => Next::End(Ending::Vanished),
        Verdict::Repeat => {
            let done = settle_twice(alloc, study, board, gate, hands, lease);
            next_of(done)
        }
    }
}

/// What a worker does after it worked at a lease.
fn next_of(done: Result<(), AllocError>) -> Next
    ensures ok { IfOk done (λ _. result ≡ Next.Draw) }
    ensures err { IfErr done (λ _. result ≡ Next.End Ending.Short) }
{
    match done {
        Ok(()) => Next::Draw,
        Err(_) => Next::End(Ending::Short),
    }
}

/// What the gate decides of a lease.
///
/// A method of the trait can't name the seat, so the condition that the seat doesn't know the job to be settled is this
/// call's.
fn ask<G: Gate>(gate: &G, _seat: &WorkSeat, lease: &Lease) -> Verdict
    requires open { knows (seen_by _seat.now) lease.now.job ≡ false }
    ensures { G.decides gate.now lease.now result }
{
    gate.before(lease)
}

/// Computes the row of a lease, settles it, and holds the row where the lease was the first of its job.
///
/// All memory is taken before the lease is settled, so that no kept job lacks its row.
fn settle_once<G: Gate>(
    alloc: Global,
    study: &Study,
    board: &Board,
    gate: &G,
    hands: &mut Hands,
    lease: Lease,
) -> Result<(), AllocError>
    requires fits { StudyFits (study_of study.now) }
    requires jobs { board.now.jobs ≡ jobs_of (study_of study.now) }
    requires board { IsOf board.now hands.old.seat }
    requires lease { IsLease board.now lease × HasDrawn (seen_by hands.old.seat) lease }
    requires job { lease.job < board.now.jobs }
    requires decided { G.decides gate.now lease Verdict.Work }
    requires rows { HoldsRows (study_of study.now) hands.old.rows.items (seen_by hands.old.seat).kept }
    ensures board { IsOf board.now hands.new.seat }
    ensures drawn { ((seen_by hands.new.seat).drawn ≡ (seen_by hands.old.seat).drawn)
        × ((seen_by hands.new.seat).told ≡ (seen_by hands.old.seat).told) }
    ensures share { (seen_by hands.new.seat).share ≡ (seen_by hands.old.seat).share }
    ensures rows { HoldsRows (study_of study.now) hands.new.rows.items (seen_by hands.new.seat).kept }
    ensures held { IfOk result (λ _. HoldsMore (study_of study.now) 1 lease.job (seen_by hands.old.seat)
        (seen_by hands.new.seat) hands.old.rows.items hands.new.rows.items) }
    ensures heard { IfOk result (λ _. IsHeard (G.was_told gate.now) lease (seen_by hands.old.seat)
        (seen_by hands.new.seat)) }
    ensures told { AreTold (G.decides gate.now) (G.was_told gate.now) (seen_by hands.old.seat).kept →
        AreTold (G.decides gate.now) (G.was_told gate.now) (seen_by hands.new.seat).kept }
    ensures known { KnowsAsMuch (seen_by hands.old.seat) (seen_by hands.new.seat) }
    ensures settled { IfOk result (λ _. knows (seen_by hands.new.seat) lease.job ≡ true) }
{
    let row = row_of_job(alloc, &mut hands.buffers, study, lease.job)?;
    hands.rows.reserve(1)?;
    let settled = board.settle(&mut hands.seat, lease);
    gate.after(&lease, settled);
    if let Settled::Kept = settled {
        hands.rows.push_reserved(row);
    }
    Ok(())
}

/// Computes the row of a lease twice, and settles the lease twice. If the first settle keeps the job, both rows are
/// held: the collector then keeps the first, and answers `Double` to the second.
///
/// All memory is taken before the first settle. The second settle keeps nothing, since the seat knows the job.
fn settle_twice<G: Gate>(
    alloc: Global,
    study: &Study,
    board: &Board,
    gate: &G,
    hands: &mut Hands,
    lease: Lease,
) -> Result<(), AllocError>
    requires fits { StudyFits (study_of study.now) }
    requires jobs { board.now.jobs ≡ jobs_of (study_of study.now) }
    requires board { IsOf board.now hands.old.seat }
    requires lease { IsLease board.now lease × HasDrawn (seen_by hands.old.seat) lease }
    requires job { lease.job < board.now.jobs }
    requires decided { G.decides gate.now lease Verdict.Repeat }
    requires rows { HoldsRows (study_of study.now) hands.old.rows.items (seen_by hands.old.seat).kept }
    ensures board { IsOf board.now hands.new.seat }
    ensures drawn { ((seen_by hands.new.seat).drawn ≡ (seen_by hands.old.seat).drawn)
        × ((seen_by hands.new.seat).told ≡ (seen_by hands.old.seat).told) }
    ensures share { (seen_by hands.new.seat).share ≡ (seen_by hands.old.seat).share }
    ensures rows { HoldsRows (study_of study.now) hands.new.rows.items (seen_by hands.new.seat).kept }
    ensures held { IfOk result (λ _. HoldsMore (study_of study.now) 2 lease.job (seen_by hands.old.seat)
        (seen_by hands.new.seat) hands.old.rows.items hands.new.rows.items) }
    ensures heard { IfOk result (λ _.
        (between : View) × IsHeard (G.was_told gate.now) lease (seen_by hands.old.seat) between
        × IsHeard (G.was_told gate.now) lease between (seen_by hands.new.seat)) }
    ensures told { AreTold (G.decides gate.now) (G.was_told gate.now) (seen_by hands.old.seat).kept →
        AreTold (G.decides gate.now) (G.was_told gate.now) (seen_by hands.new.seat).kept }
    ensures known { KnowsAsMuch (seen_by hands.old.seat) (seen_by hands.new.seat) }
    ensures settled { IfOk result (λ _. knows (seen_by hands.new.seat) lease.job ≡ true) }
{
    let row = row_of_job(alloc, &mut hands.buffers, study, lease.job)?;
    let again = row_of_job(alloc, &mut hands.buffers, study, lease.job)?;
    hands.rows.reserve(2)?;
    let first = board.settle(&mut hands.seat, lease);
    gate.after(&lease, first);
    let second = board.settle(&mut hands.seat, lease);
    gate.after(&lease, second);
    match first {
        Settled::Kept => {
            hands.rows.push_reserved(row);
            hands.rows.push_reserved(again);
        }
        Settled::Double => {}
    }
    Ok(())
}
