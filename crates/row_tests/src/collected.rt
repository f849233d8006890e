//! Worked examples of offers, of finishing, and of steps of a book and a collector together.
ghost use Rattle.std.specs.Prelude.{◌≡◌, IfOk};

use crate::book_steps::{answers, answers_after_loss, steps, with_loss};
use collector::{Cells, Collector, CoreAnswer, CoreStep, Matrix, Offer, Row, Unfinished, run_core};
use std::alloc::{AllocError, Global};
use std::test::Fail;
use work_book::{Answer, Book, Step};

/// How many shares a row has, and how many cells and access sums each of them.
#[derive(Clone, Copy)]
struct Size {
    shares: usize,
    cells: usize,
    sums: usize,
}

/// The size of the rows that these collectors ask for.
const SIZE: Size = Size {
    shares: 2,
    cells: 3,
    sums: 4,
};

/// What a share gives that reaches no stop, but for its own.
fn cells_from(alloc: Global, origin: u32, size: Size) -> Result<Cells, AllocError> {
    let mut cells = vec![in alloc; None; size.cells]?;
    if let Some(own) = cells.get_mut(origin as usize) {
        *own = Some(0);
    }
    Ok(Cells {
        cells,
        access: vec![in alloc; 7; size.sums]?,
    })
}

/// A row of this size that reaches no stop, but for its own.
fn row(
    alloc: Global,
    study: u64,
    scenario: u32,
    origin: u32,
    size: Size,
) -> Result<Row, AllocError> {
    let mut shares = Vec::with_capacity(alloc, size.shares)?;
    for _ in 0..size.shares {
        shares.push(cells_from(alloc, origin, size)?)?;
    }
    Ok(Row {
        study,
        scenario,
        origin,
        shares,
    })
}

/// What became of a row that was offered.
#[derive(Clone, Copy, PartialEq, Eq)]
enum Outcome {
    Kept,
    Double,
    Stranger,
}

/// Offers a row.
fn became(collector: &mut Collector, row: Row) -> Outcome {
    match collector.offer(row) {
        Offer::Kept => Outcome::Kept,
        Offer::Double(_) => Outcome::Double,
        Offer::Stranger(_) => Outcome::Stranger,
    }
}

/// A row that is offered, and what becomes of it: study, scenario, origin, size.
type Case = (u64, u32, u32, Size, Outcome);

/// Whether rows that are offered in turn become what they should.
fn become_so(alloc: Global, collector: &mut Collector, cases: &[Case]) -> bool {
    for (study, scenario, origin, size, want) in cases {
        match row(alloc, *study, *scenario, *origin, *size) {
            Ok(row) => {
                if became(collector, row) != *want {
                    return false;
                }
            }
            Err(_) => return false,
        }
    }
    true
}

/// How a collector ends: with a first empty place, or with a matrix of so many scenarios, origins, cells, shares and
/// limits.
#[derive(Clone, Copy, PartialEq, Eq)]
enum End {
    Empty(u32, u32),
    Full(u32, u32, u32, u32, u32),
}

/// The shape of a matrix in which each row stands at its own place.
fn shape_of(matrix: &Matrix) -> Option<End> {
    for scenario in 0..matrix.scenarios() {
        for origin in 0..matrix.origins() {
            let row = matrix.row(scenario, origin);
            if row.scenario != scenario || row.origin != origin {
                return None;
            }
        }
    }
    Some(End::Full(
        matrix.scenarios(),
        matrix.origins(),
        matrix.width(),
        matrix.shares(),
        matrix.limits(),
    ))
}

/// How a collector ends; none where a row stands at another's place.
fn end_of(collector: Collector) -> Option<End> {
    match collector.finish() {
        Ok(matrix) => shape_of(&matrix),
        Err(unfinished) => Some(End::Empty(unfinished.scenario, unfinished.origin)),
    }
}

/// Whether rows that are offered in turn to a collector of study 1, three scenarios, so many origins, three cells, two
/// shares and four limits become what they should, and it ends so.
fn ends(alloc: Global, origins: u32, cases: &[Case], end: End) -> bool {
    if origins > 3 {
        return false;
    }
    match Collector::new(alloc, 1, 3, origins, 3, 2, 4) {
        Ok(mut collector) => {
            let are_so = become_so(alloc, &mut collector, cases);
            end_of(collector) == Some(end) && are_so
        }
        Err(_) => false,
    }
}

/// `Collector::new`.
#[test]
fn keeps_the_first_row_of_a_place(rt: HostRuntime) {
    let twice = [
        (1, 0, 0, SIZE, Outcome::Kept),
        (1, 0, 0, SIZE, Outcome::Double),
    ];
    assert!(rt; ends(rt.alloc(), 3, &twice, End::Empty(0, 1)));
}

/// `Collector::new`.
#[test]
fn hands_strangers_back(rt: HostRuntime) {
    let strangers = [
        (9, 0, 0, SIZE, Outcome::Stranger),
        (1, 0, 3, SIZE, Outcome::Stranger),
        (1, 3, 0, SIZE, Outcome::Stranger),
        (1, 0, 0, Size { shares: 1, ..SIZE }, Outcome::Stranger),
        (1, 0, 0, Size { shares: 3, ..SIZE }, Outcome::Stranger),
        (1, 0, 0, Size { cells: 2, ..SIZE }, Outcome::Stranger),
        (1, 0, 0, Size { cells: 4, ..SIZE }, Outcome::Stranger),
        (1, 0, 0, Size { sums: 3, ..SIZE }, Outcome::Stranger),
        (1, 0, 0, Size { sums: 5, ..SIZE }, Outcome::Stranger),
    ];
    assert!(rt; ends(rt.alloc(), 3, &strangers, End::Empty(0, 0)));
}

/// Adds a share that lacks a cell.
fn push_a_short_share(alloc: Global, shares: &mut Vec<Cells>) -> Result<(), AllocError> {
    shares.push(cells_from(alloc, 0, Size { cells: 2, ..SIZE })?)?;
    Ok(())
}

/// A row of which only the last share lacks a cell.
fn short_row(alloc: Global) -> Result<Row, AllocError> {
    let mut row = row(alloc, 1, 0, 0, Size { shares: 1, ..SIZE })?;
    push_a_short_share(alloc, &mut row.shares)?;
    Ok(row)
}

/// Whether a row comes back of which only the last share lacks a cell.
fn hands_back_a_short_share(alloc: Global) -> bool {
    match (Collector::new(alloc, 1, 3, 3, 3, 2, 4), short_row(alloc)) {
        (Ok(mut collector), Ok(row)) => became(&mut collector, row) == Outcome::Stranger,
        _ => false,
    }
}

/// `Collector::new`.
#[test]
fn hands_a_row_with_a_short_share_back(rt: HostRuntime) {
    assert!(rt; hands_back_a_short_share(rt.alloc()));
}

/// `Collector::new`.
#[test]
fn names_a_place_of_a_later_scenario(rt: HostRuntime) {
    let rows = [
        (1, 2, 2, SIZE, Outcome::Kept),
        (1, 0, 2, SIZE, Outcome::Kept),
        (1, 0, 1, SIZE, Outcome::Kept),
        (1, 0, 0, SIZE, Outcome::Kept),
        (1, 1, 0, SIZE, Outcome::Kept),
    ];
    assert!(rt; ends(rt.alloc(), 3, &rows, End::Empty(1, 1)));
}

/// `Collector::new`.
#[test]
fn finishes_with_every_row(rt: HostRuntime) {
    let rows = [
        (1, 0, 0, SIZE, Outcome::Kept),
        (1, 2, 2, SIZE, Outcome::Kept),
        (1, 0, 1, SIZE, Outcome::Kept),
        (1, 2, 0, SIZE, Outcome::Kept),
        (1, 1, 0, SIZE, Outcome::Kept),
        (1, 1, 2, SIZE, Outcome::Kept),
        (1, 0, 2, SIZE, Outcome::Kept),
        (1, 1, 1, SIZE, Outcome::Kept),
        (1, 2, 1, SIZE, Outcome::Kept),
    ];
    assert!(rt; ends(rt.alloc(), 3, &rows, End::Full(3, 3, 3, 2, 4)));
}

/// `Collector::new`.
#[test]
fn has_no_places(rt: HostRuntime) {
    assert!(rt; ends(rt.alloc(), 0, &[], End::Full(3, 0, 3, 2, 4)));
}

/// Whether a row is that of place (0, 0) of study 1, as `row` makes it.
fn is_first_row(row: &Row) -> bool {
    row.study == 1
        && row.scenario == 0
        && row.origin == 0
        && row.shares.len() == 2
        && row.shares.iter().all(reaches_its_own)
}

/// Whether a share reaches the first of three stops alone, as `cells_from` makes it.
fn reaches_its_own(share: &Cells) -> bool {
    share.access.as_slice() == [7, 7, 7, 7].as_slice()
        && share.cells.as_slice() == [Some(0), None, None].as_slice()
}

/// Whether a row is handed back as it was, as the second of its place.
fn comes_back(collector: &mut Collector, row: Row) -> bool
    requires scenarios { collector.old.scenarios ≡ 3 }
    requires origins { collector.old.origins ≡ 3 }
    ensures scenarios { collector.new.scenarios ≡ 3 }
    ensures origins { collector.new.origins ≡ 3 }
{
    match collector.offer(row) {
        Offer::Double(row) => is_first_row(&row),
        _ => false,
    }
}

/// Offers the row of place (0, 0): whether it comes back.
fn first_comes_back(alloc: Global, collector: &mut Collector) -> bool
    requires scenarios { collector.old.scenarios ≡ 3 }
    requires origins { collector.old.origins ≡ 3 }
    ensures scenarios { collector.new.scenarios ≡ 3 }
    ensures origins { collector.new.origins ≡ 3 }
{
    match row(alloc, 1, 0, 0, SIZE) {
        Ok(row) => comes_back(collector, row),
        Err(_) => false,
    }
}

/// Whether place (0, 0), and no other of these, shows a row, and that it is the first one.
fn shows_the_first(collector: &Collector) -> bool
    requires scenarios { collector.now.scenarios ≡ 3 }
    requires origins { collector.now.origins ≡ 3 }
{
    let first = match collector.place(0, 0) {
        Some(row) => is_first_row(row),
        None => false,
    };
    first && collector.place(0, 1).is_none() && collector.place(2, 2).is_none()
}

/// A collector of study 1, with three scenarios, three origins, three cells, two shares and four limits.
fn three_by_three(alloc: Global) -> Result<Collector, AllocError>
    ensures scenarios { IfOk result (λ collector. collector.scenarios ≡ 3) }
    ensures origins { IfOk result (λ collector. collector.origins ≡ 3) }
{
    Collector::new(alloc, 1, 3, 3, 3, 2, 4)
}

/// Whether a place shows the first row that it was offered, and the second one comes back.
fn keeps_and_gives_back(alloc: Global) -> bool {
    match three_by_three(alloc) {
        Ok(mut collector) => {
            !first_comes_back(alloc, &mut collector)
                && first_comes_back(alloc, &mut collector)
                && shows_the_first(&collector)
        }
        Err(_) => false,
    }
}

/// `Collector::place`, `Collector::new`.
#[test]
fn gives_the_second_row_of_a_place_back(rt: HostRuntime) {
    assert!(rt; keeps_and_gives_back(rt.alloc()));
}

/// Whether a collector that came back unfinished has its row, and takes another.
fn goes_on(alloc: Global, unfinished: Unfinished) -> bool {
    let mut collector = unfinished.collector;
    let cases = [
        (1, 0, 0, SIZE, Outcome::Double),
        (1, 0, 1, SIZE, Outcome::Kept),
    ];
    become_so(alloc, &mut collector, &cases)
}

/// Whether a collector with one row comes back from `finish`, and goes on.
fn goes_on_unfinished(alloc: Global) -> bool {
    match Collector::new(alloc, 1, 3, 3, 3, 2, 4) {
        Ok(mut collector) => {
            become_so(alloc, &mut collector, &[(1, 0, 0, SIZE, Outcome::Kept)]);
            match collector.finish() {
                Ok(_) => false,
                Err(unfinished) => goes_on(alloc, unfinished),
            }
        }
        Err(_) => false,
    }
}

/// `Collector::finish`, `Collector::new`.
#[test]
fn an_unfinished_collector_goes_on(rt: HostRuntime) {
    assert!(rt; goes_on_unfinished(rt.alloc()));
}

/// The size of a row with one of each.
const ONE: Size = Size {
    shares: 1,
    cells: 1,
    sums: 1,
};

/// Adds steps of the book alone.
fn push_book_steps(all: &mut Vec<CoreStep>, steps: &[Step]) -> Result<(), AllocError> {
    for step in steps {
        if all.push(CoreStep::Book(*step)).is_err() {
            return Err(AllocError);
        }
    }
    Ok(())
}

/// Adds a row that a seat offers.
fn push_row(alloc: Global, all: &mut Vec<CoreStep>, seat: u32) -> Result<(), AllocError> {
    let handed = CoreStep::Hand(seat, row(alloc, 1, 0, 1, ONE)?);
    if all.push(handed).is_err() {
        return Err(AllocError);
    }
    Ok(())
}

/// These steps of the book, and then a row that a seat offers twice.
fn core_steps(alloc: Global, steps: &[Step], seat: u32) -> Result<Vec<CoreStep>, AllocError> {
    let mut all = Vec::new(alloc);
    push_book_steps(&mut all, steps)?;
    push_row(alloc, &mut all, seat)?;
    push_row(alloc, &mut all, seat)?;
    Ok(all)
}

/// Whether the core's answers are these of the book, and then those to a row that is offered twice.
fn are_told(told: &[CoreAnswer], of_book: &[Answer]) -> bool {
    for (answer, want) in told.iter().zip(of_book.iter()) {
        match answer {
            CoreAnswer::Book(answer) if answer == want => (),
            _ => return false,
        }
    }
    let mut of_rows = told.iter().skip(of_book.len());
    matches!(of_rows.next(), Some(CoreAnswer::Hand(Offer::Kept)))
        && matches!(of_rows.next(), Some(CoreAnswer::Hand(Offer::Double(_))))
        && of_rows.next().is_none()
}

/// Whether the core answers as it should. Where one of its allocations fails the steps come back, the book is as it
/// was, and they answer the same when memory is back.
fn answer_so(
    alloc: Global,
    book: &mut Book,
    collector: &mut Collector,
    steps: Vec<CoreStep>,
    of_book: &[Answer],
) -> bool {
    let count = steps.len();
    match run_core(alloc, book, collector, steps) {
        Ok(told) => are_told(&told, of_book),
        Err(back) => {
            let unchanged = back.len() == count && book.next() == 0;
            match run_core(alloc, book, collector, back) {
                Ok(told) => unchanged && are_told(&told, of_book),
                Err(_) => false,
            }
        }
    }
}

/// Whether a core of two jobs gives these answers of its book to these steps, and then to a row that a seat offers
/// twice.
fn core_answers(
    alloc: Global,
    book: &mut Book,
    steps: &[Step],
    seat: u32,
    of_book: &[Answer],
) -> bool {
    let collector = Collector::new(alloc, 1, 1, 2, 1, 1, 1);
    match (collector, core_steps(alloc, steps, seat)) {
        (Ok(mut collector), Ok(steps)) => { answer_so(alloc, book, &mut collector, steps, of_book) }
        _ => false,
    }
}

/// `Collector::new`.
#[test]
fn makes_steps_and_offers_in_order(rt: HostRuntime) -> Result<(), Fail> {
    let mut book = Book::new(rt.alloc(), 2, 2, 2)?;
    let are_so = core_answers(rt.alloc(), &mut book, &steps(), 1, &answers()) && book.next() == 4;
    drop(book);
    assert!(rt; are_so);
    Ok(())
}

/// Whether a core of two jobs and two seats gives the answers of the table of steps if seat 0 is lost before step k. The
/// lost seat may still offer rows.
fn core_answers_with_loss(alloc: Global, k: usize) -> Result<bool, AllocError> {
    let steps = with_loss(alloc, k)?;
    let mut book = Book::new(alloc, 2, 2, 2)?;
    Ok(core_answers(alloc, &mut book, &steps, 0, &answers_after_loss(k)))
}

/// `run_core`.
#[test]
fn a_core_loses_a_seat_before_each_step(rt: HostRuntime) -> Result<(), Fail> {
    for k in 0..=12 {
        let are_so = core_answers_with_loss(rt.alloc(), k)?;
        assert!(rt; are_so, "seat 0 lost before step {k}");
    }
    Ok(())
}
