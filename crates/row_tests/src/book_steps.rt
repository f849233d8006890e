//! Worked examples of steps, by hand from the table of steps.
ghost use Rattle.std.specs.Prelude.{◌≡◌, length, IfOk};

use std::alloc::{AllocError, Global};
use work_book::{Answer, Book, Lease, Step};

const FIRST: Answer = Answer::Lease(Lease {
    number: 0,
    job: 0,
    pass: 0,
});

const SECOND: Answer = Answer::Lease(Lease {
    number: 1,
    job: 1,
    pass: 0,
});

const THIRD: Answer = Answer::Lease(Lease {
    number: 2,
    job: 0,
    pass: 1,
});

const FOURTH: Answer = Answer::Lease(Lease {
    number: 3,
    job: 1,
    pass: 1,
});

const NOTHING: Answer = Answer::Nothing;

const SETTLED: Answer = Answer::Mark(true);

const KEPT: Answer = Answer::Kept;

const DOUBLE: Answer = Answer::Double;

const LOST: Answer = Answer::Lost;

const REFUSED: Answer = Answer::Refused;

// Steps of two seats over two jobs and two tries, in an order that shows each answer. A function, so that the tests'
// proofs don't compute the whole list.
pub(crate) fn steps() -> [Step; 12] {
    [
        Step::Draw(0),
        Step::Draw(1),
        Step::Settle(0, 0),
        Step::Draw(0),
        Step::Look(0, 0),
        Step::Settle(0, 2),
        Step::Draw(1),
        Step::Draw(1),
        Step::Settle(1, 0),
        Step::Settle(1, 1),
        Step::Loss(1),
        Step::Draw(1),
    ]
}

// What they answer.
pub(crate) fn answers() -> [Answer; 12] {
    [
        FIRST, SECOND, KEPT, THIRD, SETTLED, DOUBLE, FOURTH, NOTHING, REFUSED, KEPT, LOST, REFUSED,
    ]
}

// What the same steps answer where seat 0 is lost before step k.
pub(crate) fn answers_after_loss(k: usize) -> [Answer; 13] {
    match k {
        0 => [
            LOST, REFUSED, FIRST, REFUSED, REFUSED, REFUSED, REFUSED, SECOND, THIRD, KEPT, KEPT,
            LOST, REFUSED,
        ],
        1 => [
            FIRST, LOST, SECOND, REFUSED, REFUSED, REFUSED, REFUSED, THIRD, FOURTH, REFUSED, KEPT,
            LOST, REFUSED,
        ],
        2 => [
            FIRST, SECOND, LOST, REFUSED, REFUSED, REFUSED, REFUSED, THIRD, FOURTH, REFUSED, KEPT,
            LOST, REFUSED,
        ],
        3 => [
            FIRST, SECOND, KEPT, LOST, REFUSED, REFUSED, REFUSED, THIRD, FOURTH, REFUSED, KEPT,
            LOST, REFUSED,
        ],
        4 => [
            FIRST, SECOND, KEPT, THIRD, LOST, REFUSED, REFUSED, FOURTH, NOTHING, REFUSED, KEPT,
            LOST, REFUSED,
        ],
        5 => [
            FIRST, SECOND, KEPT, THIRD, SETTLED, LOST, REFUSED, FOURTH, NOTHING, REFUSED, KEPT,
            LOST, REFUSED,
        ],
        _ => answers_after_late_loss(k),
    }
}

// The same from step 6 on.
fn answers_after_late_loss(k: usize) -> [Answer; 13] {
    match k {
        6 => [
            FIRST, SECOND, KEPT, THIRD, SETTLED, DOUBLE, LOST, FOURTH, NOTHING, REFUSED, KEPT,
            LOST, REFUSED,
        ],
        7 => [
            FIRST, SECOND, KEPT, THIRD, SETTLED, DOUBLE, FOURTH, LOST, NOTHING, REFUSED, KEPT,
            LOST, REFUSED,
        ],
        8 => [
            FIRST, SECOND, KEPT, THIRD, SETTLED, DOUBLE, FOURTH, NOTHING, LOST, REFUSED, KEPT,
            LOST, REFUSED,
        ],
        9 => [
            FIRST, SECOND, KEPT, THIRD, SETTLED, DOUBLE, FOURTH, NOTHING, REFUSED, LOST, KEPT,
            LOST, REFUSED,
        ],
        10 => [
            FIRST, SECOND, KEPT, THIRD, SETTLED, DOUBLE, FOURTH, NOTHING, REFUSED, KEPT, LOST,
            LOST, REFUSED,
        ],
        11 => [
            FIRST, SECOND, KEPT, THIRD, SETTLED, DOUBLE, FOURTH, NOTHING, REFUSED, KEPT, LOST,
            LOST, REFUSED,
        ],
        _ => [
            FIRST, SECOND, KEPT, THIRD, SETTLED, DOUBLE, FOURTH, NOTHING, REFUSED, KEPT, LOST,
            REFUSED, LOST,
        ],
    }
}

// A book of two jobs, two tries and two seats.
fn two_by_two(alloc: Global) -> Result<Book, AllocError>
    ensures jobs { IfOk result (λ book. book.jobs ≡ 2) }
    ensures seats { IfOk result (λ book. length book.seats ≡ 2) }
{
    Book::new(alloc, 2, 2, 2)
}

// Makes the steps, of which the tests' proofs need no more than that the sizes stay.
fn run(book: &mut Book, steps: &[Step]) -> Result<Vec<Answer>, AllocError>
    requires jobs { book.old.jobs ≡ 2 }
    requires seats { length book.old.seats ≡ 2 }
    ensures jobs { book.new.jobs ≡ 2 }
    ensures seats { length book.new.seats ≡ 2 }
{
    book.run(steps)
}

// Makes one step by its own call.
fn make(book: &mut Book, step: Step) -> Result<Answer, AllocError> {
    match step {
        Step::Draw(seat) => book.draw(seat),
        Step::Look(seat, job) => Ok(book.look(seat, job)),
        Step::Settle(seat, number) => book.settle(seat, number),
        Step::Loss(seat) => Ok(book.lose(seat)),
    }
}

// The steps, with seat 0 lost before step k.
pub(crate) fn with_loss(alloc: Global, k: usize) -> Result<Vec<Step>, AllocError> {
    let mut all = Vec::new(alloc);
    for (i, step) in steps().iter().enumerate() {
        if i == k {
            all.push(Step::Loss(0))?;
        }
        all.push(*step)?;
    }
    if k == 12 {
        all.push(Step::Loss(0))?;
    }
    Ok(all)
}

/// What a book of two jobs and two seats shows: the next number, both marks, and what each seat drew and kept.
type Shown<'a> = (u64, [bool; 2], [&'a [u64]; 2], [&'a [u32]; 2]);

/// Whether a book shows this.
fn shows(book: &Book, shown: &Shown<'_>) -> bool
    requires jobs { book.now.jobs ≡ 2 }
    requires seats { length book.now.seats ≡ 2 }
{
    let (next, marks, drawn, kept) = shown;
    let words = book.next() == *next && book.mark(0) == marks[0] && book.mark(1) == marks[1];
    let numbers = book.drawn(0) == drawn[0] && book.drawn(1) == drawn[1];
    words && numbers && book.kept(0) == kept[0] && book.kept(1) == kept[1]
}

const NEW: Shown<'static> = (0, [false, false], [&[], &[]], [&[], &[]]);

/// Whether a new book answers these steps so, and then shows this. Where one of its allocations fails it is as it was,
/// and answers the same when memory is back.
fn answers_so(book: &mut Book, steps: &[Step], want: &[Answer], shown: &Shown<'_>) -> bool
    requires jobs { book.old.jobs ≡ 2 }
    requires seats { length book.old.seats ≡ 2 }
{
    let told = match run(book, steps) {
        Ok(told) => Ok(told),
        Err(_) => {
            if !shows(book, &NEW) {
                return false;
            }
            run(book, steps)
        }
    };
    match told {
        Ok(told) => told.as_slice() == want && shows(book, shown),
        Err(_) => false,
    }
}

/// Whether a new book of two jobs, two tries and two seats does.
fn new_book_answers(alloc: Global, steps: &[Step], want: &[Answer], shown: &Shown<'_>) -> bool {
    match two_by_two(alloc) {
        Ok(mut book) => answers_so(&mut book, steps, want, shown),
        Err(_) => false,
    }
}

/// `Book::mark`, `Book::kept`, `Book::next`.
#[test]
fn makes_a_list_of_steps(rt: HostRuntime) {
    let shown: Shown<'_> = (4, [true, true], [&[0, 2], &[1, 3]], [&[0], &[1]]);
    assert!(rt; new_book_answers(rt.alloc(), &steps(), &answers(), &shown));
}

/// Whether a book answers each of these steps so, one by one.
fn answer_one_by_one(book: &mut Book, told: &[(Step, Answer)]) -> bool {
    for (step, want) in told {
        match make(book, *step) {
            Ok(answer) if answer == *want => (),
            _ => return false,
        }
    }
    true
}

/// Whether a new book of so many jobs, tries and seats answers each of these steps so, one by one, and has this next
/// number.
fn book_answers(alloc: Global, shape: (u32, u32, u32), told: &[(Step, Answer)], next: u64) -> bool {
    let (jobs, tries, seats) = shape;
    if jobs > 3 || tries < 1 || tries > 8 || seats > 2 {
        return false;
    }
    match Book::new(alloc, jobs, tries, seats) {
        Ok(mut book) => answer_one_by_one(&mut book, told) && book.next() == next,
        Err(_) => false,
    }
}

// The steps beside their answers.
fn steps_and_answers() -> [(Step, Answer); 12] {
    [
        (Step::Draw(0), FIRST),
        (Step::Draw(1), SECOND),
        (Step::Settle(0, 0), KEPT),
        (Step::Draw(0), THIRD),
        (Step::Look(0, 0), SETTLED),
        (Step::Settle(0, 2), DOUBLE),
        (Step::Draw(1), FOURTH),
        (Step::Draw(1), NOTHING),
        (Step::Settle(1, 0), REFUSED),
        (Step::Settle(1, 1), KEPT),
        (Step::Loss(1), LOST),
        (Step::Draw(1), REFUSED),
    ]
}

/// `Book::lose`, `Book::settle`.
#[test]
fn makes_the_steps_one_by_one(rt: HostRuntime) {
    assert!(rt; book_answers(rt.alloc(), (2, 2, 2), &steps_and_answers(), 4));
}

/// Whether a new book answers so where seat 0 is lost before step k.
fn answers_with_loss(alloc: Global, k: usize) -> bool {
    match (two_by_two(alloc), with_loss(alloc, k)) {
        (Ok(mut book), Ok(steps)) => match run(&mut book, &steps) {
            Ok(told) => told.as_slice() == answers_after_loss(k).as_slice(),
            Err(_) => false,
        },
        _ => false,
    }
}

/// `Book::run`.
#[test]
fn loses_a_seat_before_each_step(rt: HostRuntime) {
    for k in 0..=12 {
        assert!(rt;
            answers_with_loss(rt.alloc(), k),
            "seat 0 lost before step {k}"
        );
    }
}

/// Whether a book keeps what a lost seat did.
fn keeps_after_loss(alloc: Global) -> bool {
    let shown: Shown<'_> = (4, [false, true], [&[0], &[1, 2, 3]], [&[], &[1]]);
    match with_loss(alloc, 1) {
        Ok(steps) => new_book_answers(alloc, &steps, &answers_after_loss(1), &shown),
        Err(_) => false,
    }
}

/// `Book::mark`, `Book::kept`.
#[test]
fn keeps_what_a_lost_seat_did(rt: HostRuntime) {
    assert!(rt; keeps_after_loss(rt.alloc()));
}

/// `Book::lose`, `Book::settle`.
#[test]
fn has_no_jobs(rt: HostRuntime) {
    let told = [
        (Step::Draw(0), NOTHING),
        (Step::Look(0, 0), REFUSED),
        (Step::Settle(0, 0), REFUSED),
    ];
    assert!(rt; book_answers(rt.alloc(), (0, 2, 1), &told, 0));
}

/// Whether a book of three jobs and eight tries hands out each job eight times, in order.
fn hands_out_each_job(book: &mut Book) -> bool {
    for pass in 0..8 {
        for job in 0..3 {
            let number = u64::from(pass) * 3 + u64::from(job);
            let want = Answer::Lease(Lease { number, job, pass });
            if !answer_one_by_one(book, &[(Step::Draw(0), want)]) {
                return false;
            }
        }
    }
    true
}

/// Whether a book of three jobs and eight tries does, and then has nothing more to draw.
fn hands_out_all(alloc: Global) -> bool {
    let then = [
        (Step::Draw(0), NOTHING),
        (Step::Settle(0, 23), KEPT),
        (Step::Settle(0, 2), DOUBLE),
        (Step::Settle(0, 24), REFUSED),
        (Step::Look(0, 2), SETTLED),
        (Step::Look(0, 0), Answer::Mark(false)),
        (Step::Look(0, 3), REFUSED),
    ];
    match Book::new(alloc, 3, 8, 1) {
        Ok(mut book) => hands_out_each_job(&mut book) && answer_one_by_one(&mut book, &then),
        Err(_) => false,
    }
}

/// `Book::lose`, `Book::settle`.
#[test]
fn offers_each_job_eight_times(rt: HostRuntime) {
    assert!(rt; hands_out_all(rt.alloc()));
}

/// `Book::lose`, `Book::settle`.
#[test]
fn refuses_a_seat_that_is_not_there(rt: HostRuntime) {
    let told = [
        (Step::Draw(1), REFUSED),
        (Step::Look(1, 0), REFUSED),
        (Step::Settle(1, 0), REFUSED),
        (Step::Loss(1), REFUSED),
        (Step::Loss(0), LOST),
        (Step::Loss(0), REFUSED),
    ];
    assert!(rt; book_answers(rt.alloc(), (2, 1, 1), &told, 0));
}
