//! The plain form of a run, which the program doesn't call: steps of a book of work and offers of rows, as data, made
//! one after another. The laws of such lists stand in `laws`.
ghost use Rattle.std.specs.Prelude.{◌≡◌, ◌≤◌, [], length, vec_capacity, IfOk, IfErr, OnOk, OnErr};
ghost use Rattle.collector.specs.Offers.{offered};
ghost use Rattle.collector.specs.Plain.{core, answers_of, run_of, book_steps, merged, handed};

use crate::places::{Collector, Offer};
use crate::row::Row;
use std::alloc::{AllocError, Global};
use work_book::{Answer, Book, Step};

/// A step of a seat, or a row that it offers.
#[derive(Drop)]
pub enum CoreStep {
    /// A step of the book.
    Book(Step),
    /// A seat offers a row. A lost seat may still do so.
    Hand(u32, Row),
}

/// What a step answers.
#[derive(Drop)]
pub enum CoreAnswer {
    /// What the book answers.
    Book(Answer),
    /// What became of the row.
    Hand(Offer),
}

/// Makes the steps in order, and answers each.
///
/// `Err` is out of memory alone: the steps come back, and the book and the collector are as they were.
pub fn run_core(
    alloc: Global,
    book: &mut Book,
    collector: &mut Collector,
    steps: Vec<CoreStep>,
) -> Result<Vec<CoreAnswer>, Vec<CoreStep>>
    ensures answers { IfOk result (λ answers. answers.items ≡ answers_of (core book.old collector.old) steps.items) }
    ensures ok { OnOk result (core book.new collector.new ≡ run_of (core book.old collector.old) steps.items) }
    ensures back { IfErr result (λ back. back ≡ steps) }
    ensures err { OnErr result (core book.new collector.new ≡ core book.old collector.old) }
{
    let Ok(own) = steps_of_book(alloc, &steps) else {
        return Err(steps);
    };
    let Ok(answers) = Vec::with_capacity(alloc, steps.len()) else {
        return Err(steps);
    };
    // The book's steps and the rows don't meet, so all that needs memory is done before the first row is offered.
    let Ok(of_book) = book.run(&own) else {
        return Err(steps);
    };
    Ok(offer_all(answers, collector, of_book, steps))
}

/// The steps of the book.
fn steps_of_book(alloc: Global, steps: &[CoreStep]) -> Result<Vec<Step>, AllocError>
    ensures { IfOk result (λ own. own.items ≡ book_steps steps.now) }
{
    let mut own = Vec::new(alloc);
    for step in steps {
        if let CoreStep::Book(step) = step {
            own.push(*step)?;
        }
    }
    Ok(own)
}

/// Offers the rows, and puts the answers between those of the book.
fn offer_all(
    mut answers: Vec<CoreAnswer>,
    collector: &mut Collector,
    of_book: Vec<Answer>,
    steps: Vec<CoreStep>,
) -> Vec<CoreAnswer>
    requires empty { answers.items ≡ [] }
    requires room { length steps.items ≤ vec_capacity answers }
    requires told { length of_book.items ≡ length (book_steps steps.items) }
    ensures answers { result.items ≡ merged collector.old steps.items of_book.items }
    ensures places { collector.new ≡ offered collector.old (handed steps.items) }
{
    let mut of_book = of_book.into_iter();
    for step in steps {
        let answer = match step {
            CoreStep::Book(_) => CoreAnswer::Book(of_book.next().unwrap()),
            CoreStep::Hand(_, row) => CoreAnswer::Hand(collector.offer(row)),
        };
        answers.push_reserved(answer);
    }
    answers
}
