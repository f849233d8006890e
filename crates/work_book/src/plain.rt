//! The book as one value, and its steps: the plain form of a board, not on the program's way.
ghost use Rattle.std.specs.Prelude.{◌≡◌, ◌<◌, ◌≤◌, ◌&&◌, true, length, slice_get, Some, IfOk, OnOk, OnErr, replicate};
ghost use Rattle.std.specs.Prelude.{false};
ghost use Rattle.std.specs.Option.{option_map};
ghost use Rattle.work_book.specs.Book.{BookState, IsSameSize, new_book, is_marked};
ghost use Rattle.work_book.specs.Book as state;
ghost use Rattle.work_book.specs.Seat.{new_seat};
ghost use Rattle.work_book.specs.Steps.{answer_of, after, answers_of, run_of};
ghost use Rattle.work_book.specs.TakenBack.{taken_back, HasStepped, HasRun};

use crate::lease::Lease;
use crate::limits::{MOST_JOBS, MOST_TRIES};
use crate::seat::Seat;
use crate::steps::{Answer, Step};
use std::alloc::{AllocError, Global};
use std::marker::Model;

/// Who drew which number, and which jobs are settled, in one value: the plain form that a [`Board`](crate::Board) is
/// proved against.
///
/// Job and seat numbers count from 0. A refused step changes nothing, nor does one that runs out of memory.
#[derive(Drop)]
pub struct Book {
    alloc: Global,
    jobs: u32,
    tries: u32,
    next: u64,
    marks: Vec<bool>,
    seats: Vec<Seat>,
}

impl Model for Book {
    ghost use Rattle.work_book.specs.Book.{BookState, IsBook};

    ghost Value = { BookState };

    ghost view = { λ b. record {
      jobs = b.jobs;
      tries = b.tries;
      next = b.next;
      marks = b.marks.items;
      seats = b.seats.items;
    } };

    ghost invariant = { λ b. IsBook (record {
      jobs = b.jobs;
      tries = b.tries;
      next = b.next;
      marks = b.marks.items;
      seats = b.seats.items;
    }) };
}

impl Book {
    /// A book of `jobs` jobs, each offered `tries` times, and of `seats` seats that drew nothing.
    ///
    /// No jobs is allowed.
    pub fn new(alloc: Global, jobs: u32, tries: u32, seats: u32) -> Result<Book, AllocError>
        requires jobs { jobs ≤ MOST_JOBS }
        requires tries { tries ≤ MOST_TRIES }
        ensures { IfOk result (λ book. book ≡ new_book jobs tries seats) }
    {
        let marks = open_marks(alloc, jobs)?;
        let seats = new_seats(alloc, seats)?;
        Ok(Book {
            alloc,
            jobs,
            tries,
            next: 0,
            marks,
            seats,
        })
    }

    /// The number that is drawn next, which is also how many were drawn.
    pub fn next(&self) -> u64
        ensures { result ≡ self.now.next }
    {
        self.next
    }

    /// Whether the job is settled.
    pub fn mark(&self, job: u32) -> bool
        requires { job < self.now.jobs }
        ensures { result ≡ is_marked self.now job }
    {
        self.marks[job as usize]
    }

    /// The numbers that the seat drew, in order.
    pub fn drawn(&self, seat: u32) -> &[u64]
        requires { seat < length self.now.seats }
        ensures { option_map (λ s. s.drawn) (slice_get self.now.seats seat) ≡ Some result.now }
    {
        self.seats[seat as usize].drawn()
    }

    /// The jobs that the seat kept, in order.
    pub fn kept(&self, seat: u32) -> &[u32]
        requires { seat < length self.now.seats }
        ensures { option_map (λ s. s.kept) (slice_get self.now.seats seat) ≡ Some result.now }
    {
        self.seats[seat as usize].kept()
    }

    /// Gives the seat the next number, or answers that all were drawn.
    pub fn draw(&mut self, seat: u32) -> Result<Answer, AllocError>
        ensures answer { IfOk result (λ answer. answer ≡ answer_of self.old (Step.Draw seat)) }
        ensures ok { OnOk result (self.new ≡ after self.old (Step.Draw seat)) }
        ensures err { OnErr result (self.new ≡ self.old) }
        ensures size { IsSameSize self.old self.new }
    {
        if !self.acts(seat) {
            return Ok(Answer::Refused);
        }
        let number = self.next;
        if number >= self.jobs as u64 * self.tries as u64 {
            return Ok(Answer::Nothing);
        }
        self.seats[seat as usize].draw(number)?;
        self.next += 1;
        let jobs = self.jobs as u64;
        Ok(Answer::Lease(Lease {
            number,
            job: (number % jobs) as u32,
            pass: (number / jobs) as u32,
        }))
    }

    /// Tells the seat whether the job is settled.
    pub fn look(&self, seat: u32, job: u32) -> Answer
        ensures { result ≡ answer_of self.now (Step.Look seat job) }
    {
        if !self.acts(seat) || job >= self.jobs {
            return Answer::Refused;
        }
        Answer::Mark(self.marks[job as usize])
    }

    /// Settles the job of a number that the seat drew; the first seat to do so keeps the job.
    pub fn settle(&mut self, seat: u32, number: u64) -> Result<Answer, AllocError>
        ensures answer { IfOk result (λ answer. answer ≡ answer_of self.old (Step.Settle seat number)) }
        ensures ok { OnOk result (self.new ≡ after self.old (Step.Settle seat number)) }
        ensures err { OnErr result (self.new ≡ self.old) }
        ensures size { IsSameSize self.old self.new }
    {
        if !self.may_settle(seat, number) {
            return Ok(Answer::Refused);
        }
        let job = (number % self.jobs as u64) as u32;
        if self.marks[job as usize] {
            return Ok(Answer::Double);
        }
        self.seats[seat as usize].keep(job)?;
        self.marks[job as usize] = true;
        Ok(Answer::Kept)
    }

    /// Takes the seat out: it draws, looks and settles no more.
    pub fn lose(&mut self, seat: u32) -> Answer
        ensures answer { result ≡ answer_of self.old (Step.Loss seat) }
        ensures state { self.new ≡ after self.old (Step.Loss seat) }
        ensures size { IsSameSize self.old self.new }
    {
        if !self.acts(seat) {
            return Answer::Refused;
        }
        self.seats[seat as usize].lose();
        Answer::Lost
    }

    /// Takes the steps in order, for other programs and for the laws. Out of memory, the book is as it was before the
    /// first.
    pub fn run(&mut self, steps: &[Step]) -> Result<Vec<Answer>, AllocError>
        ensures answers { IfOk result (λ answers. answers.items ≡ answers_of self.old steps.now) }
        ensures ok { OnOk result (self.new ≡ run_of self.old steps.now) }
        ensures err { OnErr result (self.new ≡ self.old) }
        ensures size { IsSameSize self.old self.new }
    {
        let mut answers = Vec::with_capacity(self.alloc, steps.len())?;
        for step in steps {
            match self.step(*step) {
                Ok(answer) => answers.push_reserved(answer),
                Err(error) => {
                    self.take_all_back(steps, answers);
                    return Err(error);
                }
            }
        }
        Ok(answers)
    }

    /// Whether the seat exists and is not lost.
    fn acts(&self, seat: u32) -> bool
        ensures value { result ≡ state.acts self.now seat }
        ensures there { result ≡ true → seat < length self.now.seats }
    {
        match self.seats.get(seat as usize) {
            Some(seat) => !seat.is_lost(),
            None => false,
        }
    }

    /// Whether the seat acts and drew the number, which is then one of a job.
    fn may_settle(&self, seat: u32, number: u64) -> bool
        ensures value { result ≡ (state.acts self.now seat && state.seat_has self.now seat number) }
        ensures there { result ≡ true → seat < length self.now.seats }
        ensures job { result ≡ true → 0 < self.now.jobs }
        ensures marks { length self.now.marks ≡ self.now.jobs }
        ensures few { self.now.jobs ≤ MOST_JOBS }
    {
        // A look at a field brings the invariant into the proof.
        let _ = &self.jobs;
        if !self.acts(seat) {
            return false;
        }
        self.seats[seat as usize].has_drawn(number)
    }

    /// Takes one step.
    fn step(&mut self, step: Step) -> Result<Answer, AllocError>
        ensures answer { IfOk result (λ answer. answer ≡ answer_of self.old step) }
        ensures ok { OnOk result (self.new ≡ after self.old step) }
        ensures err { OnErr result (self.new ≡ self.old) }
        ensures size { IsSameSize self.old self.new }
    {
        match step {
            Step::Draw(seat) => self.draw(seat),
            Step::Look(seat, job) => Ok(self.look(seat, job)),
            Step::Settle(seat, number) => self.settle(seat, number),
            Step::Loss(seat) => Ok(self.lose(seat)),
        }
    }

    /// Takes back the steps that got these answers, the last one first, so that `run` needs no copy of the book.
    fn take_all_back(&mut self, steps: &[Step], mut answers: Vec<Answer>)
        requires { (before : BookState) × HasRun before steps.now answers.items self.old }
        ensures { (before : BookState) → HasRun before steps.now answers.items self.old → self.new ≡ before }
    {
        while let Some(answer) = answers.pop() {
            self.take_back(steps[answers.len()], answer);
        }
    }

    /// Takes one step back.
    fn take_back(&mut self, step: Step, answer: Answer)
        requires { (before : BookState) × HasStepped before step answer self.old }
        ensures { self.new ≡ taken_back self.old step answer }
    {
        match step {
            Step::Draw(seat) => {
                if let Answer::Lease(lease) = answer {
                    self.seats[seat as usize].undraw();
                    self.next = lease.number;
                }
            }
            Step::Settle(seat, number) => {
                if let Answer::Kept = answer {
                    self.seats[seat as usize].unkeep();
                    self.marks[(number % self.jobs as u64) as usize] = false;
                }
            }
            Step::Loss(seat) => {
                if let Answer::Lost = answer {
                    self.seats[seat as usize].unlose();
                }
            }
            Step::Look(..) => {}
        }
    }
}

/// A mark for each job, none of them set.
fn open_marks(alloc: Global, jobs: u32) -> Result<Vec<bool>, AllocError>
    ensures { IfOk result (λ marks. marks.items ≡ replicate jobs false) }
{
    let mut marks = Vec::with_capacity(alloc, jobs as usize)?;
    for _ in 0..jobs {
        marks.push_reserved(false);
    }
    Ok(marks)
}

/// Seats that drew nothing.
fn new_seats(alloc: Global, count: u32) -> Result<Vec<Seat>, AllocError>
    ensures { IfOk result (λ seats. seats.items ≡ replicate count new_seat) }
{
    let mut seats = Vec::with_capacity(alloc, count as usize)?;
    for _ in 0..count {
        seats.push_reserved(Seat::new(alloc));
    }
    Ok(seats)
}
