//! One seat's lists.
ghost use Rattle.std.specs.Prelude.{◌≡◌, ◌<◌, All, OnOk, OnErr};
ghost use Rattle.work_book.specs.Seat.{new_seat, has_drawn, with_drawn, with_kept, as_lost, without_last_drawn};
ghost use Rattle.work_book.specs.Seat.{without_last_kept, as_present};

use std::alloc::{AllocError, Global};
use std::marker::Model;

/// What a seat drew and kept.
#[derive(Drop)]
pub struct Seat {
    drawn: Vec<u64>,
    kept: Vec<u32>,
    lost: bool,
}

impl Model for Seat {
    ghost use Rattle.std.specs.Prelude.{ℕ, ◌≤◌, ◌<◌, length, get_or};
    ghost use Rattle.work_book.specs.Seat.{SeatState, IsAscending};

    ghost Value = { SeatState };

    ghost view = { λ s. record { drawn = s.drawn.items; kept = s.kept.items; lost = s.lost } };
    // Numbers are drawn in ascending order, so `has_drawn` searches by halves.
    ghost invariant = { λ s. IsAscending s.drawn.items };
}

impl Seat {
    /// A seat that drew nothing.
    pub(crate) fn new(alloc: Global) -> Seat
        ensures { result ≡ new_seat }
    {
        Seat {
            drawn: Vec::new(alloc),
            kept: Vec::new(alloc),
            lost: false,
        }
    }

    /// The numbers that it drew, in order.
    pub(crate) fn drawn(&self) -> &[u64]
        ensures { result.now ≡ self.now.drawn }
    {
        &self.drawn
    }

    /// The jobs that it kept, in order.
    pub(crate) fn kept(&self) -> &[u32]
        ensures { result.now ≡ self.now.kept }
    {
        &self.kept
    }

    /// Whether it is lost.
    pub(crate) fn is_lost(&self) -> bool
        ensures { result ≡ self.now.lost }
    {
        self.lost
    }

    /// Whether it drew a number.
    pub(crate) fn has_drawn(&self, number: u64) -> bool
        ensures { result ≡ has_drawn number self.now }
    {
        self.drawn.binary_search(&number).is_ok()
    }

    /// Adds a number, greater than all before, to those that it drew.
    pub(crate) fn draw(&mut self, number: u64) -> Result<(), AllocError>
        requires { All (λ x. x < number) self.old.drawn }
        ensures ok { OnOk result (self.new ≡ with_drawn number self.old) }
        ensures err { OnErr result (self.new ≡ self.old) }
    {
        self.drawn.push(number)?;
        Ok(())
    }

    /// Adds a job to those that it kept.
    pub(crate) fn keep(&mut self, job: u32) -> Result<(), AllocError>
        ensures ok { OnOk result (self.new ≡ with_kept job self.old) }
        ensures err { OnErr result (self.new ≡ self.old) }
    {
        self.kept.push(job)?;
        Ok(())
    }

    /// Marks the seat as lost.
    pub(crate) fn lose(&mut self)
        ensures { self.new ≡ as_lost self.old }
    {
        self.lost = true;
    }

    /// Takes the last draw back.
    pub(crate) fn undraw(&mut self)
        ensures { self.new ≡ without_last_drawn self.old }
    {
        let _ = self.drawn.pop();
    }

    /// Takes back that the last job was kept.
    pub(crate) fn unkeep(&mut self)
        ensures { self.new ≡ without_last_kept self.old }
    {
        let _ = self.kept.pop();
    }

    /// Takes the loss back.
    pub(crate) fn unlose(&mut self)
        ensures { self.new ≡ as_present self.old }
    {
        self.lost = false;
    }
}
