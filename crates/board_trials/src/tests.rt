//! What seats are told at a board, by one thread, by two and by eight, and what a closed board shows.
ghost use Rattle.std.specs.Prelude.{◌≤◌};

use crate::trials::{self, Outcome};
use crate::workers::{Task, work};
use std::test::Fail;
use work_book::{Board, Closed, Draw, Lease, Settled};

// How many of the first jobs are settled.
fn settled(closed: &Closed, jobs: u32) -> u32
    requires { jobs ≤ closed.now.jobs }
{
    let mut count = 0u32;
    for job in 0..jobs {
        if closed.settled(job) {
            count = count.saturating_add(1);
        }
    }
    count
}

// A thousand jobs, each offered once, by two threads.
/// `Closed::settled`.
#[test]
fn two_threads_settle_each_of_a_thousand_jobs_once(rt: HostRuntime) -> Result<(), Fail> {
    let outcome = trials::make(&rt, rt.alloc(), Task::Settle, 1000, 1, 2)?;
    let Outcome { tally, closed } = outcome;
    assert!(rt; tally.drawn == 1000);
    assert!(rt; tally.kept == 1000);
    assert!(rt; tally.double == 0);
    assert!(rt; tally.unseen == 0);
    assert!(rt; closed.next() == 1000);
    assert!(rt; settled(&closed, 1000) == 1000);
    Ok(())
}

// Each job is drawn twice, kept once, and settled before once.
/// `Closed::settled`.
#[test]
fn eight_threads_settle_each_of_many_jobs_once(rt: HostRuntime) -> Result<(), Fail> {
    let outcome = trials::make(&rt, rt.alloc(), Task::Settle, 100_000, 2, 8)?;
    let Outcome { tally, closed } = outcome;
    assert!(rt; tally.drawn == 200_000);
    assert!(rt; tally.kept == 100_000);
    assert!(rt; tally.double == 100_000);
    assert!(rt; tally.unseen == 0);
    assert!(rt; closed.next() == 200_000);
    assert!(rt; settled(&closed, 100_000) == 100_000);
    Ok(())
}

/// `Closed::settled`.
#[test]
fn eight_threads_draw_each_number_once(rt: HostRuntime) -> Result<(), Fail> {
    let outcome = trials::make(&rt, rt.alloc(), Task::Draw, 100_000, 8, 8)?;
    let Outcome { tally, closed } = outcome;
    assert!(rt; tally.drawn == 800_000);
    assert!(rt; closed.next() == 800_000);
    assert!(rt; settled(&closed, 100_000) == 0);
    Ok(())
}

// The first seat draws and settles job 0; a seat that was split from it before sees that, and that job 1 is open.
/// `Board::split`, `Board::look`.
#[test]
fn a_seat_sees_what_another_settled(rt: HostRuntime) -> Result<(), Fail> {
    let (board, mut first) = Board::new(rt.alloc(), 2, 2)?;
    let mut second = board.split(&mut first);
    if let Draw::Lease(lease) = board.draw(&mut first) {
        assert!(rt; lease.job == 0);
        assert!(rt; board.settle(&mut first, lease) == Settled::Kept);
    }
    assert!(rt; board.look(&mut second, 0));
    assert!(rt; !board.look(&mut second, 1));
    Ok(())
}

// A seat that was told `Nothing` is told so again, and so is one that takes it in.
/// `WorkSeat::share`, `Board::draw`.
#[test]
fn nothing_is_left_after_nothing(rt: HostRuntime) -> Result<(), Fail> {
    let (board, first) = Board::new(rt.alloc(), 3, 1)?;
    let mut done = work(&board, first, Task::Settle);
    assert!(rt; done.tally.drawn == 3);
    assert!(rt; board.draw(&mut done.seat) == Draw::Nothing);
    assert!(rt; board.draw(&mut done.seat) == Draw::Nothing);
    assert!(rt; done.seat.share() == 65_536);
    Ok(())
}

// Numbers go to whoever asks, and a number's job and pass are those of the book.
/// `Board::split`, `WorkSeat::share`.
#[test]
fn numbers_go_to_whoever_asks(rt: HostRuntime) -> Result<(), Fail> {
    let (board, mut first) = Board::new(rt.alloc(), 2, 2)?;
    let mut second = board.split(&mut first);
    assert!(rt; second.share() == 1 && first.share() == 65_535);
    let one = board.draw(&mut first);
    let two = board.draw(&mut second);
    let three = board.draw(&mut first);
    assert!(rt; one == lease(0, 0, 0) && two == lease(1, 1, 0) && three == lease(2, 0, 1));
    Ok(())
}

// A seat settles what a seat drew that it took in, and only once.
/// `Board::join`, `Board::split`.
#[test]
fn a_seat_settles_what_it_took_in(rt: HostRuntime) -> Result<(), Fail> {
    let (board, mut first) = Board::new(rt.alloc(), 2, 2)?;
    let mut second = board.split(&mut first);
    let drawn = board.draw(&mut second);
    board.join(&mut first, second);
    if let Draw::Lease(taken_in) = drawn {
        let once = board.settle(&mut first, taken_in);
        let again = board.settle(&mut first, taken_in);
        assert!(rt; once == Settled::Kept && again == Settled::Double);
    }
    let closed = board.close(first);
    assert!(rt; closed.next() == 1 && closed.settled(0) && !closed.settled(1));
    Ok(())
}

fn lease(number: u64, job: u32, pass: u32) -> Draw {
    Draw::Lease(Lease { number, job, pass })
}

/// `Board::jobs`, `Board::tries`.
#[test]
fn a_board_without_jobs_gives_nothing(rt: HostRuntime) -> Result<(), Fail> {
    let (board, mut seat) = Board::new(rt.alloc(), 0, 1)?;
    assert!(rt; board.jobs() == 0 && board.tries() == 1);
    assert!(rt; board.draw(&mut seat) == Draw::Nothing);
    assert!(rt; board.close(seat).next() == 0);
    Ok(())
}
