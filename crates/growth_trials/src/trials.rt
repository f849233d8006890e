//! All trials, by name.

use crate::networks::{BACK_IN_TIME, FAR_WALK, FeetCase, NetCase, TOO_FAR, TWO_TRIPS, WALK};
use crate::{books, networks, rows, searches, tables, texts};
use std::alloc::Global;
use std::sync::Wait;
use std::thread::Threads;
use study_trials::{
    Asked, FIVE_SHARES, Half, KeptCall, ONE_SHARE, Outcome, QuestionCall, StudyCase,
    TWO_DESTINATIONS, WordCall, try_half, try_kept_call, try_minute, try_question_call, try_task,
    try_word_call,
};

/// A trial of a call.
#[derive(Clone, Copy)]
pub(crate) enum Trial {
    Feet(FeetCase),
    Network(NetCase),
    Close,
    NetworkOf,
    ReadFeed,
    Table(tables::Call),
    Search(searches::Call),
    Cells(searches::Cells),
    Book,
    BookCall(books::Call),
    Core,
    Board,
    Collector,
    Row(rows::Call),
    Workers(rows::Workers),
    WriteMatrix,
    MinuteLine,
    Study(StudyCase, Half),
    Kept(KeptCall),
    Question(QuestionCall),
    Word(WordCall),
    TaskOf(Asked),
}

/// Each trial by its name, which begins with that of the call.
const TRIALS: [(&str, Trial); 54] = [
    ("Feet::new", Trial::Feet(WALK)),
    ("Feet::new, stop out of range", Trial::Feet(FAR_WALK)),
    ("Network::new", Trial::Network(TWO_TRIPS)),
    ("Network::new, stop out of range", Trial::Network(TOO_FAR)),
    ("Network::new, times go back", Trial::Network(BACK_IN_TIME)),
    ("read_feed", Trial::ReadFeed),
    ("read_origins", Trial::Table(tables::Call::ReadOrigins)),
    (
        "read_opportunities",
        Trial::Table(tables::Call::ReadOpportunities),
    ),
    (
        "read_destinations",
        Trial::Table(tables::Call::ReadDestinations),
    ),
    ("active", Trial::Table(tables::Call::Active)),
    ("direct", Trial::Table(tables::Call::Direct)),
    ("close", Trial::Close),
    ("read_scenario", Trial::Table(tables::Call::ReadScenario)),
    ("network_of", Trial::NetworkOf),
    ("one_minute", Trial::Search(searches::Call::OneMinute)),
    ("durations", Trial::Search(searches::Call::Durations)),
    ("Search::durations", Trial::Search(searches::Call::Search)),
    ("cells", Trial::Cells(searches::Cells::OfOneShare)),
    ("cells_of", Trial::Cells(searches::Cells::OfTwoShares)),
    ("cells_at", Trial::Cells(searches::Cells::At)),
    ("cells_of_at", Trial::Cells(searches::Cells::OfTwoSharesAt)),
    ("Book::new", Trial::Book),
    ("Book::draw", Trial::BookCall(books::Call::Draw)),
    ("Book::settle", Trial::BookCall(books::Call::Settle)),
    ("Book::run", Trial::BookCall(books::Call::Run)),
    ("run_core", Trial::Core),
    ("Board::new", Trial::Board),
    ("Collector::new", Trial::Collector),
    ("row_of", Trial::Row(rows::Call::RowOf)),
    ("one_thread", Trial::Row(rows::Call::OneThread)),
    ("run_workers, 1", Trial::Workers(rows::Workers::One)),
    ("run_workers, 2", Trial::Workers(rows::Workers::Two)),
    ("run_workers, 7", Trial::Workers(rows::Workers::Seven)),
    ("write_matrix", Trial::WriteMatrix),
    ("minute_line", Trial::MinuteLine),
    ("run_study", Trial::Study(ONE_SHARE, Half::Both)),
    (
        "run_study, five shares",
        Trial::Study(FIVE_SHARES, Half::Both),
    ),
    (
        "run_study, two destinations",
        Trial::Study(TWO_DESTINATIONS, Half::Both),
    ),
    ("ready_study", Trial::Study(FIVE_SHARES, Half::Ready)),
    ("compute_study", Trial::Study(FIVE_SHARES, Half::Computed)),
    ("keep", Trial::Kept(KeptCall::Keep)),
    ("answer", Trial::Kept(KeptCall::Answer)),
    ("answers", Trial::Kept(KeptCall::Answers)),
    ("question_of", Trial::Question(QuestionCall::QuestionOf)),
    ("question_line", Trial::Question(QuestionCall::QuestionLine)),
    ("numbers_of", Trial::Word(WordCall::NumbersOf)),
    ("task_of", Trial::TaskOf(Asked::Study)),
    ("task_of, help", Trial::TaskOf(Asked::Help)),
    ("task_of, other words", Trial::TaskOf(Asked::Nonsense)),
    ("text_of", Trial::TaskOf(Asked::Option)),
    ("path_in", Trial::Word(WordCall::PathIn)),
    ("read_all", Trial::Word(WordCall::ReadAll)),
    ("fault_line", Trial::Word(WordCall::FaultLine)),
    ("path_line", Trial::Word(WordCall::PathLine)),
];

/// The same from a function, so that the proofs of those who go through them don't compute the whole list.
pub(crate) fn trials() -> [(&'static str, Trial); 54] {
    TRIALS
}

/// Makes a trial.
pub(crate) fn make<R: Threads + Wait + Sync>(rt: &R, alloc: Global, trial: Trial) -> Outcome {
    match trial {
        Trial::Feet(case) => networks::try_feet(alloc, case),
        Trial::Network(case) => networks::try_network(alloc, case),
        Trial::Close => networks::try_close(alloc),
        Trial::NetworkOf => networks::try_network_of(alloc),
        Trial::ReadFeed => tables::try_read_feed(alloc),
        Trial::Table(call) => tables::try_call(alloc, call),
        Trial::Search(call) => searches::try_call(alloc, call),
        Trial::Cells(call) => searches::try_cells(alloc, call),
        Trial::Book => books::try_book(alloc),
        Trial::BookCall(call) => books::try_call(alloc, call),
        Trial::Core => books::try_core(alloc),
        Trial::Board => books::try_board(alloc),
        Trial::Collector => books::try_collector(alloc),
        Trial::Row(call) => rows::try_call(alloc, call),
        Trial::Workers(workers) => rows::try_workers(rt, alloc, workers),
        Trial::WriteMatrix => texts::try_write(alloc),
        Trial::MinuteLine => try_minute(alloc),
        Trial::Study(case, half) => try_half(rt, alloc, case, half),
        Trial::Kept(call) => try_kept_call(rt, alloc, FIVE_SHARES, call),
        Trial::Question(call) => try_question_call(alloc, call),
        Trial::Word(call) => try_word_call(alloc, call),
        Trial::TaskOf(asked) => try_task(alloc, asked),
    }
}
