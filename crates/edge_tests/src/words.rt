//! What arguments ask for.

use command_line::{Opt, WordFault, task_of, text_of, word_status};
use jiff::civil::Date;
use std::alloc::{AllocError, Global};
use studies::Settings;

/// The arguments of a study of one minute.
const STUDY: [&str; 21] = [
    "ttm",
    "--feed",
    "town",
    "--date",
    "20260504",
    "--from",
    "08:00",
    "--to",
    "08:00",
    "--trips",
    "2",
    "--walk",
    "0",
    "--share",
    "50",
    "--within",
    "1800",
    "--workers",
    "1",
    "--tries",
    "1",
];

/// Why there is no study: the option that is bad, and the exit status.
#[derive(Clone, Copy, PartialEq, Eq)]
struct Refusal {
    bad: Option<Opt>,
    status: u8,
}

/// The arguments of the study with one in place of another, and one more.
pub(crate) fn changed(
    alloc: Global,
    position: usize,
    word: &str,
    more: &str,
) -> Result<Vec<String>, AllocError> {
    let mut words = Vec::new(alloc);
    for (k, kept) in STUDY.iter().enumerate() {
        let chosen = if k == position { word } else { *kept };
        words.push(String::from_str(alloc, chosen)?)?;
    }
    words.push(String::from_str(alloc, more)?)?;
    Ok(words)
}

/// What arguments ask for, or why they ask for no study.
fn asked(alloc: Global, words: Result<Vec<String>, AllocError>) -> Result<Settings, Refusal> {
    let none = Refusal {
        bad: None,
        status: 3,
    };
    let Ok(words) = words else {
        return Err(none);
    };
    match task_of(alloc, &words) {
        Ok(task) => Ok(task.settings),
        Err(fault) => {
            let status = word_status(&fault);
            match fault {
                WordFault::Bad(option) => Err(Refusal {
                    bad: Some(option),
                    status,
                }),
                _ => Err(Refusal { bad: None, status }),
            }
        }
    }
}

/// Why the changed arguments ask for no study.
fn why_not(alloc: Global, position: usize, word: &str, more: &str) -> Option<Refusal> {
    asked(alloc, changed(alloc, position, word, more)).err()
}

/// The settings but the date and the lists: the days back and ahead, the window, what is asked of journeys, and of the
/// run.
fn numbers(settings: &Settings) -> [u32; 8] {
    [
        settings.back,
        settings.ahead,
        settings.first,
        settings.minutes,
        settings.rides,
        settings.walk,
        settings.workers,
        settings.tries,
    ]
}

/// `word_status`, `task_of`.
#[test]
fn asks_for_a_study_of_one_minute(rt: HostRuntime) {
    match asked(rt.alloc(), changed(rt.alloc(), 0, "ttm", "cut.csv")) {
        Ok(settings) => {
            assert!(rt; settings.date == Date::constant(2026, 5, 4));
            assert_eq!(rt; numbers(&settings), [1, 1, 480, 1, 2, 0, 1, 1]);
            assert_eq!(rt; settings.shares.as_slice(), [50].as_slice());
            assert_eq!(rt; settings.withins.as_slice(), [1800].as_slice());
        }
        Err(_) => panic!(rt; "refused"),
    }
}

/// Whether the arguments, with one text in place of another, ask for these shares and limits.
fn asks_for(alloc: Global, position: usize, text: &str, shares: &[u32], withins: &[u32]) -> bool {
    match asked(alloc, changed(alloc, position, text, "cut.csv")) {
        Ok(settings) => {
            settings.shares.as_slice() == shares && settings.withins.as_slice() == withins
        }
        Err(_) => false,
    }
}

/// `word_status`, `task_of`.
#[test]
fn asks_for_shares_and_limits(rt: HostRuntime) {
    let shares = [1, 25, 50, 75, 100];
    assert!(rt; asks_for(rt.alloc(), 14, "1,25,50,75,100", &shares, &[1800]));
    assert!(rt; asks_for(rt.alloc(), 16, "700,1800", &[50], &[700, 1800]));
}

/// `word_status`, `task_of`.
#[test]
fn wrong_words_are_no_study(rt: HostRuntime) {
    let wrong = Refusal {
        bad: None,
        status: 2,
    };
    let told = Refusal {
        bad: None,
        status: 0,
    };
    assert!(rt; why_not(rt.alloc(), 0, "ttm", "--nope") == Some(wrong));
    assert!(rt; why_not(rt.alloc(), 3, "cut.csv", "late.csv") == Some(wrong));
    assert!(rt; why_not(rt.alloc(), 0, "ttm", "--help") == Some(told));
    assert!(rt; why_not(rt.alloc(), 0, "ttm", "--version") == Some(told));
    assert!(rt; why_not(rt.alloc(), 0, "ttm", "-V") == Some(told));
}

/// The arguments of the study, and more.
pub(crate) fn with_more(alloc: Global, more: &[&str]) -> Result<Vec<String>, AllocError> {
    let mut words = Vec::new(alloc);
    for word in STUDY.iter().chain(more.iter()) {
        words.push(String::from_str(alloc, word)?)?;
    }
    Ok(words)
}

/// Whether the arguments of the study, and more, ask for a report; or the exit status where they ask for no study.
fn reports(alloc: Global, more: &[&str]) -> Result<bool, u8> {
    let Ok(words) = with_more(alloc, more) else {
        return Err(3);
    };
    match task_of(alloc, &words) {
        Ok(task) => Ok(task.report),
        Err(fault) => Err(word_status(&fault)),
    }
}

/// Whether the arguments of the study, and more, give an option this text.
fn gives(alloc: Global, more: &[&str], name: &str, text: Option<&str>) -> bool {
    let Ok(words) = with_more(alloc, more) else {
        return false;
    };
    match text_of(alloc, &words, name) {
        Ok(given) => given.as_deref() == text,
        Err(_) => false,
    }
}

/// `text_of`.
#[test]
fn an_option_has_the_text_that_words_give_it(rt: HostRuntime) {
    assert!(rt; gives(rt.alloc(), &["--back", " 7"], "back", Some(" 7")));
    assert!(rt; gives(rt.alloc(), &["--report"], "date", Some("20260504")));
    assert!(rt; gives(rt.alloc(), &["--report"], "report", Some("true")));
    assert!(rt; gives(rt.alloc(), &["cut.csv"], "report", Some("false")));
    assert!(rt; gives(rt.alloc(), &["cut.csv"], "ahead", None));
    assert!(rt; !gives(rt.alloc(), &["--nope"], "date", Some("20260504")));
}

/// `word_status`, `task_of`.
#[test]
fn a_report_is_asked_for_by_a_flag_without_text(rt: HostRuntime) {
    assert!(rt; reports(rt.alloc(), &[]) == Ok(false));
    assert!(rt; reports(rt.alloc(), &["--report"]) == Ok(true));
    assert!(rt; reports(rt.alloc(), &["--report", "cut.csv"]) == Ok(true));
    assert!(rt; reports(rt.alloc(), &["--", "--report"]) == Ok(false));
    assert!(rt; reports(rt.alloc(), &["--report", "--report"]) == Err(2));
    assert!(rt; reports(rt.alloc(), &["--report=yes"]) == Err(2));
}

/// Whether the changed arguments are refused for this option.
fn is_bad(alloc: Global, position: usize, word: &str, option: Opt) -> bool {
    let want = Refusal {
        bad: Some(option),
        status: 2,
    };
    why_not(alloc, position, word, "cut.csv") == Some(want)
}

/// `word_status`, `task_of`.
#[test]
fn tells_the_option_whose_text_is_bad(rt: HostRuntime) {
    let cases: [(usize, &str, Opt); 14] = [
        (4, "20260431", Opt::Date),
        (6, "08:01", Opt::Window),
        (10, "9", Opt::Trips),
        (12, "7201", Opt::Walk),
        (14, "0", Opt::Share),
        (14, "50,25", Opt::Share),
        (14, "50,101", Opt::Share),
        (14, " 50", Opt::Share),
        (16, "4294967296", Opt::Within),
        (16, "1800,1800", Opt::Within),
        (16, "", Opt::Within),
        (18, "65", Opt::Workers),
        (20, "two", Opt::Tries),
        (0, "ttm", Opt::Back),
    ];
    for (position, word, option) in &cases {
        assert_eq!(rt; is_bad(rt.alloc(), *position, word, *option), *position > 0);
    }
}
