//! What is told of options that are refused. The texts are written by hand.

use crate::pages::blank;
use crate::small_study::MONDAY;
use crate::words::{changed, with_more};
use command_line::{WordFault, explain_option, task_of};
use std::alloc::{AllocError, Global};
use std::sync::Wait;

/// Whether arguments are refused for an option's text, and this is told of it.
fn is_told<R: Wait>(
    rt: &R,
    alloc: Global,
    words: Result<Vec<String>, AllocError>,
    text: &str,
) -> bool {
    let Ok(words) = words else {
        return false;
    };
    let Err(WordFault::Bad(option)) = task_of(alloc, &words) else {
        return false;
    };
    let page = blank(rt, alloc, MONDAY);
    explain_option(&page, alloc, &words, option);
    let told = page.text.into_inner();
    told.as_slice() == text.as_bytes()
}

/// Whether this is told with a report where the study's arguments have one in place of another.
fn is_changed_told<R: Wait>(
    rt: &R,
    alloc: Global,
    position: usize,
    word: &str,
    text: &str,
) -> bool {
    is_told(rt, alloc, changed(alloc, position, word, "--report"), text)
}

/// The position of an option's text among the words, a text that is refused, and what is told of it.
const REFUSED: [(usize, &str, &str); 16] = [
    (
        4,
        "2026-05-04",
        "ttm: --date is \"2026-05-04\"; a date is YYYYMMDD\n",
    ),
    (
        4,
        "20260431",
        "ttm: --date is \"20260431\"; there is no such day\n",
    ),
    (
        6,
        "8:00",
        "ttm: --from is \"8:00\"; a time of day is HH:MM, 00:00 to 23:59\n",
    ),
    (
        8,
        "24:00",
        "ttm: --to is \"24:00\"; a time of day is HH:MM, 00:00 to 23:59\n",
    ),
    (
        6,
        "08:01",
        "ttm: --from is \"08:01\" and --to is \"08:00\"; --to may not be before --from\n",
    ),
    (
        10,
        "9",
        "ttm: --trips is \"9\"; rides are a whole number, 1 to 8\n",
    ),
    (
        12,
        "7201",
        "ttm: --walk is \"7201\"; a walk is whole seconds, 0 to 7200\n",
    ),
    (
        14,
        "0,50",
        "ttm: --share is \"0,50\"; a share is 1 to 100 percent\n",
    ),
    (
        14,
        "50,25",
        "ttm: --share is \"50,25\"; each number of a list is greater than the one before it\n",
    ),
    (
        14,
        "1,2,3,4,5,6,7,8,9",
        "ttm: --share is \"1,2,3,4,5,6,7,8,9\"; there may be 8 shares\n",
    ),
    (
        16,
        "900, 1800",
        "ttm: --within is \"900, 1800\"; a list is numbers parted by commas, with no space; \
            each is digits alone, 0 to 4294967295\n",
    ),
    (
        16,
        "1800,1800",
        "ttm: --within is \"1800,1800\"; each number of a list is greater than the one before it\n",
    ),
    (
        16,
        "1,2,3,4,5,6,7,8,9",
        "ttm: --within is \"1,2,3,4,5,6,7,8,9\"; there may be 8 limits\n",
    ),
    (
        18,
        "65",
        "ttm: --workers is \"65\"; workers are a whole number, 1 to 64\n",
    ),
    (
        20,
        "two",
        "ttm: --tries is \"two\"; tries are a whole number, 1 to 8\n",
    ),
    (
        20,
        "a text of more than sixty bytes is shown as far as the sixtieth",
        "ttm: --tries is \"a text of more than sixty bytes is shown as far as the sixti..\"; \
            tries are a whole number, 1 to 8\n",
    ),
];

/// `explain_option`.
#[test]
fn texts_of_options_are_explained(rt: HostRuntime) {
    for (position, word, text) in &REFUSED {
        assert!(rt; is_changed_told(&rt, rt.alloc(), *position, word, text));
    }
}

/// `explain_option`.
#[test]
fn days_beside_the_date_are_explained(rt: HostRuntime) {
    let alloc = rt.alloc();
    let back = with_more(alloc, &["--report", "--back", "7"]);
    let text = "ttm: --back is \"7\"; service days before the date are a whole number, 0 to 6\n";
    assert!(rt; is_told(&rt, alloc, back, text));
    let ahead = with_more(alloc, &["--report", "--ahead", "one"]);
    let text = "ttm: --ahead is \"one\"; service days after the date are a whole number, 0 to 6\n";
    assert!(rt; is_told(&rt, alloc, ahead, text));
}

/// `explain_option`.
#[test]
fn nothing_is_explained_without_a_report(rt: HostRuntime) {
    let words = changed(rt.alloc(), 10, "9", "cut.csv");
    assert!(rt; is_told(&rt, rt.alloc(), words, ""));
}
