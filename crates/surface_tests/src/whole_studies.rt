//! The calls of `ttm`, in `studies` and `command_line`.

use command_line::{
    Opt, ReadFault, Task, WordFault, bad_line, fault_line, numbers_of, path_line, path_status,
    read_all, status, task_of, window_of, word_status,
};
use gtfs_tables::read_date;
use small_feed::{FROM_A, small_files};
use std::alloc::{AllocError, Global};
use std::test::Fail;
use studies::{Inputs, NamedFile, Settings, StudyFault, minute_line, run_study};
use workers::Open;

/// The words of a study of one minute.
const WORDS: [&str; 21] = [
    "ttm",
    "--feed",
    "town",
    "--date",
    "20260504",
    "--from",
    "08:00",
    "--to",
    "08:00",
    "--trips",
    "2",
    "--walk",
    "0",
    "--share",
    "25,50",
    "--within",
    "1800",
    "--workers",
    "1",
    "--tries",
    "1",
];

/// The small feed from its first stop, with a scenario file.
fn inputs_of(scenarios: &[NamedFile]) -> Inputs<'_> {
    Inputs {
        feed: small_files(),
        footpaths: None,
        origins: Some(FROM_A),
        opportunities: None,
        destinations: None,
        scenarios,
    }
}

/// A minute of a Monday, for one share and one limit.
fn settings_of(alloc: Global) -> Option<Settings> {
    Some(Settings {
        date: read_date(b"20260504")?,
        back: 1,
        ahead: 1,
        first: 480,
        minutes: 1,
        rides: 2,
        walk: 0,
        shares: Vec::from_slice(alloc, &[50]).ok()?,
        withins: Vec::from_slice(alloc, &[1_800]).ok()?,
        workers: 1,
        tries: 1,
    })
}

/// A scenario file that leaves all as it is.
fn files_of(alloc: Global, name: &[u8]) -> Result<Vec<NamedFile>, AllocError> {
    let file = NamedFile {
        name: Vec::from_slice(alloc, name)?,
        bytes: Vec::from_slice(alloc, b"action,id\n")?,
    };
    Ok(vec![in alloc; file]?)
}

/// `run_study`, `Settings::fits`.
#[test]
fn studies(rt: HostRuntime) -> Result<(), Fail> {
    let want = b"scenario,origin,share,access_1800,A,B,C
base,A,50,3,0,600,1800
same,A,50,3,0,600,1800
";
    let files = files_of(rt.alloc(), b"same")?;
    let inputs = inputs_of(&files);
    let Some(settings) = settings_of(rt.alloc()) else {
        return Err(Fail::new("no settings"));
    };
    if !inputs.fits() || !settings.fits() {
        return Err(Fail::new("not within the limits"));
    }
    let text: Result<Vec<u8>, StudyFault> = run_study(&rt, rt.alloc(), &inputs, &settings, &Open);
    match text {
        Ok(text) => assert!(rt; text.as_slice() == want.as_slice()),
        Err(_) => assert!(rt; false),
    }
    Ok(())
}

/// `minute_line`.
#[test]
fn minutes(rt: HostRuntime) {
    let files = small_files();
    if files.fits() {
        match minute_line(rt.alloc(), &files, b"A", 480, 1) {
            Ok(line) => assert!(rt; line.as_slice() == b"0,600,\n".as_slice()),
            Err(_) => assert!(rt; false),
        }
    }
}

/// Whether the words are those of the task.
fn are_read(task: &Task) -> bool {
    let settings: &Settings = &task.settings;
    let files: [&Option<String>; 3] = [&task.footpaths, &task.origins, &task.opportunities];
    task.feed.as_str() == "town"
        && settings.shares.as_slice() == [25, 50].as_slice()
        && files.iter().all(|file| file.is_none())
        && task.scenarios.is_empty()
}

/// The words, with one in place of another.
fn words_of(alloc: Global, place: usize, word: &str) -> Result<Vec<String>, AllocError> {
    let mut words = Vec::with_capacity(alloc, WORDS.len())?;
    for (k, kept) in WORDS.iter().enumerate() {
        let chosen = if k == place { word } else { *kept };
        words.push(String::from_str(alloc, chosen)?)?;
    }
    Ok(words)
}

/// `task_of`, `word_status`.
#[test]
fn words(rt: HostRuntime) -> Result<(), Fail> {
    let right = words_of(rt.alloc(), 0, "ttm")?;
    match task_of(rt.alloc(), &right) {
        Ok(task) => assert!(rt; are_read(&task)),
        Err(_) => assert!(rt; false),
    }
    let wrong = words_of(rt.alloc(), 10, "9")?;
    match task_of(rt.alloc(), &wrong) {
        Ok(_) => assert!(rt; false),
        Err(fault) => {
            assert!(rt; word_status(&fault) == 2);
            assert!(rt; matches!(fault, WordFault::Bad(Opt::Trips)));
        }
    }
    Ok(())
}

/// `window_of`, `numbers_of`.
#[test]
fn texts_of_options(rt: HostRuntime) -> Result<(), Fail> {
    assert!(rt; window_of(b"07:28", b"08:00") == Some((448, 33)));
    let numbers: Option<Vec<u32>> = numbers_of(rt.alloc(), b"25,50")?;
    match numbers {
        Some(numbers) => assert!(rt; numbers.as_slice() == [25, 50].as_slice()),
        None => assert!(rt; false),
    }
    Ok(())
}

/// `fault_line`, `status`.
#[test]
fn faults(rt: HostRuntime) -> Result<(), Fail> {
    let files = files_of(rt.alloc(), b"late")?;
    let fault = StudyFault::Name(0);
    let line: Vec<u8> = fault_line(rt.alloc(), &fault, &inputs_of(&files))?;
    assert!(rt; line.as_slice() == b"ttm: scenario name: late\n".as_slice());
    let exit: u8 = status(&fault);
    assert!(rt; exit == 2);
    Ok(())
}

/// `bad_line`, `path_line`, `path_status`.
#[test]
fn lines(rt: HostRuntime) -> Result<(), Fail> {
    let bad: &'static [u8] = bad_line(Opt::Date);
    assert!(rt; bad == b"ttm: bad date\n".as_slice());
    let line: Vec<u8> = path_line(rt.alloc(), "x", &ReadFault::Read)?;
    assert!(rt; line.as_slice() == b"ttm: x: read fault\n".as_slice());
    let exit: u8 = path_status(&ReadFault::Read);
    assert!(rt; exit == 5);
    Ok(())
}

/// `read_all`.
#[test]
fn files(rt: HostRuntime) {
    let mut three: &[u8] = b"a,b";
    let read: Result<Vec<u8>, ReadFault> = read_all(rt.alloc(), &mut three);
    match read {
        Ok(bytes) => assert!(rt; bytes.as_slice() == b"a,b".as_slice()),
        Err(_) => assert!(rt; false),
    }
}
