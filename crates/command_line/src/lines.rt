//! The lines that tell why there is no answer, and the exit statuses of the program.

ghost use Rattle.std.specs.Prelude.{◌≡◌, ◌≤◌, ◌++◌, IfOk, codes, map};
ghost use Rattle.studies.specs.NamedFile.{NamedBytes};
ghost use Rattle.command_line.specs.Lines as spec;

use crate::files::ReadFault;
use crate::statuses::{NO_ROOM, NOT_MOVED, REFUSED, UNFINISHED};
use crate::task::Opt;
use footpaths::FootFault;
use gtfs_tables::{FeedFault, FileName, What};
use itoa::Buffer;
use matrix_text::TextFault;
use scenarios::{ScenarioFault, ScenarioWhat};
use service_days::DayFault;
use std::alloc::{AllocError, Global};
use studies::{Inputs, NamedFile, StudyFault};
use timetable::NetFault;
use workers::RunFault;

const OUT_OF_MEMORY: &[u8] = b"out of memory";

/// The line that tells why a study isn't made: `ttm: `, what is wrong and where, and LF.
///
/// Files of the feed are told by their names, the analyst's own as `origins`, `opportunities`, `destinations` and
/// `footpaths.csv`; records count from 1 with the header. A network that can't be made is always told as too large: the
/// other two faults of a network can't come from a feed that was read. A name is told as it is.
pub fn fault_line(
    alloc: Global,
    fault: &StudyFault,
    inputs: &Inputs<'_>,
) -> Result<Vec<u8>, AllocError>
    ensures { IfOk result (λ line. line.items ≡ spec.line_of fault.now (spec.names_of inputs.now)) }
{
    let rest = rest(alloc, fault, inputs.scenarios)?;
    whole(alloc, &rest)
}

/// The exit status of a study that isn't made.
pub fn status(fault: &StudyFault) -> u8
    ensures status { result ≡ spec.status_of fault.now }
    ensures no_success { 1 ≤ result }
{
    match fault {
        StudyFault::Scenarios | StudyFault::Name(_) => REFUSED,
        StudyFault::Feed(fault) => feed_status(fault.what),
        StudyFault::Scenario(_, fault) => edit_status(fault.what),
        StudyFault::Days(DayFault::Memory) => NO_ROOM,
        StudyFault::Days(_) => REFUSED,
        StudyFault::Feet(FootFault::Memory) => NO_ROOM,
        StudyFault::Feet(_) => REFUSED,
        StudyFault::Net(_, NetFault::Memory) => NO_ROOM,
        StudyFault::Net(_, _) => REFUSED,
        StudyFault::Run(RunFault::Unfinished { .. }) => UNFINISHED,
        StudyFault::Run(_) => NO_ROOM,
        StudyFault::Text(TextFault::Write) => NOT_MOVED,
        StudyFault::Text(TextFault::Memory) => NO_ROOM,
        StudyFault::Memory => NO_ROOM,
    }
}

/// The line that tells that an option's text is bad.
pub fn bad_line(option: Opt) -> &'static [u8]
    ensures { result.now ≡ spec.line (codes "bad " ++ spec.opt_text option) }
{
    match option {
        Opt::Date => b"ttm: bad date\n",
        Opt::Window => b"ttm: bad window\n",
        Opt::Trips => b"ttm: bad trips\n",
        Opt::Walk => b"ttm: bad walk\n",
        Opt::Share => b"ttm: bad share\n",
        Opt::Within => b"ttm: bad within\n",
        Opt::Workers => b"ttm: bad workers\n",
        Opt::Tries => b"ttm: bad tries\n",
        Opt::Back => b"ttm: bad back\n",
        Opt::Ahead => b"ttm: bad ahead\n",
    }
}

/// The line that tells why a file isn't read; a file that can't be opened is told as a read fault.
pub fn path_line(alloc: Global, path: &str, fault: &ReadFault) -> Result<Vec<u8>, AllocError>
    ensures { IfOk result (λ line. line.items ≡ spec.line (spec.path_rest path.now fault.now)) }
{
    let rest = match fault {
        ReadFault::Memory => Vec::from_slice(alloc, OUT_OF_MEMORY)?,
        fault => of_name(alloc, path.as_bytes(), fault.words())?,
    };
    whole(alloc, &rest)
}

/// The exit status where a file isn't read.
pub fn path_status(fault: &ReadFault) -> u8
    ensures status { result ≡ spec.read_status fault.now }
    ensures no_success { 1 ≤ result }
{
    match fault {
        ReadFault::Read => NOT_MOVED,
        ReadFault::TooLong => REFUSED,
        ReadFault::Memory => NO_ROOM,
    }
}

/// A line: the program's name, the rest, and LF.
fn whole(alloc: Global, rest: &[u8]) -> Result<Vec<u8>, AllocError>
    ensures { IfOk result (λ line. line.items ≡ spec.line rest.now) }
{
    let mut line = Vec::from_slice(alloc, b"ttm: ")?;
    line.extend_from_slice(rest)?;
    line.extend_from_slice(b"\n")?;
    Ok(line)
}

/// Two texts, one after the other.
fn two(alloc: Global, first: &[u8], last: &[u8]) -> Result<Vec<u8>, AllocError>
    ensures { IfOk result (λ text. text.items ≡ first.now ++ last.now) }
{
    let mut text = Vec::from_slice(alloc, first)?;
    text.extend_from_slice(last)?;
    Ok(text)
}

/// What is wrong with a file or a scenario of a name.
fn of_name(alloc: Global, name: &[u8], words: &str) -> Result<Vec<u8>, AllocError>
    ensures { IfOk result (λ text. text.items ≡ name.now ++ codes ": " ++ words.now) }
{
    let mut text = two(alloc, name, b": ")?;
    text.extend_from_slice(words.as_bytes())?;
    Ok(text)
}

/// Why there is no study.
fn rest(alloc: Global, fault: &StudyFault, files: &[NamedFile]) -> Result<Vec<u8>, AllocError>
    ensures { IfOk result (λ text. text.items ≡ spec.rest_of fault.now (map (λ (f : NamedBytes). f.name) files.now)) }
{
    match *fault {
        StudyFault::Scenarios => Vec::from_slice(alloc, b"too many scenarios"),
        StudyFault::Name(k) => two(alloc, b"scenario name: ", file_name(files, k)),
        StudyFault::Feed(fault) => feed_text(alloc, fault),
        StudyFault::Scenario(k, fault) => scenario_text(alloc, file_name(files, k), fault),
        StudyFault::Days(fault) => Vec::from_slice(alloc, fault.words().as_bytes()),
        StudyFault::Feet(fault) => Vec::from_slice(alloc, fault.words().as_bytes()),
        StudyFault::Net(k, fault) => net_text(alloc, scenario_name(files, k), fault),
        StudyFault::Run(fault) => run_text(alloc, fault),
        StudyFault::Text(fault) => Vec::from_slice(alloc, fault.words().as_bytes()),
        StudyFault::Memory => Vec::from_slice(alloc, OUT_OF_MEMORY),
    }
}

/// The name of a scenario file, counted from 0.
fn file_name(files: &[NamedFile], k: usize) -> &[u8]
    ensures { result.now ≡ spec.file_name (map (λ (f : NamedBytes). f.name) files.now) k }
{
    match files.get(k) {
        Some(file) => file.name.as_slice(),
        None => b"",
    }
}

/// The name of a scenario, counted from 0, which is the base network.
fn scenario_name(files: &[NamedFile], k: u32) -> &[u8]
    ensures { result.now ≡ spec.scenario_name (map (λ (f : NamedBytes). f.name) files.now) k }
{
    if k == 0 {
        b"base"
    } else {
        file_name(files, k as usize - 1)
    }
}

/// What is wrong with a record of a file.
fn at_record(alloc: Global, file: &[u8], at: u64, words: &[u8]) -> Result<Vec<u8>, AllocError>
    ensures { IfOk result (λ text. text.items ≡ spec.at_record file.now at words.now) }
{
    let mut text = Vec::from_slice(alloc, file)?;
    text.extend_from_slice(b": record ")?;
    text.extend_from_slice(Buffer::new().format(at).as_bytes())?;
    text.extend_from_slice(b": ")?;
    text.extend_from_slice(words)?;
    Ok(text)
}

/// What is wrong with a file of the feed.
fn feed_text(alloc: Global, fault: FeedFault) -> Result<Vec<u8>, AllocError>
    ensures { IfOk result (λ text. text.items ≡ spec.feed_text fault.file fault.at fault.what) }
{
    match fault.what {
        What::MissingFile => two(alloc, file_text(fault.file), b": missing file"),
        What::Memory => Vec::from_slice(alloc, OUT_OF_MEMORY),
        what => at_record(alloc, file_text(fault.file), fault.at, what_text(what)),
    }
}

/// The name of a file.
fn file_text(file: FileName) -> &'static [u8]
    ensures { result.now ≡ spec.file_text file }
{
    match file {
        FileName::Stops => b"stops.txt",
        FileName::Routes => b"routes.txt",
        FileName::Calendar => b"calendar.txt",
        FileName::CalendarDates => b"calendar_dates.txt",
        FileName::Trips => b"trips.txt",
        FileName::StopTimes => b"stop_times.txt",
        FileName::Frequencies => b"frequencies.txt",
        FileName::Transfers => b"transfers.txt",
        FileName::Footpaths => b"footpaths.csv",
        FileName::Origins => b"origins",
        FileName::Opportunities => b"opportunities",
        FileName::Destinations => b"destinations",
    }
}

/// The words of what is wrong with a record.
fn what_text(what: What) -> &'static [u8]
    ensures { result.now ≡ spec.what_text what }
{
    match what {
        What::MissingFile => b"missing file",
        What::MissingColumn => b"missing column",
        What::EmptyId => b"empty id",
        What::DuplicateId => b"duplicate id",
        What::UnknownStop => b"unknown stop",
        What::UnknownRoute => b"unknown route",
        What::UnknownTrip => b"unknown trip",
        What::BadTime => b"bad time",
        What::BadDate => b"bad date",
        What::BadNumber => b"bad number",
        What::NoTime => b"no time",
        What::TimesGoBack => b"times go back",
        What::TooMany => b"too many",
        What::Memory => OUT_OF_MEMORY,
    }
}

/// What is wrong with a scenario file.
fn scenario_text(alloc: Global, name: &[u8], fault: ScenarioFault) -> Result<Vec<u8>, AllocError>
    ensures { IfOk result (λ text. text.items ≡ spec.scenario_text name.now fault.at fault.what) }
{
    match fault.what {
        ScenarioWhat::Memory => Vec::from_slice(alloc, OUT_OF_MEMORY),
        what => {
            let file = two(alloc, b"scenario ", name)?;
            at_record(alloc, &file, fault.at, edit_text(what))
        }
    }
}

/// The words of what is wrong with a record of a scenario file.
fn edit_text(what: ScenarioWhat) -> &'static [u8]
    ensures { result.now ≡ spec.edit_text what }
{
    match what {
        ScenarioWhat::UnknownAction => b"unknown action",
        ScenarioWhat::UnknownRoute => b"unknown route",
        ScenarioWhat::UnknownTrip => b"unknown trip",
        ScenarioWhat::BadNumber => b"bad number",
        ScenarioWhat::ShiftOutOfRange => b"shift out of range",
        ScenarioWhat::MissingColumn => b"missing column",
        ScenarioWhat::Memory => OUT_OF_MEMORY,
        ScenarioWhat::TooMany => b"too many",
    }
}

/// Why a scenario has no network.
fn net_text(alloc: Global, name: &[u8], fault: NetFault) -> Result<Vec<u8>, AllocError>
    ensures { IfOk result (λ text. text.items ≡ spec.net_text name.now fault) }
{
    match fault {
        NetFault::Memory => Vec::from_slice(alloc, OUT_OF_MEMORY),
        _ => {
            let scenario = two(alloc, b"scenario ", name)?;
            of_name(alloc, &scenario, NetFault::TooLarge.words())
        }
    }
}

/// Why the rows aren't all computed.
fn run_text(alloc: Global, fault: RunFault) -> Result<Vec<u8>, AllocError>
    ensures { IfOk result (λ text. text.items ≡ spec.run_text fault) }
{
    let mut text = Vec::from_slice(alloc, fault.words().as_bytes())?;
    if let RunFault::Unfinished { scenario, origin } = fault {
        text.extend_from_slice(b": scenario ")?;
        text.extend_from_slice(Buffer::new().format(scenario).as_bytes())?;
        text.extend_from_slice(b", origin ")?;
        text.extend_from_slice(Buffer::new().format(origin).as_bytes())?;
    }
    Ok(text)
}

/// The status where a file of the feed is refused.
fn feed_status(what: What) -> u8
    ensures status { result ≡ spec.feed_status what }
    ensures no_success { 1 ≤ result }
{
    match what {
        What::Memory => NO_ROOM,
        _ => REFUSED,
    }
}

/// The status where a scenario file is refused.
fn edit_status(what: ScenarioWhat) -> u8
    ensures status { result ≡ spec.edit_status what }
    ensures no_success { 1 ≤ result }
{
    match what {
        ScenarioWhat::Memory => NO_ROOM,
        _ => REFUSED,
    }
}
