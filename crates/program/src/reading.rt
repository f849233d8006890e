//! The files that a study names, each read whole: which of them have to be there, and which is the first that isn't
//! read.

ghost use Rattle.std.specs.Prelude.{◌≡◌, ◌∷◌, All, IfErr, IfOk, OnOk, Ok, Some, [], map, option_map, string_bytes};
ghost use Rattle.command_line.specs.Paths as paths;
ghost use Rattle.gtfs_tables.specs.Files as limit;
ghost use Rattle.studies.specs.FeedFiles.{files_read};
ghost use Rattle.studies.specs.Inputs.{AreWithinLimit};
ghost use Rattle.program.specs.Files as spec;

use crate::disk::Disk;
use crate::study_files::StudyFiles;
use crate::unread::Unread;
use command_line::{ReadFault, Task, path_in, scenario_of};
use std::alloc::Global;
use studies::{FeedFiles, NamedFile};

/// Reads the files of a study, in the order in which they are looked at: the feed's, the analyst's own, the scenarios'.
pub(crate) fn read_files<'a, D: Disk>(
    alloc: Global,
    disk: &D,
    task: &'a Task,
    files: &mut StudyFiles,
) -> Result<(), Unread<'a>>
    requires { files.old.scenarios.items ≡ [] }
    ensures files { OnOk result (spec.AreNamed (D.finds disk.now) task.now (spec.files_of files.new)) }
    ensures limit { OnOk result (AreWithinLimit (spec.files_of files.new)) }
    ensures unread { IfErr result (λ unread. spec.IsWhyUnread (D.finds disk.now) (spec.asks_of task.now) unread) }
{
    read_feed_files(alloc, disk, task.feed.as_str(), &mut files.feed)?;
    files.footpaths = own_file(alloc, disk, &task.footpaths)?;
    files.origins = own_file(alloc, disk, &task.origins)?;
    files.opportunities = own_file(alloc, disk, &task.opportunities)?;
    files.destinations = own_file(alloc, disk, &task.destinations)?;
    scenario_files(alloc, disk, task.scenarios.as_slice(), &mut files.scenarios)
}

/// Reads the files of a feed. One that isn't found is absent.
pub(crate) fn read_feed_files<'a, D: Disk>(
    alloc: Global,
    disk: &D,
    folder: &'a str,
    files: &mut FeedFiles,
) -> Result<(), Unread<'a>>
    ensures files { OnOk result (spec.IsFeedIn (D.finds disk.now) folder.now (files_read files.new)) }
    ensures limit { OnOk result (limit.AreWithinLimit (files_read files.new)) }
    ensures unread { IfErr result (λ unread. spec.IsWhyUnread (D.finds disk.now) (spec.feed_asks folder.now) unread) }
{
    files.stops = feed_file(alloc, disk, folder, "stops.txt")?;
    files.routes = feed_file(alloc, disk, folder, "routes.txt")?;
    files.calendar = feed_file(alloc, disk, folder, "calendar.txt")?;
    files.calendar_dates = feed_file(alloc, disk, folder, "calendar_dates.txt")?;
    files.trips = feed_file(alloc, disk, folder, "trips.txt")?;
    files.stop_times = feed_file(alloc, disk, folder, "stop_times.txt")?;
    files.frequencies = feed_file(alloc, disk, folder, "frequencies.txt")?;
    files.transfers = feed_file(alloc, disk, folder, "transfers.txt")?;
    Ok(())
}

/// A file of a feed, if it is found.
fn feed_file<'a, D: Disk>(
    alloc: Global,
    disk: &D,
    folder: &'a str,
    name: &str,
) -> Result<Option<Vec<u8>>, Unread<'a>>
    ensures file { IfOk result (λ file. D.finds disk.now (paths.path_in folder.now name.now)
        (Ok (option_map (λ bytes. bytes.items) file))) }
    ensures limit { IfOk result (λ file. limit.IsWithinLimit (option_map (λ bytes. bytes.items) file)) }
    ensures unread { IfErr result (λ unread. spec.IsWhyUnread (D.finds disk.now)
        (spec.Optional (paths.path_in folder.now name.now) ∷ []) unread) }
{
    match path_in(alloc, folder, name) {
        Ok(path) => match disk.find(alloc, path.as_str()) {
            Ok(file) => Ok(file),
            Err(fault) => Err(Unread::Feed(path, fault)),
        },
        Err(_) => Err(Unread::Memory),
    }
}

/// A file that an option names. It has to be there; without the option there is none.
pub(crate) fn own_file<'a, D: Disk>(
    alloc: Global,
    disk: &D,
    path: &'a Option<String>,
) -> Result<Option<Vec<u8>>, Unread<'a>>
    ensures file { IfOk result (λ file. spec.IsOwn (D.finds disk.now) (option_map string_bytes path.now)
        (option_map (λ bytes. bytes.items) file)) }
    ensures limit { IfOk result (λ file. limit.IsWithinLimit (option_map (λ bytes. bytes.items) file)) }
    ensures unread { IfErr result (λ unread. spec.NamesUnread (D.finds disk.now)
        (spec.own_asks (option_map string_bytes path.now)) unread) }
{
    match path {
        Some(path) => Ok(Some(there(alloc, disk, path.as_str())?)),
        None => Ok(None),
    }
}

/// Reads the scenario files, which have to be there, with the names of their scenarios.
pub(crate) fn scenario_files<'a, D: Disk>(
    alloc: Global,
    disk: &D,
    paths: &'a [String],
    files: &mut Vec<NamedFile>,
) -> Result<(), Unread<'a>>
    requires { files.old.items ≡ [] }
    ensures files { OnOk result (spec.AreScenarios (D.finds disk.now) (map string_bytes paths.now) files.new.items) }
    ensures limit { OnOk result (All (λ f. limit.IsWithinLimit (Some f.bytes)) files.new.items) }
    ensures unread { IfErr result (λ unread. spec.IsWhyUnread (D.finds disk.now)
        (spec.scenario_asks (map string_bytes paths.now)) unread) }
{
    for path in paths {
        let file = scenario_file(alloc, disk, path.as_str())?;
        if files.push(file).is_err() {
            return Err(Unread::Memory);
        }
    }
    Ok(())
}

/// A scenario file, with the name of its scenario.
fn scenario_file<'a, D: Disk>(
    alloc: Global,
    disk: &D,
    path: &'a str,
) -> Result<NamedFile, Unread<'a>>
    ensures file { IfOk result (λ file. (file.name ≡ paths.scenario_of path.now)
        × D.finds disk.now path.now (Ok (Some file.bytes))) }
    ensures limit { IfOk result (λ file. limit.IsWithinLimit (Some file.bytes)) }
    ensures unread { IfErr result (λ unread. spec.IsWhyUnread (D.finds disk.now) (spec.Needed path.now ∷ []) unread) }
{
    let bytes = there(alloc, disk, path)?;
    match Vec::from_slice(alloc, scenario_of(path.as_bytes())) {
        Ok(name) => Ok(NamedFile { name, bytes }),
        Err(_) => Err(Unread::Memory),
    }
}

/// A file that has to be there.
fn there<'a, D: Disk>(alloc: Global, disk: &D, path: &'a str) -> Result<Vec<u8>, Unread<'a>>
    ensures file { IfOk result (λ bytes. D.finds disk.now path.now (Ok (Some bytes.items))) }
    ensures limit { IfOk result (λ bytes. limit.IsWithinLimit (Some bytes.items)) }
    ensures unread { IfErr result (λ unread. spec.NamesUnread (D.finds disk.now) (spec.Needed path.now ∷ []) unread) }
{
    match disk.find(alloc, path) {
        Ok(Some(bytes)) => Ok(bytes),
        Ok(None) => Err(Unread::Own(path, ReadFault::Read)),
        Err(fault) => Err(Unread::Own(path, fault)),
    }
}
