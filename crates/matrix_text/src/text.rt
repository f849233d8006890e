//! The text of a matrix, line after line.
ghost use Rattle.std.specs.Prelude.{◌≡◌, ◌<◌, ◌++◌, All, length, map, decimal, OnOk, OnErr};
ghost use Rattle.std.specs.Io.KnownBytes.{Appends};
ghost use Rattle.matrix_text.specs.Text.{labels_of, text_at, LabelsFit, limit_field, header_fields, share_fields};
ghost use Rattle.matrix_text.specs.Text.{cell_field, line_text, row_lines, lines_at, scenario_text, rows_text};
ghost use Rattle.matrix_text.specs.Text.{matrix_text};
ghost use Rattle.matrix_text.specs.Prefixes.{PutsPrefix};

use crate::faults::TextFault;
use crate::labels::Labels;
use crate::lines::Line;
use collector::{Cells, Matrix};
use gtfs_tables::Feed;
use std::alloc::Global;
use std::io::Write;
use timetable::StopNo;

/// Writes the text of a matrix, where the labels fit it.
///
/// The header has the fields `scenario`, `origin`, `share`, one for each limit, as `access_1800`, and the destinations'
/// identifiers in order. Records follow for each row, scenarios in order, and each scenario's origins in order; a row
/// has one for each share, in order: the scenario's name, the identifier of the origin's stop, the share, an access for
/// each limit, and the cells in seconds, an absent one as an empty field. Fields are quoted where commas, quotes or
/// line ends in them ask for it (RFC 4180), and each line ends with LF.
///
/// `Write` comes where the writer fails or takes nothing, `Memory` where a line ran out of memory; then a prefix of the
/// text is out.
#[tactic(auto, using(crate::proofs::Prefixes::cut_before, crate::proofs::Prefixes::cut_after))]
pub fn write_matrix<W: Write>(
    alloc: Global,
    matrix: &Matrix,
    labels: &Labels<'_>,
    w: &mut W,
) -> Result<(), TextFault>
    requires { LabelsFit (labels_of labels.now) matrix.now }
    ensures ok { OnOk result
        (Appends (W.contents w.old) (W.contents w.new) (matrix_text (labels_of labels.now) matrix.now)) }
    ensures err { OnErr result
        (PutsPrefix (W.contents w.old) (W.contents w.new) (matrix_text (labels_of labels.now) matrix.now)) }
{
    let mut line = Line::new(alloc);
    write_header(
        &mut line,
        labels.limits,
        labels.destinations,
        labels.feed,
        w,
    )?;
    write_rows(&mut line, matrix, labels, w)
}

/// Writes the header.
fn write_header<W: Write>(
    line: &mut Line,
    limits: &[u32],
    destinations: &[StopNo],
    feed: &Feed,
    w: &mut W,
) -> Result<(), TextFault>
    requires { All (λ stop. stop.0 < length feed.now.stops) destinations.now }
    ensures ok { OnOk result
        (Appends (W.contents w.old) (W.contents w.new)
        (line_text (header_fields limits.now destinations.now feed.now.stops))) }
    ensures err { OnErr result
        (PutsPrefix (W.contents w.old) (W.contents w.new)
        (line_text (header_fields limits.now destinations.now feed.now.stops))) }
{
    fill_header(line, limits, destinations, feed)?;
    line.put(w)
}

/// Makes the line the header.
fn fill_header(
    line: &mut Line,
    limits: &[u32],
    destinations: &[StopNo],
    feed: &Feed,
) -> Result<(), TextFault>
    requires { All (λ stop. stop.0 < length feed.now.stops) destinations.now }
    ensures { OnOk result (line.new ≡ header_fields limits.now destinations.now feed.now.stops) }
{
    line.clear();
    line.push(b"scenario")?;
    line.push(b"origin")?;
    line.push(b"share")?;
    push_limits(line, limits)?;
    push_stops(line, destinations, feed)
}

/// Puts the names of the limits' columns last.
fn push_limits(line: &mut Line, limits: &[u32]) -> Result<(), TextFault>
    ensures { OnOk result (line.new ≡ line.old ++ map limit_field limits.now) }
{
    for limit in limits {
        line.push_limit(*limit)?;
    }
    Ok(())
}

/// Puts the destinations' identifiers last.
fn push_stops(line: &mut Line, destinations: &[StopNo], feed: &Feed) -> Result<(), TextFault>
    requires { All (λ stop. stop.0 < length feed.now.stops) destinations.now }
    ensures { OnOk result (line.new ≡ line.old ++ map (λ stop. text_at feed.now.stops stop.0) destinations.now) }
{
    for stop in destinations {
        line.push(feed.stop_id(*stop))?;
    }
    Ok(())
}

/// Writes all rows.
#[tactic(auto, using(crate::proofs::Prefixes::cut_below))]
fn write_rows<W: Write>(
    line: &mut Line,
    matrix: &Matrix,
    labels: &Labels<'_>,
    w: &mut W,
) -> Result<(), TextFault>
    requires { LabelsFit (labels_of labels.now) matrix.now }
    ensures ok { OnOk result
        (Appends (W.contents w.old) (W.contents w.new) (rows_text (labels_of labels.now) matrix.now)) }
    ensures err { OnErr result
        (PutsPrefix (W.contents w.old) (W.contents w.new) (rows_text (labels_of labels.now) matrix.now)) }
{
    for scenario in 0..matrix.scenarios() {
        write_scenario(line, matrix, labels, scenario, w)?;
    }
    Ok(())
}

/// Writes the rows of a scenario.
#[tactic(auto, using(crate::proofs::Prefixes::cut_below))]
fn write_scenario<W: Write>(
    line: &mut Line,
    matrix: &Matrix,
    labels: &Labels<'_>,
    scenario: u32,
    w: &mut W,
) -> Result<(), TextFault>
    requires fit { LabelsFit (labels_of labels.now) matrix.now }
    requires scenario { scenario < matrix.now.scenarios }
    ensures ok { OnOk result
        (Appends (W.contents w.old) (W.contents w.new) (scenario_text (labels_of labels.now) matrix.now scenario)) }
    ensures err { OnErr result
        (PutsPrefix (W.contents w.old) (W.contents w.new) (scenario_text (labels_of labels.now) matrix.now scenario)) }
{
    for origin in 0..matrix.origins() {
        write_row(line, matrix, labels, scenario, origin, w)?;
    }
    Ok(())
}

/// Writes the lines of a scenario and an origin.
fn write_row<W: Write>(
    line: &mut Line,
    matrix: &Matrix,
    labels: &Labels<'_>,
    scenario: u32,
    origin: u32,
    w: &mut W,
) -> Result<(), TextFault>
    requires fit { LabelsFit (labels_of labels.now) matrix.now }
    requires scenario { scenario < matrix.now.scenarios }
    requires origin { origin < matrix.now.origins }
    ensures ok { OnOk result
        (Appends (W.contents w.old) (W.contents w.new) (lines_at (labels_of labels.now) matrix.now scenario origin)) }
    ensures err { OnErr result
        (PutsPrefix (W.contents w.old) (W.contents w.new)
        (lines_at (labels_of labels.now) matrix.now scenario origin)) }
{
    let name = &labels.scenarios[scenario as usize];
    let stop = labels.feed.stop_id(labels.origins[origin as usize]);
    let row = matrix.row(scenario, origin);
    write_shares(line, name, stop, labels.shares, &row.shares, w)
}

/// Writes a line for each share, and what it gives.
fn write_shares<W: Write>(
    line: &mut Line,
    name: &[u8],
    stop: &[u8],
    shares: &[u32],
    rows: &[Cells],
    w: &mut W,
) -> Result<(), TextFault>
    ensures ok { OnOk result
        (Appends (W.contents w.old) (W.contents w.new) (row_lines name.now stop.now shares.now rows.now)) }
    ensures err { OnErr result
        (PutsPrefix (W.contents w.old) (W.contents w.new) (row_lines name.now stop.now shares.now rows.now)) }
{
    for (share, given) in shares.iter().zip(rows) {
        write_share(line, name, stop, *share, given, w)?;
    }
    Ok(())
}

/// Writes the line of a share.
fn write_share<W: Write>(
    line: &mut Line,
    name: &[u8],
    stop: &[u8],
    share: u32,
    given: &Cells,
    w: &mut W,
) -> Result<(), TextFault>
    ensures ok { OnOk result
        (Appends (W.contents w.old) (W.contents w.new) (line_text (share_fields name.now stop.now share given.now))) }
    ensures err { OnErr result
        (PutsPrefix (W.contents w.old) (W.contents w.new)
        (line_text (share_fields name.now stop.now share given.now))) }
{
    fill_share(line, name, stop, share, given)?;
    line.put(w)
}

/// Makes the line that of a share.
fn fill_share(
    line: &mut Line,
    name: &[u8],
    stop: &[u8],
    share: u32,
    given: &Cells,
) -> Result<(), TextFault>
    ensures { OnOk result (line.new ≡ share_fields name.now stop.now share given.now) }
{
    line.clear();
    line.push(name)?;
    line.push(stop)?;
    line.push_number(share)?;
    push_access(line, &given.access)?;
    push_cells(line, &given.cells)
}

/// Puts the access sums last.
fn push_access(line: &mut Line, access: &[u64]) -> Result<(), TextFault>
    ensures { OnOk result (line.new ≡ line.old ++ map decimal access.now) }
{
    for sum in access {
        line.push_number(*sum)?;
    }
    Ok(())
}

/// Puts the cells last.
fn push_cells(line: &mut Line, cells: &[Option<u32>]) -> Result<(), TextFault>
    ensures { OnOk result (line.new ≡ line.old ++ map cell_field cells.now) }
{
    for cell in cells {
        line.push_cell(*cell)?;
    }
    Ok(())
}
