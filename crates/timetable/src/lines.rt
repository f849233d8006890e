//! Lines: trips with the same stops in the same order, where one may board and alight alike, and none overtakes
//! another. (The RAPTOR paper has them as routes: Delling, Pajor, Werneck, ALENEX 2012.)
ghost use Rattle.std.specs.Prelude.{◌≡◌, ◌<◌, ◌≤◌, ◌+◌, ◌↔◌, ℕ, IsTrue, IfOk, OnOk, IfSome, All, [], map, length};
ghost use Rattle.std.specs.Prelude.{slice_get, slice_index_or, Some, if◌then◌else◌};
ghost use Rattle.std.specs.Bool.{OnTrue};
ghost use Rattle.std.specs.List.{Contains};
ghost use Rattle.timetable.specs.FlatLists.{lists_of, Adds};
ghost use Rattle.timetable.specs.Networks.{NetWithin};
ghost use Rattle.timetable.specs.Lines.{IsNoEarlier, Follows, Joins, IsLine, IsInLine, AreLines, BoardsBefore};
ghost use Rattle.timetable.specs.Lines.{AreBoarded, AreLinesOf};
ghost use Rattle.timetable.specs.Patterns.{mixed_all, pattern, place_of};
ghost use Rattle.timetable.specs.Patterns as patterns;

use crate::flat_lists::{FlatLists, add, no_lists};
use crate::limits::{MOST_EVENTS, MOST_TRIPS};
use crate::trips::{Event, StopNo, Trip};
use crate::views::{Call, CallTimes, views_of};
use std::alloc::{AllocError, Global};
use std::marker::Model;

/// How many of the last lines a trip may join.
const OPEN_LINES: usize = 8;

/// The lines of a network's trips, for each stop where they can be boarded, and the events of each line, laid out for a
/// scan.
#[derive(Drop)]
pub struct Lines {
    lines: FlatLists<u32>,
    boarded: FlatLists<(u32, u32)>,
    calls: FlatLists<Call>,
    times: FlatLists<CallTimes>,
}

impl Model for Lines {
    ghost use Rattle.timetable.specs.Lines.{LineTable};

    ghost Value = { LineTable };

    ghost view = { λ l. record { lines = l.lines; boarded = l.boarded; calls = l.calls; times = l.times } };
}

impl Lines {
    /// Puts the trips into lines.
    pub fn new(alloc: Global, stops: u32, trips: &[Trip]) -> Result<Self, AllocError>
        requires stops { All (λ t. All (λ e. e.stop.0 < stops) t.events) trips.now }
        requires within { NetWithin trips.now }
        ensures { IfOk result (AreLinesOf stops trips.now) }
    {
        let order = order_of(alloc, trips)?;
        let grouped = grouped(alloc, trips, &order)?;
        let lines = FlatLists::new(alloc, &grouped)?;
        let positions = boarded_of(alloc, stops, trips, &lines)?;
        let boarded = FlatLists::new(alloc, &positions)?;
        let views = views_of(alloc, trips, &lines)?;
        let calls = FlatLists::new(alloc, &views.0)?;
        let times = FlatLists::new(alloc, &views.1)?;
        Ok(Lines {
            lines,
            boarded,
            calls,
            times,
        })
    }

    /// How many lines there are.
    pub fn count(&self) -> usize
        ensures { result ≡ length self.now.lines }
    {
        self.lines.count()
    }

    /// The trips of a line, by their numbers, from the first to run to the last.
    pub fn trips_of(&self, line: u32) -> &[u32]
        requires { line < length self.now.lines }
        ensures { slice_get self.now.lines line ≡ Some result.now }
    {
        self.lines.list(line as usize)
    }

    /// The lines that can be boarded at a stop, each with the position of the stop in it.
    pub fn boarded_at(&self, stop: StopNo) -> &[(u32, u32)]
        requires { stop.0 < length self.now.boarded }
        ensures { slice_get self.now.boarded stop.0 ≡ Some result.now }
    {
        self.boarded.list(stop.0 as usize)
    }

    /// The positions of a line, in order: which stop each is, and whether travellers may board and alight there.
    pub fn calls_of(&self, line: u32) -> &[Call]
        requires { line < length self.now.calls }
        ensures { slice_get self.now.calls line ≡ Some result.now }
    {
        self.calls.list(line as usize)
    }

    /// The times of a line, trip by trip, and of each trip position by position: those of the trip of `rank` at
    /// `position` are at `rank * positions + position`, where `positions` counts the line's positions.
    pub fn times_of(&self, line: u32) -> &[CallTimes]
        requires { line < length self.now.times }
        ensures { slice_get self.now.times line ≡ Some result.now }
    {
        self.times.list(line as usize)
    }
}

/// The trips by their events, and those of the same events by their first departure: the number that stands for the
/// events, the departure and the number of the trip.
fn order_of(alloc: Global, trips: &[Trip]) -> Result<Vec<(u64, u32, u32)>, AllocError>
    requires { length trips.now ≤ MOST_TRIPS }
    ensures size { IfOk result (λ order. length order.items ≡ length trips.now) }
    ensures in_range { IfOk result (λ order. All (λ turn. turn.2 < length trips.now) order.items) }
    ensures all { IfOk result (λ order. (trip : ℕ) → trip < length trips.now →
        Contains (map (λ turn. turn.2) order.items) trip) }
{
    let mut order = Vec::with_capacity(alloc, trips.len())?;
    for trip in 0..trips.len() {
        let events = trips[trip].events.as_slice();
        order.push((pattern_of(events), first_departure(events), trip as u32))?;
    }
    order.sort_unstable();
    Ok(order)
}

/// A number for the stops of the events, and where one may board and alight: trips of one line have the same. The first
/// stop has the highest bits, so that lines which begin near each other lie near each other and are scanned in turn.
fn pattern_of(events: &[Event]) -> u64
    ensures { result ≡ pattern (map place_of events.now) }
{
    (u64::from(first_stop(events)) << 48) | (mixed_stops(events) >> 16)
}

fn first_stop(events: &[Event]) -> u32
    ensures { result ≡ patterns.first_stop (map place_of events.now) }
{
    match events.first() {
        Some(event) => event.stop.0,
        None => 0,
    }
}

/// All stops in one number, and where one may board and alight.
fn mixed_stops(events: &[Event]) -> u64
    ensures { result ≡ mixed_all (length events.now) (map place_of events.now) }
{
    let mut mixed: u64 = events.len() as u64;
    for event in events {
        mixed = mixed_with(mixed, event);
    }
    mixed
}

/// Mixes the stop of an event, and its boarding and alighting flags, into a number.
fn mixed_with(mixed: u64, event: &Event) -> u64
    ensures { result ≡ patterns.mixed_with mixed (place_of event.now) }
{
    let stop = u64::from(event.stop.0).wrapping_mul(4);
    let board = flag(event.board, 2);
    let alight = flag(event.alight, 1);
    (mixed ^ stop ^ board ^ alight)
        .wrapping_mul(0x9E37_79B9_7F4A_7C15)
        .rotate_left(29)
}

/// `bit` if `is_so`, else 0.
fn flag(is_so: bool, bit: u64) -> u64
    ensures { result ≡ (if is_so then bit else 0) }
{
    if is_so { bit } else { 0 }
}

fn first_departure(events: &[Event]) -> u32 {
    match events.first() {
        Some(event) => event.depart,
        None => 0,
    }
}

/// Puts each trip, in this order, into a line.
fn grouped(
    alloc: Global,
    trips: &[Trip],
    order: &[(u64, u32, u32)],
) -> Result<Vec<Vec<u32>>, AllocError>
    requires few { length order.now ≤ length trips.now }
    requires in_range { All (λ turn. turn.2 < length trips.now) order.now }
    requires all { (trip : ℕ) → trip < length trips.now → Contains (map (λ turn. turn.2) order.now) trip }
    ensures { IfOk result (λ lines. AreLines trips.now (lists_of lines.items)) }
{
    let mut lines = Vec::new(alloc);
    for turn in order {
        add_trip(alloc, trips, &mut lines, turn.2)?;
    }
    Ok(lines)
}

/// Puts a trip behind the last one of a line, or into a new line.
fn add_trip(
    alloc: Global,
    trips: &[Trip],
    lines: &mut Vec<Vec<u32>>,
    trip: u32,
) -> Result<(), AllocError>
    requires lines { All (IsLine trips.now) (lists_of lines.old.items) }
    requires trip { trip < length trips.now }
    ensures few { OnOk result (length lines.new.items ≤ length lines.old.items + 1) }
    ensures short { OnOk result ((most : ℕ) → All (λ line. length line ≤ most) (lists_of lines.old.items) →
        All (λ line. length line ≤ most + 1) (lists_of lines.new.items)) }
    ensures lines { OnOk result (All (IsLine trips.now) (lists_of lines.new.items)) }
    ensures kept { OnOk result ((i : ℕ) → IsInLine (lists_of lines.old.items) i →
        IsInLine (lists_of lines.new.items) i) }
    ensures added { OnOk result (IsInLine (lists_of lines.new.items) trip) }
{
    match open_line(trips, lines, trip) {
        Some(line) => {
            add(lines, line, trip)?;
            Ok(())
        }
        None => {
            let line = vec![in alloc; trip]?;
            lines.push(line)?;
            Ok(())
        }
    }
}

/// Of the last lines, one that the trip may join.
fn open_line(trips: &[Trip], lines: &[Vec<u32>], trip: u32) -> Option<usize>
    requires lines { All (IsLine trips.now) (lists_of lines.now) }
    requires trip { trip < length trips.now }
    ensures within { IfSome result (λ line. line < length lines.now) }
    ensures joins { IfSome result (λ line. (t : Trip) → slice_get trips.now trip ≡ Some t →
        Joins trips.now (slice_index_or (lists_of lines.now) line []) t.events) }
{
    let events = trips[trip as usize].events.as_slice();
    for line in lines.len().saturating_sub(OPEN_LINES)..lines.len() {
        if joins(trips, lines[line].as_slice(), events) {
            return Some(line);
        }
    }
    None
}

/// Whether the trip with these events may run behind the last one of the line.
fn joins(trips: &[Trip], line: &[u32], events: &[Event]) -> bool
    requires { IsLine trips.now line.now }
    ensures { OnTrue result (Joins trips.now line.now events.now) }
{
    let last = line[line.len() - 1];
    follows(trips[last as usize].events.as_slice(), events)
}

/// Whether a trip makes the same events as one before it, none of them earlier.
fn follows(before: &[Event], after: &[Event]) -> bool
    ensures { IsTrue result ↔ Follows before.now after.now }
{
    if before.len() != after.len() {
        return false;
    }
    for k in 0..before.len() {
        if !is_no_earlier(&before[k], &after[k]) {
            return false;
        }
    }
    true
}

/// Whether an event is at the same stop as one before it and no earlier, and one may board and alight alike.
fn is_no_earlier(before: &Event, after: &Event) -> bool
    ensures { IsTrue result ↔ IsNoEarlier before.now after.now }
{
    before.stop.0 == after.stop.0
        && before.board == after.board
        && before.alight == after.alight
        && before.arrive <= after.arrive
        && before.depart <= after.depart
}

/// For each stop, the lines that can be boarded there, each with the position.
fn boarded_of(
    alloc: Global,
    stops: u32,
    trips: &[Trip],
    lines: &FlatLists<u32>,
) -> Result<Vec<Vec<(u32, u32)>>, AllocError>
    requires stops { All (λ t. All (λ e. e.stop.0 < stops) t.events) trips.now }
    requires trips { length trips.now ≤ MOST_TRIPS }
    requires events { All (λ t. length t.events ≤ MOST_EVENTS) trips.now }
    requires lines { AreLines trips.now lines.now }
    ensures { IfOk result (λ boarded. AreBoarded stops trips.now lines.now (lists_of boarded.items)) }
{
    let mut boarded = no_lists(alloc, stops as usize)?;
    for line in 0..lines.count() {
        let first = lines.list(line)[0];
        add_positions(
            &mut boarded,
            line as u32,
            trips[first as usize].events.as_slice(),
        )?;
    }
    Ok(boarded)
}

/// Adds the positions of a line where one may board.
fn add_positions(
    boarded: &mut Vec<Vec<(u32, u32)>>,
    line: u32,
    events: &[Event],
) -> Result<(), AllocError>
    requires stops { All (λ e. e.stop.0 < length boarded.old.items) events.now }
    requires few { length events.now ≤ MOST_EVENTS }
    ensures { OnOk result (Adds (BoardsBefore (length events.now) line events.now) (lists_of boarded.old.items)
        (lists_of boarded.new.items)) }
{
    for k in 0..events.len() {
        let event = events[k];
        if event.board {
            add(boarded, event.stop.0 as usize, (line, k as u32))?;
        }
    }
    Ok(())
}
