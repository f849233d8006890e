//! Worked examples of rows, matrices and limits of studies.

use crate::ride_networks::{A, B, C, DAY, FIRST, Ride, SECOND, networks_of};
use collector::{Matrix, Row};
use rounds::Window;
use std::alloc::{AllocError, Global};
use timetable::{Network, StopNo};
use work_book::{Lease, Settled};
use workers::{Gate, Open, Study, Verdict, limits_fit, one_thread, row_of, shares_fit};

/// The window of so many minutes from a minute of the study's day.
fn window(minute: u32, minutes: u32) -> Window {
    Window {
        first: DAY.saturating_add(minute.saturating_mul(60)),
        minutes,
    }
}

/// The study of two rides, half of the minutes of 08:00 alone, and half an hour's reach, from A.
pub(crate) fn study_of(networks: &[Network]) -> Study<'_> {
    Study {
        number: 7,
        networks,
        origins: &[StopNo(A)],
        opportunities: &[1, 1, 1],
        window: window(480, 1),
        rides: 2,
        shares: &[50],
        withins: &[1_800],
        destinations: &[StopNo(0), StopNo(1), StopNo(2)],
    }
}

/// What a share gives: access sums and cells.
type Given<'a> = (&'a [u64], [Option<u32>; 3]);

/// Whether a row of study 7 has these for its shares.
fn is(row: &Row, given: &[Given<'_>]) -> bool {
    for (found, (access, cells)) in row.shares.iter().zip(given.iter()) {
        if found.access.as_slice() != *access || found.cells.as_slice() != cells.as_slice() {
            return false;
        }
    }
    row.study == 7 && row.shares.len() == given.len()
}

/// A row of one share and one limit: scenario, origin, access and cells.
pub(crate) type Told = (u32, u32, u64, [Option<u32>; 3]);

/// Whether a matrix has these rows, each at its place.
pub(crate) fn has(matrix: &Matrix, rows: &[Told]) -> bool {
    for (scenario, origin, access, cells) in rows {
        if *scenario >= matrix.scenarios() || *origin >= matrix.origins() {
            return false;
        }
        let row = matrix.row(*scenario, *origin);
        if row.scenario != *scenario || row.origin != *origin || !is(row, &[(&[*access], *cells)]) {
            return false;
        }
    }
    true
}

/// Whether a study of one share and one limit fits, and its matrix has so many scenarios, origins and cells, and these
/// rows.
fn gives(alloc: Global, study: &Study, shape: (u32, u32, u32), rows: &[Told]) -> bool {
    if !study.fits() {
        return false;
    }
    match one_thread(alloc, study) {
        Ok(matrix) => {
            let found = (matrix.scenarios(), matrix.origins(), matrix.width());
            let sizes = (matrix.shares(), matrix.limits());
            found == shape && sizes == (1, 1) && has(&matrix, rows)
        }
        Err(_) => false,
    }
}

/// Whether a study of one scenario and one origin gives this row.
fn gives_one(alloc: Global, study: &Study, access: u64, cells: [Option<u32>; 3]) -> bool {
    gives(alloc, study, (1, 1, 3), &[(0, 0, access, cells)])
}

/// Whether this holds of the networks of these scenarios' rides.
fn are_right<F: Fn(Global, &[Network]) -> bool>(
    alloc: Global,
    scenarios: &[&[Ride]],
    holds: F,
) -> bool
    requires { F.IsAlwaysCallable holds }
{
    match networks_of(alloc, scenarios) {
        Ok(networks) => holds(alloc, networks.as_slice()),
        Err(_) => false,
    }
}

/// The feed of two trips alone.
const BASE: &[&[Ride]] = &[&[FIRST, SECOND]];

/// The share, over windows from a minute of the day.
fn give_the_nearest_rank(alloc: Global, networks: &[Network]) -> bool {
    let all = [Some(0), Some(600), Some(1_800)];
    for (minute, minutes, share, access, cells) in &[
        (478, 4, 1, 3, all),
        (478, 4, 25, 3, all),
        (478, 4, 50, 2, [Some(0), Some(660), Some(1_860)]),
        (478, 4, 75, 2, [Some(0), Some(720), Some(1_920)]),
        (478, 4, 100, 1, [Some(0), None, None]),
        (464, 17, 100, 2, [Some(0), Some(1_560), Some(2_760)]),
        (464, 17, 1, 3, all),
        (448, 33, 50, 2, [Some(0), Some(1_560), Some(2_760)]),
    ] {
        let shares = [*share];
        let study = Study {
            window: window(*minute, *minutes),
            shares: &shares,
            ..study_of(networks)
        };
        if !gives_one(alloc, &study, *access, *cells) {
            return false;
        }
    }
    true
}

/// `one_thread`.
#[test]
fn gives_the_nearest_rank_of_the_minutes(rt: HostRuntime) {
    assert!(rt; are_right(rt.alloc(), BASE, give_the_nearest_rank));
}

/// What the shares 1, 25, 50, 75 and 100 of the minutes from 07:58 to 08:01 give from A, within 700 and within 1,800
/// seconds.
const GIVEN: [Given<'static>; 5] = [
    (&[2, 3], [Some(0), Some(600), Some(1_800)]),
    (&[2, 3], [Some(0), Some(600), Some(1_800)]),
    (&[2, 2], [Some(0), Some(660), Some(1_860)]),
    (&[1, 2], [Some(0), Some(720), Some(1_920)]),
    (&[1, 1], [Some(0), None, None]),
];

/// Whether the first row of a matrix has these for its shares.
fn begins_with(matrix: &Matrix, given: &[Given<'_>]) -> bool {
    if matrix.scenarios() == 0 || matrix.origins() == 0 {
        return false;
    }
    is(matrix.row(0, 0), given)
}

/// Five shares and two limits, in one run.
fn give_each_share_and_limit(alloc: Global, networks: &[Network]) -> bool {
    let study = Study {
        window: window(478, 4),
        shares: &[1, 25, 50, 75, 100],
        withins: &[700, 1_800],
        ..study_of(networks)
    };
    if !study.fits() {
        return false;
    }
    match one_thread(alloc, &study) {
        Ok(matrix) => {
            let found = (matrix.shares(), matrix.limits(), matrix.width());
            found == (5, 2, 3) && begins_with(&matrix, &GIVEN)
        }
        Err(_) => false,
    }
}

/// `one_thread`.
#[test]
fn gives_each_share_its_cells_and_each_limit_its_sum(rt: HostRuntime) {
    assert!(rt; are_right(rt.alloc(), BASE, give_each_share_and_limit));
}

/// The access, of what is reached within a limit.
fn sum_the_opportunities(alloc: Global, networks: &[Network]) -> bool {
    for (within, access) in &[(1_800, 15), (1_799, 10), (599, 0)] {
        let limits = [*within];
        let study = Study {
            opportunities: &[0, 10, 5],
            withins: &limits,
            ..study_of(networks)
        };
        if !gives_one(alloc, &study, *access, [Some(0), Some(600), Some(1_800)]) {
            return false;
        }
    }
    true
}

/// `one_thread`.
#[test]
fn sums_the_opportunities_within_reach(rt: HostRuntime) {
    assert!(rt; are_right(rt.alloc(), BASE, sum_the_opportunities));
}

/// Whether the first row of a matrix has these access sums and cells for each of its shares.
fn begins_with_some(matrix: &Matrix, given: &[(u64, &[Option<u32>])]) -> bool {
    if matrix.scenarios() == 0 || matrix.origins() == 0 {
        return false;
    }
    let row = matrix.row(0, 0);
    for (found, (access, cells)) in row.shares.iter().zip(given.iter()) {
        if found.access.as_slice() != [*access].as_slice() || found.cells.as_slice() != *cells {
            return false;
        }
    }
    row.shares.len() == given.len()
}

/// What the shares 50 and 75 of the minutes from 07:58 to 08:01 give from A for some destinations, with their cells.
const TO: [(&[StopNo], [&[Option<u32>]; 2]); 4] = [
    (
        &[StopNo(2), StopNo(0)],
        [&[Some(1_860), Some(0)], &[Some(1_920), Some(0)]],
    ),
    (&[StopNo(1)], [&[Some(660)], &[Some(720)]]),
    (
        &[StopNo(1), StopNo(1)],
        [&[Some(660), Some(660)], &[Some(720), Some(720)]],
    ),
    (&[], [&[], &[]]),
];

/// The cells of the destinations alone, in their order, and the access of all stops.
fn give_the_destinations(alloc: Global, networks: &[Network]) -> bool {
    for (destinations, [half, more]) in TO {
        let study = Study {
            opportunities: &[1, 10, 5],
            window: window(478, 4),
            shares: &[50, 75],
            destinations,
            ..study_of(networks)
        };
        if !study.fits() {
            return false;
        }
        match one_thread(alloc, &study) {
            Ok(matrix) => {
                if matrix.width() as usize != destinations.len()
                    || !begins_with_some(&matrix, &[(11, half), (11, more)])
                {
                    return false;
                }
            }
            Err(_) => return false,
        }
    }
    true
}

/// `one_thread`.
#[test]
fn gives_the_cells_of_the_destinations_and_the_access_of_all_stops(rt: HostRuntime) {
    assert!(rt; are_right(rt.alloc(), BASE, give_the_destinations));
}

/// One ride, where C wants two.
fn count_rides(alloc: Global, networks: &[Network]) -> bool {
    let study = Study {
        rides: 1,
        ..study_of(networks)
    };
    gives_one(alloc, &study, 2, [Some(0), Some(600), None])
}

/// `one_thread`.
#[test]
fn counts_rides(rt: HostRuntime) {
    assert!(rt; are_right(rt.alloc(), BASE, count_rides));
}

/// The feed as it is, without its second trip, and with its first trip 300 seconds late.
pub(crate) const EDITED: &[&[Ride]] = &[
    &[FIRST, SECOND],
    &[FIRST],
    &[(A, 29_100, B, 29_700), SECOND],
];

/// The rows from each stop: of the feed as it is, without its second trip, and with its first trip 300 seconds late.
pub(crate) const EVERY_ROW: [Told; 9] = [
    (0, 0, 3, [Some(0), Some(600), Some(1_800)]),
    (0, 1, 2, [None, Some(0), Some(1_800)]),
    (0, 2, 1, [None, None, Some(0)]),
    (1, 0, 2, [Some(0), Some(600), None]),
    (1, 1, 1, [None, Some(0), None]),
    (1, 2, 1, [None, None, Some(0)]),
    (2, 0, 3, [Some(0), Some(900), Some(1_800)]),
    (2, 1, 2, [None, Some(0), Some(1_800)]),
    (2, 2, 1, [None, None, Some(0)]),
];

/// Every row from each stop.
fn give_every_row(alloc: Global, networks: &[Network]) -> bool {
    let study = Study {
        origins: &[StopNo(A), StopNo(B), StopNo(C)],
        ..study_of(networks)
    };
    gives(alloc, &study, (3, 3, 3), &EVERY_ROW)
}

/// `one_thread`.
/// The rows of all three scenarios, from each stop.
#[test]
fn has_a_row_per_scenario_and_origin(rt: HostRuntime) {
    assert!(rt; are_right(rt.alloc(), EDITED, give_every_row));
}

/// The row of the second scenario and the second origin, by itself.
fn give_one_row(alloc: Global, networks: &[Network]) -> bool {
    let study = Study {
        origins: &[StopNo(C), StopNo(A)],
        ..study_of(networks)
    };
    if !study.fits() || study.networks.len() != 2 || study.origins.len() != 2 {
        return false;
    }
    match row_of(alloc, &study, 1, 1) {
        Ok(row) => {
            row.scenario == 1 && row.origin == 1 && is(&row, &[(&[2], [Some(0), Some(600), None])])
        }
        Err(_) => false,
    }
}

/// `one_thread`.
#[test]
fn gives_one_row_alone(rt: HostRuntime) {
    let scenarios: [&[Ride]; 2] = [&[FIRST, SECOND], &[FIRST]];
    assert!(rt; are_right(rt.alloc(), &scenarios, give_one_row));
}

/// The row of all minutes of a day, of which 481 leave before the only trips: a third of them is 476 minutes.
fn give_the_row_of_a_day(alloc: Global, networks: &[Network]) -> bool {
    let study = Study {
        window: window(0, 1_440),
        shares: &[33],
        ..study_of(networks)
    };
    gives_one(alloc, &study, 1, [Some(0), Some(29_100), Some(30_300)])
}

/// `one_thread`.
#[test]
fn gives_the_row_of_a_days_window(rt: HostRuntime) {
    assert!(rt; are_right(rt.alloc(), BASE, give_the_row_of_a_day));
}

/// No rows without origins, and none without scenarios.
fn give_no_rows(alloc: Global, networks: &[Network]) -> bool {
    let from_nowhere = Study {
        origins: &[],
        ..study_of(networks)
    };
    gives(alloc, &from_nowhere, (1, 0, 3), &[]) && gives(alloc, &study_of(&[]), (0, 1, 3), &[])
}

/// `one_thread`.
#[test]
fn has_no_rows_without_origins_or_scenarios(rt: HostRuntime) {
    assert!(rt; are_right(rt.alloc(), BASE, give_no_rows));
}

/// Whether the study that asks for so many minutes and rides fits.
fn fits_with(networks: &[Network], minutes: u32, rides: u32) -> bool {
    let study = Study {
        window: window(0, minutes),
        rides,
        ..study_of(networks)
    };
    study.fits()
}

/// Whether the study of some networks fits with these destinations.
fn fits_to(networks: &[Network], destinations: &[StopNo]) -> bool {
    let study = Study {
        destinations,
        ..study_of(networks)
    };
    study.fits()
}

/// Rides, minutes, origins and destinations, at each limit and past it.
fn fit_up_to_each_limit(_alloc: Global, networks: &[Network]) -> bool {
    let fits = |minutes, rides| fits_with(networks, minutes, rides);
    let rides = !fits(1, 0) && fits(1, 1) && fits(1, 8) && !fits(1, 9);
    let minutes = !fits(0, 1) && fits(1_440, 1) && !fits(1_441, 1);
    let origins = fits_from(networks, &[StopNo(2)]) && !fits_from(networks, &[StopNo(3)]);
    let destinations = fits_to(networks, &[StopNo(2)]) && !fits_to(networks, &[StopNo(3)]);
    rides && minutes && origins && destinations
}

/// `one_thread`.
#[test]
fn fits_up_to_each_limit(rt: HostRuntime) {
    assert!(rt; are_right(rt.alloc(), BASE, fit_up_to_each_limit));
}

/// Shares, and whether a study fits with them.
const SHARES: [(&[u32], bool); 9] = [
    (&[], false),
    (&[0], false),
    (&[1, 100], true),
    (&[101], false),
    (&[25, 50], true),
    (&[50, 25], false),
    (&[50, 50], false),
    (&[1, 2, 3, 4, 5, 6, 7, 8], true),
    (&[1, 2, 3, 4, 5, 6, 7, 8, 9], false),
];

/// Limits, and whether a study fits with them.
const LIMITS: [(&[u32], bool); 6] = [
    (&[], false),
    (&[0, u32::MAX], true),
    (&[1_800, 700], false),
    (&[1_800, 1_800], false),
    (&[1, 2, 3, 4, 5, 6, 7, 8], true),
    (&[1, 2, 3, 4, 5, 6, 7, 8, 9], false),
];

/// Each of the shares, and each of the limits.
fn fit_with_theirs(_alloc: Global, networks: &[Network]) -> bool {
    for (shares, want) in &SHARES {
        let study = Study {
            shares,
            ..study_of(networks)
        };
        if shares_fit(shares) != *want || study.fits() != *want {
            return false;
        }
    }
    for (withins, want) in &LIMITS {
        let study = Study {
            withins,
            ..study_of(networks)
        };
        if limits_fit(withins) != *want || study.fits() != *want {
            return false;
        }
    }
    true
}

/// `one_thread`.
#[test]
fn fits_with_one_to_eight_rising_shares_and_limits(rt: HostRuntime) {
    assert!(rt; are_right(rt.alloc(), BASE, fit_with_theirs));
}

/// One opportunity too few, and one too many.
fn fit_an_opportunity_for_each_stop(_alloc: Global, networks: &[Network]) -> bool {
    let few = Study {
        opportunities: &[1, 1],
        ..study_of(networks)
    };
    let many = Study {
        opportunities: &[1, 1, 1, 1],
        ..study_of(networks)
    };
    !few.fits() && !many.fits()
}

/// `one_thread`.
#[test]
fn fits_an_opportunity_for_each_stop(rt: HostRuntime) {
    assert!(rt; are_right(rt.alloc(), BASE, fit_an_opportunity_for_each_stop));
}

/// Whether the study of some networks fits with these origins.
fn fits_from(networks: &[Network], origins: &[StopNo]) -> bool {
    let study = Study {
        origins,
        ..study_of(networks)
    };
    study.fits()
}

/// 65,535 origins, and one more.
fn fit_up_to_the_most_origins(alloc: Global, networks: &[Network]) -> bool {
    match vec![in alloc; StopNo(0); 65_536] {
        Ok(origins) => !fits_from(networks, &origins) && fits_from(networks, &origins[..65_535]),
        Err(_) => false,
    }
}

/// `one_thread`.
#[test]
fn fits_up_to_the_most_origins(rt: HostRuntime) {
    assert!(rt; are_right(rt.alloc(), BASE, fit_up_to_the_most_origins));
}

/// Sixteen of seventeen scenarios, and all.
fn fit_sixteen_scenarios(_alloc: Global, networks: &[Network]) -> bool {
    networks.len() == 17 && study_of(&networks[..16]).fits() && !study_of(networks).fits()
}

/// `one_thread`.
#[test]
fn fits_sixteen_scenarios(rt: HostRuntime) {
    let one: &[Ride] = &[FIRST];
    assert!(rt; are_right(rt.alloc(), &[one; 17], fit_sixteen_scenarios));
}

/// `Gate::after`.
#[test]
fn lets_each_lease_be_worked_at(rt: HostRuntime) {
    let lease = Lease {
        number: 5,
        job: 2,
        pass: 1,
    };
    assert_eq!(rt; Open.before(&lease), Verdict::Work);
    Open.after(&lease, Settled::Kept);
}
