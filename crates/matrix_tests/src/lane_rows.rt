//! Worked examples of narrow labels in rows of sixteen and of forty-eight: at the ends of each row and, in the long one,
//! on both sides of where its parts meet.

use trip_lanes::{Fall, FortyEight, LaneLabels, NarrowLabels, Sixteen, lower_row};

/// The greatest label.
const FAR: u16 = 65_535;

/// Lanes at the ends of the short row, and within.
const LANES_OF_SIXTEEN: [usize; 3] = [0, 7, 15];

/// Lanes at the ends of the long row, and where its parts meet.
const LANES_OF_FORTY_EIGHT: [usize; 4] = [0, 31, 32, 47];

/// A short row with these labels in these lanes, and another label in the others.
fn sixteen(labels: &[(usize, u16)], others: u16) -> Sixteen {
    let mut row = [others; 16];
    for (lane, label) in labels {
        if *lane < 16 {
            row[*lane] = *label;
        }
    }
    row
}

/// The same of a long row.
fn forty_eight(labels: &[(usize, u16)], others: u16) -> FortyEight {
    let mut row = [others; 48];
    for (lane, label) in labels {
        if *lane < 48 {
            row[*lane] = *label;
        }
    }
    row
}

/// The number at a place, if there is one.
fn number_at(found: &[u16], place: usize) -> Option<u16> {
    if place < found.len() {
        Some(found[place])
    } else {
        None
    }
}

// From 100 on lane 31 departs at 1,960, lane 32 at 2,020, lane 39 at 2,440 and lane 47 at 2,920. A row is put from place
// 1 on, between sevens.
/// `minutely`, `put`.
#[test]
fn long_rows_are_put_with_their_departures(rt: HostRuntime) {
    let cases = [
        (0, 1, FAR),
        (1, 1, 100),
        (1, 2, FAR),
        (32, 32, 1_960),
        (32, 33, FAR),
        (33, 33, 2_020),
        (33, 34, FAR),
        (40, 40, 2_440),
        (40, 41, FAR),
        (48, 48, 2_920),
        (90, 48, 2_920),
        (90, 49, 7),
        (90, 0, 7),
    ];
    for (minutes, place, label) in cases {
        let mut found = [7; 50];
        FortyEight::minutely(100, minutes).put(&mut found, 1);
        assert!(rt; number_at(&found, place) == Some(label));
    }
}

// Lane 15 departs at 1,000.
/// `minutely`, `put`.
#[test]
fn short_rows_are_put_with_their_departures(rt: HostRuntime) {
    let cases = [
        (0, 1, FAR),
        (15, 16, FAR),
        (16, 16, 1_000),
        (90, 16, 1_000),
        (90, 17, 7),
        (90, 0, 7),
    ];
    for (minutes, place, label) in cases {
        let mut found = [7; 18];
        Sixteen::minutely(100, minutes).put(&mut found, 1);
        assert!(rt; number_at(&found, place) == Some(label));
    }
}

/// `lower_row`, `fall`.
#[test]
fn a_fall_in_any_lane_of_a_long_row_marks_the_stop(rt: HostRuntime) {
    for lane in LANES_OF_FORTY_EIGHT {
        let before = forty_eight(&[], 100);
        let mut labels = [before];
        let mut marked = [false];
        lower_row(&mut labels, &mut marked, 0, before);
        assert!(rt; !marked[0]);
        lower_row(&mut labels, &mut marked, 0, forty_eight(&[(lane, 40)], FAR));
        assert!(rt; marked[0] && labels[0] == forty_eight(&[(lane, 40)], 100));
        let fall = Fall {
            low: 40,
            high: 40,
            top: 100,
        };
        assert!(rt; labels[0].fall(before) == fall);
    }
}

/// `lower_row`, `fall`.
#[test]
fn a_fall_in_any_lane_of_a_short_row_marks_the_stop(rt: HostRuntime) {
    for lane in LANES_OF_SIXTEEN {
        let before = sixteen(&[], 100);
        let mut labels = [before];
        let mut marked = [false];
        lower_row(&mut labels, &mut marked, 0, before);
        assert!(rt; !marked[0]);
        lower_row(&mut labels, &mut marked, 0, sixteen(&[(lane, 40)], FAR));
        assert!(rt; marked[0] && labels[0] == sixteen(&[(lane, 40)], 100));
    }
}

/// `fall`.
#[test]
fn falls_are_bounded_over_all_lanes(rt: HostRuntime) {
    let before = forty_eight(&[(3, 500), (40, 800), (47, 20)], 900);
    let ready = forty_eight(&[(3, 300), (40, 60), (47, 20)], 900);
    let fall = Fall {
        low: 60,
        high: 300,
        top: 800,
    };
    assert!(rt; ready.fall(before) == fall);
}

/// `span`.
#[test]
fn ranks_span_all_lanes(rt: HostRuntime) {
    let none = forty_eight(&[], FAR).span();
    assert!(rt; none.first == 0 && none.end == 0);
    for lane in LANES_OF_FORTY_EIGHT {
        let one = forty_eight(&[(lane, 7)], FAR).span();
        assert!(rt; one.first == 7 && one.end == 8);
    }
    for (one, other) in [(0, 47), (32, 31), (40, 33)] {
        let both = forty_eight(&[(one, 9), (other, 3)], FAR).span();
        assert!(rt; both.first == 3 && both.end == 10);
    }
    let short = sixteen(&[(15, 0), (8, 65_534)], FAR).span();
    assert!(rt; short.first == 0 && short.end == 65_535);
}

/// `is_reached`.
#[test]
fn lanes_that_do_not_depart_need_not_arrive(rt: HostRuntime) {
    let departs = FortyEight::minutely(0, 40);
    let cases = [
        (0, false),
        (31, false),
        (32, false),
        (39, false),
        (40, true),
        (47, true),
    ];
    for (lane, reached) in cases {
        assert!(rt; forty_eight(&[(lane, FAR)], 9).is_reached(departs) == reached);
    }
    assert!(rt; !sixteen(&[], FAR).is_reached(Sixteen::minutely(0, 1)));
    assert!(rt; sixteen(&[], FAR).is_reached(Sixteen::minutely(0, 0)));
}

/// `later`, `catch`, `alight`.
#[test]
fn each_lane_rides_for_itself(rt: HostRuntime) {
    let far = forty_eight(&[], FAR);
    for lane in LANES_OF_FORTY_EIGHT {
        let ready = forty_eight(&[(lane, 65_500)], FAR);
        assert!(rt; ready.later(34) == forty_eight(&[(lane, 65_534)], FAR));
        assert!(rt; ready.later(100_000) == far);
        assert!(rt; ready.catch(65_500, 4) == forty_eight(&[(lane, 4)], FAR));
        assert!(rt; ready.catch(65_499, 4) == far);
        let run = forty_eight(&[(lane, 4)], 5);
        assert!(rt; ready.alight(run, 4, 77) == forty_eight(&[(lane, 77)], FAR));
    }
}
