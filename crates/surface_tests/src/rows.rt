//! `workers` and `matrix_text`: a study of one network, and its text.
ghost use Rattle.std.specs.Prelude.{◌≤◌};

use crate::small_feeds::feed;
use crate::small_studies::network_of;
use collector::{Matrix, Row};
use gtfs_tables::Feed;
use matrix_text::{Labels, TextFault, put_all, write_matrix};
use rounds::Window;
use std::alloc::Global;
use std::sync::Wait;
use std::test::Fail;
use std::thread::Threads;
use timetable::{Network, StopNo};
use work_book::{Board, Lease, Settled};
use workers::{Gate, Open, RunFault, Study, Verdict, one_thread, row_of, run_workers};

/// Lets each lease be worked at.
#[derive(Clone, Copy)]
struct Willing;

impl Gate for Willing {
    fn before(&self, _lease: &Lease) -> Verdict {
        Verdict::Work
    }

    fn after(&self, _lease: &Lease, _settled: Settled) {}
}

/// The study of a network from its first stop.
fn study_of(networks: &[Network]) -> Study<'_> {
    Study {
        number: 9,
        networks,
        origins: &[StopNo(0)],
        opportunities: &[1, 1],
        window: Window {
            first: 40,
            minutes: 2,
        },
        rides: 1,
        shares: &[50],
        withins: &[300],
        destinations: &[StopNo(0), StopNo(1)],
    }
}

/// Whether this is the row of the first stop.
fn is_right(row: &Row) -> bool {
    (row.study, row.scenario, row.origin, row.shares.len()) == (9, 0, 0, 1)
        && row.shares[0].cells.as_slice() == [Some(0), Some(300)].as_slice()
        && row.shares[0].access.as_slice() == [2].as_slice()
}

/// Whether a matrix has the row of the first stop alone.
fn has_its_row(matrix: Result<Matrix, RunFault>) -> bool {
    match matrix {
        Ok(matrix) => {
            matrix.scenarios() == 1 && matrix.origins() == 1 && is_right(matrix.row(0, 0))
        }
        Err(_) => false,
    }
}

/// Whether a worker in a thread of its own gives the row, past a gate.
fn works<R: Threads + Wait + Sync + AllocGlobal, G: Gate + Sync>(
    rt: &R,
    study: &Study,
    gate: &G,
) -> bool {
    if !study.fits() {
        return false;
    }
    let jobs = study.networks.len() as u32 * study.origins.len() as u32;
    match Board::new(rt.alloc(), jobs, 1) {
        Ok((board, mut seat)) => {
            has_its_row(run_workers(rt, rt.alloc(), study, &board, &mut seat, 1, gate))
        }
        Err(_) => false,
    }
}

/// Whether one thread gives the row, alone and in a matrix.
fn computes(alloc: Global, study: &Study) -> bool {
    if !study.fits() || study.networks.len() != 1 || study.origins.len() != 1 {
        return false;
    }
    match row_of(alloc, study, 0, 0) {
        Ok(row) => is_right(&row) && has_its_row(one_thread(alloc, study)),
        Err(_) => false,
    }
}

/// `Study::fits`, `row_of`, `one_thread`, `run_workers`; `Gate`, `Open`.
#[test]
fn studies(rt: HostRuntime) -> Result<(), Fail> {
    let Some(network) = network_of(rt.alloc())? else {
        return Err(Fail::new("no network"));
    };
    let networks: Vec<Network> = vec![in rt.alloc(); Box::into_inner(network)]?;
    let study = study_of(&networks);
    let are_right = study.fits()
        && computes(rt.alloc(), &study)
        && works(&rt, &study, &Open)
        && works(&rt, &study, &Willing);
    drop(networks);
    assert!(rt; are_right);
    Ok(())
}

/// The text of a matrix of two columns, over the feed of three stops.
fn text_of(alloc: Global, matrix: &Matrix, feed: &Feed) -> Result<Vec<u8>, TextFault> {
    let mut text = Vec::new(alloc);
    let Ok(name) = Vec::from_slice(alloc, b"base") else {
        return Err(TextFault::Memory);
    };
    let Ok(names) = vec![in alloc; name] else {
        return Err(TextFault::Memory);
    };
    let labels = Labels {
        scenarios: &names,
        origins: &[StopNo(0)],
        feed,
        shares: &[50],
        limits: &[300],
        destinations: &[StopNo(0), StopNo(1)],
    };
    if !labels.fit(matrix) {
        return Err(TextFault::Memory);
    }
    let written: Result<(), TextFault> = write_matrix(alloc, matrix, &labels, &mut text);
    written?;
    Ok(text)
}

/// Whether the study's matrix has its text.
fn is_written(alloc: Global, study: &Study, feed: &Feed) -> bool {
    if !study.fits() {
        return false;
    }
    let want = b"scenario,origin,share,access_300,A,B\nbase,A,50,2,0,300\n";
    match one_thread(alloc, study) {
        Ok(matrix) => match text_of(alloc, &matrix, feed) {
            Ok(text) => text.as_slice() == want.as_slice(),
            Err(_) => false,
        },
        Err(_) => false,
    }
}

/// `write_matrix`.
#[test]
fn texts(rt: HostRuntime) -> Result<(), Fail> {
    let Some(network) = network_of(rt.alloc())? else {
        return Err(Fail::new("no network"));
    };
    let networks: Vec<Network> = vec![in rt.alloc(); Box::into_inner(network)]?;
    match feed(rt.alloc()) {
        Some(feed) => assert!(rt; is_written(rt.alloc(), &study_of(&networks), &feed)),
        None => assert!(rt; false),
    }
    Ok(())
}

/// `put_all`.
#[test]
fn bytes(rt: HostRuntime) {
    let mut out = Vec::new(rt.alloc());
    let put: Result<(), TextFault> = put_all(b"a,b", &mut out);
    assert!(rt; put == Ok(()) && out.as_slice() == b"a,b".as_slice());
}
