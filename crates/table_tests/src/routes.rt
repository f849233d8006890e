//! The routes of `routes.txt`.

use std::alloc::Global;
use std::test::Fail;
use table_files::read_routes;
use table_records::{FeedFault, Identifiers};

/// Whether the routes are R1 and R2.
fn has_two_routes(ids: &Identifiers) -> bool {
    ids.len() == 2
        && ids.number(b"R1") == Some(0)
        && ids.number(b"R2") == Some(1)
        && ids.number(b"R3") == None
}

/// Whether two routes are read as such.
fn reads_two_routes(alloc: Global) -> Result<bool, FeedFault> {
    let ids = read_routes(alloc, b"agency_id, route_id \nx,R1\nx,R2\n")?;
    Ok(has_two_routes(&ids))
}

/// `read_routes`, `read_records`, `open_table`.
#[test]
fn routes_are_numbered_in_file_order(rt: HostRuntime) -> Result<(), Fail> {
    assert!(rt; reads_two_routes(rt.alloc())?);
    Ok(())
}

/// `read_routes`.
#[test]
fn a_header_alone_names_no_route(rt: HostRuntime) -> Result<(), Fail> {
    let ids = read_routes(rt.alloc(), b"route_id\n")?;
    assert_eq!(rt; ids.len(), 0);
    Ok(())
}
