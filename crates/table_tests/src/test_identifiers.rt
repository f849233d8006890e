//! Identifiers of trips, stops, routes and services for the tests.

use std::alloc::{AllocError, Global};
use table_records::Identifiers;

/// These identifiers, in their order. They stand in a box, so that whoever holds them drops them in one step.
pub(crate) fn identifiers(alloc: Global, names: &[&[u8]]) -> Result<Box<Identifiers>, AllocError> {
    let mut ids = Identifiers::new(alloc);
    for name in names {
        ids.push(alloc, name)?;
    }
    Ok(Box::new(alloc, ids)?)
}
