//! The names of scenarios.

/// The name of a scenario. That of `base` takes no memory.
#[derive(Drop)]
pub(crate) enum Name {
    Base,
    Given(Vec<u8>),
}
