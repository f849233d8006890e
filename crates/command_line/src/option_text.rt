//! An option of the command, as a table has it.

/// An option with one text as value.
pub(crate) struct OptionText {
    pub name: &'static str,
    /// What stands for the text in the help.
    pub value: &'static str,
    /// What the help says of it: its unit and its limits.
    pub help: &'static str,
    /// Whether it must be given.
    pub is_needed: bool,
}
