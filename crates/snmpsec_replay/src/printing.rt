//! What a replay prints.

/// How a replay numbers the lines of its log, and whether it prints a line for each.
#[derive(Clone, Copy, Debug, PartialEq, Eq)]
pub struct Printing {
    /// The number of the first line, in what is printed and in a fault.
    pub first: u64,
    /// Whether there is a line for each datagram, before the saved text.
    pub lines: bool,
}
