// A line pass as contracts see it: its puts into the line, and its takes.
use std::collections::LinkedList;

/// The puts and takes of a line pass: pairs of a number and the load's id and key.
///
/// Contracts alone speak of it: no program makes a value of it.
pub struct LineView<K> {
    /// The puts, each with its number in the order of the line.
    pub puts: LinkedList<(u64, (u64, K))>,
    /// The takes, each with its number in the order of the line.
    pub takes: LinkedList<(u64, (u64, K))>,
}
