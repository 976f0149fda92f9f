// Why a call wasn't made.

/// Why a call wasn't made.
#[derive(Clone, Copy, Debug, PartialEq, Eq)]
pub enum Unmade {
    /// Another call was at work, and nothing happened. Call again.
    Busy,
    /// An allocation failed, and the cache is as it was.
    NoMemory,
    /// The history had another length than its holder had counted. No code leads there, but no
    /// type says so. Afterwards every call returns `Busy`.
    Lost,
}
