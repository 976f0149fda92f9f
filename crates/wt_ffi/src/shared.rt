// A cache that C's threads share: a handle for each thread, and calls that never wait.
pub(crate) mod calls;
mod handle;
pub(crate) mod keyless;
pub(crate) mod living;
mod make;
pub(crate) mod name_calls;
pub(crate) mod names;
pub(crate) mod numbers;
pub(crate) mod opening;
pub(crate) mod peek;
pub(crate) mod pointer;
pub(crate) mod reads;
mod sharing;

pub use handle::SharedHandle;
pub use sharing::Sharing;
