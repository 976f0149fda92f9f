//! A cache that several threads share without a handle of the runtime: a caller for each thread, and
//! calls that never wait.
#![tactic(auto)]

mod caller;
mod kept;
mod known;
mod numbers;
mod slot;
mod unmade;

pub use caller::Caller;
pub use known::Known;
pub use numbers::Numbers;
pub use unmade::Unmade;
