//! A cache that loads what isn't there, once for all callers that ask, in the caller or in workers.
#![tactic(auto)]

mod cache;
mod caller;
mod callers;
mod followers;
mod got;
mod idle;
mod job_line;
mod keyed;
mod line_pass;
mod line_view;
mod loader;
mod loads;
mod service;
mod shared_got;
mod tally;
mod unseen;
mod workers;

pub use cache::LoadingCache;
pub use caller::Caller;
pub use callers::Callers;
pub use followers::Followers;
pub use got::{Got, How, WorkerReport};
pub use idle::Returned;
pub use job_line::{Back, JobLine, Posted};
pub use keyed::Keyed;
pub use line_pass::LinePass;
pub use line_view::LineView;
pub use loader::Loader;
pub use service::{Service, serve};
pub use shared_got::SharedGot;
pub use tally::{Countable, Tally};
pub use unseen::Unseen;
