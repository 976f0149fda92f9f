//! The sequential cache for C: a handle that C holds, and a call for each of its steps.
#![tactic(auto)]

mod adviser;
mod answer;
mod cached;
mod handle;
mod keyless;
mod make;
mod names;
mod opened;
mod peek;
mod pointer;
mod raw_box;
mod setup;
mod shared;
mod shows;
mod steps;
mod text;
mod token;
mod version;

pub use adviser::{AdviserHandle, Advising};
pub use answer::Answer;
pub use handle::Handle;
pub use names::NameLeft;
pub use setup::Setup;
pub use shared::{SharedHandle, Sharing};
pub use shows::{Left, Numbers};
pub use steps::look_many::Looked;
pub use text::Text;
pub use token::{Timed, Token};
