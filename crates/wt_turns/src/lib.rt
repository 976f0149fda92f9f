//! Replays a trace turn by turn: threads take turns with its lines, on one shared cache.
#![tactic(auto)]

mod by_turn;
mod replay;

pub use replay::replay_by_turn;
