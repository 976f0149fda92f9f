//! Audited shards of a cache behind locks: at all times the outline of each is its lagging copy
//! followed by recorded steps.
#![tactic(auto)]

mod at_home;
mod books;
mod closed;
mod done;
mod ended;
mod ends;
mod explained;
mod kept;
mod lag;
mod landings;
mod laws;
mod ledgers;
mod names;
mod pass;
mod recorded;
mod sampler;
mod shade;
mod shading;
mod shard;
mod shard_ledger;
mod shard_pass;
mod shards;
mod shares;
mod sight;
mod sought;
mod sums;
mod sweep;
mod total;
mod totals;
mod value;

pub use books::{Blanks, Books, Named};
pub use closed::Closed;
pub use done::Done;
pub use ends::Ends;
pub use explained::Explained;
pub use landings::{Landings, Sharing};
pub use laws::{
    found_values_are_young, found_values_were_used, joins_are_fresh, loads_land_once,
    one_load_is_current, outline_of_step, own_put_is_found, own_put_is_read, own_put_is_sought,
    own_removal_is_read, read_values_were_used, reads_are_fresh, reads_are_young,
    served_values_are_young, served_values_were_brought, served_values_were_used,
    sharers_are_counted, stale_loads_are_left_out, stale_loads_are_not_stored,
};
pub use names::{Hits, Names, Of, Steps};
pub use pass::Pass;
pub use shade::{Noted, Shade};
pub use shard::Shard;
pub use shard_ledger::ShardLedger;
pub use shards::Shards;
pub use shares::Shares;
pub use sight::Sight;
pub use sought::Sought;
pub use total::Total;
pub use totals::Totals;
pub use value::Value;
