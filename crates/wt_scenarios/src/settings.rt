// The settings of a scenario's cache.
use crate::words::{number, small};
use wt_core::Config;

/// The settings: those of a shard, and how many shards there are.
#[derive(Clone, Copy, Debug)]
pub struct Settings {
    pub config: Config,
    pub shards: usize,
}

impl Settings {
    /// Returns those of a scenario that names none: one shard of 4 entries.
    pub fn new() -> Settings {
        Settings {
            config: Config::of(4),
            shards: 1,
        }
    }

    /// Reads pairs of a name and a number. Returns whether each is one.
    pub fn read(&mut self, pairs: &[&str]) -> bool {
        let mut rest = pairs;
        for _ in 0..pairs.len() {
            let [name, value, after @ ..] = rest else {
                return rest.is_empty();
            };
            if self.set(name, value).is_none() {
                return false;
            }
            rest = after;
        }
        rest.is_empty()
    }

    // Sets what a name says.
    fn set(&mut self, name: &str, value: &str) -> Option<()> {
        match name {
            "entries" => self.config.entries = small(value)?,
            "window" => self.config.window = small(value)?,
            "weight" => self.config.bound = number(value)?,
            "write" => self.config.after_write = Some(number(value)?),
            "access" => self.config.after_access = Some(number(value)?),
            "refresh" => self.config.refresh = Some(number(value)?),
            "flights" => self.config.flights = small(value)?,
            "ring" => self.config.ring = small(value)?,
            "shards" => self.shards = small(value)? as usize,
            _ => return None,
        }
        Some(())
    }
}
