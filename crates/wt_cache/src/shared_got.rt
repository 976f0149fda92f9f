// A get with what shows that others which shared its load got the same value.
ghost use Rattle.std.specs.Prelude.{◌≡◌, ◌==◌, None, IfSome, IsTrue};
ghost use Rattle.std.specs.Option.{option_map};
ghost use Rattle.wt_flights.specs.Outcomes.{AgreeIfKnown};
ghost use Rattle.wt_shards.specs.Landings.{IsLandingOf};
ghost use Rattle.wt_cache.specs.SharedGots.{AreOfOneShard, IsShareOf, have_one_load, share_of};

use crate::got::{Got, How};
use std::marker::Model;
use wt_flights::Ticket;
use wt_shards::Landings;

/// A caller's share of a load: its ticket, which knows the outcome, and the landings of the loads of
/// that shard.
#[derive(Drop)]
pub(crate) struct LoadShare<K, V> {
    pub(crate) ticket: Ticket<K, V>,
    pub(crate) landings: Landings<K, V>,
}

impl<K: Copy, V: Drop> LoadShare<K, V> {
    // Whether both are shares of one load. Then their tickets know the same outcome.
    fn is_of_load(&mut self, other: &mut LoadShare<K, V>) -> bool
        requires one_shard { other.old.landings.book ≡ self.old.landings.book }
        requires landings { IsLandingOf self.old.landings.tags self.old.ticket.id
            self.old.ticket.landing × IsLandingOf other.old.landings.tags other.old.ticket.id
            other.old.ticket.landing }
        ensures same { (self.new ≡ self.old) × (other.new ≡ other.old) }
        ensures answer { result ≡ (other.old.ticket.id == self.old.ticket.id) }
        ensures agree { IsTrue result → AgreeIfKnown self.old.ticket.known other.old.ticket.known }
    {
        if other.ticket.id() != self.ticket.id() {
            return false;
        }
        let theirs = other.landings.again();
        let landings = self.landings.again();
        landings.compare(&mut self.ticket, &theirs, &mut other.ticket);
        true
    }
}

/// What a get returned, and its share of the load, if it shared one.
///
/// It keeps the load's outcome in memory for as long as it lives.
#[derive(Drop)]
pub struct SharedGot<K, V> {
    got: Got<V>,
    share: Option<LoadShare<K, V>>,
}

impl<K, V> Model for SharedGot<K, V> {
    ghost use Rattle.std.specs.Prelude.{IfSome};
    ghost use Rattle.std.specs.Option.{option_map};
    ghost use Rattle.wt_cache.specs.SharedGots.{IsShareOf, SharedGot, share_of};

    ghost Value = { SharedGot V };

    ghost view = { λ g. record { got = g.got; share = option_map share_of g.share } };

    // The ticket knows the value, and is of the landing that its shard's history names.
    ghost invariant = { λ g. IfSome g.share (IsShareOf g.got.value) };
}

impl<K, V> SharedGot<K, V> {
    // What a get found in the cache: no load is shared.
    pub(crate) fn found(value: V, how: How, step: u64) -> SharedGot<K, V>
        ensures { result ≡ record {
          got = record { value = value; how = how; step = step };
          share = None;
        } }
    {
        SharedGot {
            got: Got { value, how, step },
            share: None,
        }
    }

    // What a get got of a load, with its share of it.
    pub(crate) fn loaded(
        value: V,
        how: How,
        step: u64,
        ticket: Option<Ticket<K, V>>,
        landings: Landings<K, V>,
    ) -> SharedGot<K, V>
        requires { IfSome ticket (λ t. IsShareOf value (record { ticket = t; landings = landings })) }
        ensures { result ≡ record {
          got = record { value = value; how = how; step = step };
          share = option_map (λ t. share_of (record { ticket = t; landings = landings })) ticket;
        } }
    {
        let share = match ticket {
            Some(ticket) => Some(LoadShare { ticket, landings }),
            None => None,
        };
        SharedGot {
            got: Got { value, how, step },
            share,
        }
    }

    /// Returns what the get returned, as long as this lives.
    pub fn got(&self) -> &Got<V>
        ensures { result.now ≡ self.now.got }
    {
        &self.got
    }
}

impl<K: Copy, V: Drop> SharedGot<K, V> {
    /// Returns what the get returned.
    pub fn into_got(self) -> Got<V>
        ensures { result ≡ self.got }
    {
        let SharedGot { got, share: _ } = self;
        got
    }

    /// Returns whether both gets have a share of one load: then their values are the same.
    ///
    /// Both are gets of one shard, so of one cache, as gets of one key are. Takes no memory and no
    /// lock. O(1).
    pub fn shares_with(&mut self, other: &mut SharedGot<K, V>) -> bool
        requires one_shard { AreOfOneShard self.old.share other.old.share }
        ensures same { (self.new ≡ self.old) × (other.new ≡ other.old) }
        ensures answer { result ≡ have_one_load self.old.share other.old.share }
        ensures agree { IsTrue result → self.old.got.value ≡ other.old.got.value }
    {
        match &mut self.share {
            None => false,
            Some(mine) => match &mut other.share {
                None => false,
                Some(theirs) => mine.is_of_load(theirs),
            },
        }
    }
}
