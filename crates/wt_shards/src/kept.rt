// The landing of an open load, as a shard keeps it.
ghost use Rattle.std.specs.Prelude.{◌≡◌, ℕ, ◌<◌, ◌≤◌, ◌++◌, get_or, ◌==◌, Some, None, option_copied, IfOk, length, vec_capacity, not, ◌&&◌};
ghost use Rattle.std.specs.List.{find};
ghost use Rattle.std.specs.Option.{option_to_list};
ghost use Rattle.std.specs.Arc.{arc_value};
ghost use Rattle.wt_flights.specs.Outcomes.{ticket_of};
ghost use Rattle.wt_flights.specs.Outcomes.{Leading};
ghost use Rattle.wt_shards.specs.Audited.{AreRising, still_open};

use crate::shade::Shade;
use std::alloc::Global;
use std::marker::Model;
use std::sync::Arc;
use wt_core::Call;
use wt_flights::{Landing, Lead, Ticket};
use wt_keys::{CacheKey, NoMemory};

/// A landing with its id beside it, so that a search for the id reads one list.
#[derive(Drop)]
pub(crate) struct Kept<K, V> {
    id: u64,
    landing: Arc<Landing<K, V>, Global>,
}

impl<K, V> Model for Kept<K, V> {
    ghost use Rattle.std.specs.Prelude.{◌≡◌};
    ghost use Rattle.std.specs.Arc.{arc_value};
    ghost use Rattle.wt_flights.specs.Outcomes.{Leading};

    ghost Value = { Leading K };

    ghost view = { λ k. arc_value k.landing };

    ghost invariant = { λ k. k.id ≡ (arc_value k.landing).id };
}

impl<K: Copy, V: Drop> Kept<K, V> {
    // Makes the landing of a load with its lead and a ticket.
    pub(crate) fn start(
        alloc: Global,
        id: u64,
        key: K,
        now: u64,
    ) -> Result<(Kept<K, V>, Lead<K, V>, Ticket<K, V>), NoMemory>
        ensures lead { IfOk result (λ r. (r.1.id ≡ id) × (r.1.key ≡ key) × (r.1.moment ≡ now)) }
        ensures landing { IfOk result (λ r. r.0 ≡ r.1) }
        ensures ticket { IfOk result (λ r. r.2 ≡ ticket_of r.1 None) }
    {
        let (landing, lead) = Landing::start(alloc, id, key, now)?;
        let ticket = lead.ticket()?;
        Ok((Kept { id, landing }, lead, ticket))
    }

    // Whether it is of the load with this id.
    fn is_of(&self, id: u64) -> bool
        ensures { result ≡ (self.now.id == id) }
    {
        self.id == id
    }

    // Makes a ticket of the landing.
    pub(crate) fn ticket(&self) -> Result<Ticket<K, V>, NoMemory>
        ensures { IfOk result (λ ticket. ticket ≡ ticket_of self.now None) }
    {
        Ticket::of(&self.landing)
    }
}

impl<K: CacheKey, V: Drop> Kept<K, V> {
    // Whether it is of another load.
    fn is_other(&self, id: u64, key: K) -> bool
        ensures { result ≡ not ((self.now.id == id) && K.eq key self.now.key) }
    {
        !(self.id == id && key == self.landing.key())
    }
}

// The place of the landing with an id, or where it would be: their ids rise. O(log(landings)).
fn place_of<K: Copy, V: Drop>(landings: &Vec<Kept<K, V>>, id: u64) -> usize
    requires rising { AreRising landings.now.items }
    ensures below { (i : ℕ) (d : Leading K) → i < result
        → (get_or landings.now.items i d).id < id }
    ensures above { (i : ℕ) (d : Leading K) → result ≤ i → i < length landings.now.items
        → id ≤ (get_or landings.now.items i d).id }
{
    landings.as_slice().partition_point(|kept| kept.id < id)
}

// The landing of the load with an id.
pub(crate) fn find_kept<K: Copy, V: Drop>(
    landings: &Vec<Kept<K, V>>,
    id: u64,
) -> Option<&Kept<K, V>>
    requires rising { AreRising landings.now.items }
    ensures { option_copied result ≡ find (λ l. l.id == id) landings.now.items }
{
    let place = place_of(landings, id);
    if place >= landings.len() {
        return None;
    }
    let kept = &landings[place];
    if kept.is_of(id) { Some(kept) } else { None }
}

// Takes the landing out that the call closes, and adds the one that it opens.
#[inline(always)]
pub(crate) fn change<K: CacheKey, V: Drop>(
    landings: &mut Vec<Kept<K, V>>,
    call: &Call<K, Shade>,
    opened: Option<Kept<K, V>>,
)
    requires rising { AreRising landings.old.items }
    requires room { length (still_open K.eq call.now landings.old.items ++ option_to_list opened)
        ≤ vec_capacity landings.old }
    ensures items { landings.new.items
        ≡ still_open K.eq call.now landings.old.items ++ option_to_list opened }
    ensures capacity { vec_capacity landings.new ≡ vec_capacity landings.old }
{
    close(landings, call);
    if let Some(kept) = opened {
        landings.push_reserved(kept);
    }
}

// Takes the landing out that the call closes.
#[inline(always)]
fn close<K: CacheKey, V: Drop>(landings: &mut Vec<Kept<K, V>>, call: &Call<K, Shade>)
    requires rising { AreRising landings.old.items }
    ensures items { landings.new.items ≡ still_open K.eq call.now landings.old.items }
    ensures capacity { vec_capacity landings.new ≡ vec_capacity landings.old }
{
    if let Call::Land(id, key, _, _) = call {
        let (id, key) = (*id, *key);
        let place = place_of(landings, id);
        if place < landings.len() && !landings[place].is_other(id, key) {
            landings.remove(place);
        }
    }
}
