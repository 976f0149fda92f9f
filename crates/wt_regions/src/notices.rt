// The list of entries that left, each with its cause. Its memory is taken before the steps that
// fill it.
ghost use Rattle.std.specs.Prelude.{◌≡◌, ◌<◌, ◌∷◌, [], IfOk, IsSome, length, nat_le};
ghost use Rattle.std.specs.Option.{option_map_or};
ghost use Rattle.wt_regions.specs.Lists.{is_eviction};
ghost use Rattle.wt_regions.specs.Moves.{heft, told_held, told_left};
ghost use Rattle.wt_regions.specs.Notices.{appended, emptied, no_notices};

use crate::held::Held;
use std::alloc::Global;
use std::marker::Model;
use wt_keys::{CacheKey, NoMemory};

/// Why an entry left.
#[derive(Clone, Copy, Debug, PartialEq, Eq)]
pub enum Cause {
    /// The caller removed it.
    Explicit,
    /// Another value was stored under its key.
    Replaced,
    /// It was too long since it was written or used.
    Expired,
    /// There was no room, or too much weight, for it.
    Size,
}

impl Cause {
    /// Returns whether the cache let the entry go by its own rules: as `Expired` or as `Size`.
    pub fn was_evicted(self) -> bool
        ensures { result ≡ is_eviction self }
    {
        matches!(self, Cause::Expired | Cause::Size)
    }
}

/// An entry that left.
#[derive(Drop)]
pub struct Notice<K, V> {
    /// Its key.
    pub key: K,
    /// Its value, which is the caller's now.
    pub value: V,
    /// Why it left.
    pub cause: Cause,
}

/// The entries that left, in order, with room for more that was taken beforehand.
///
/// A call that appends notices requires room for as many as the regions may hold entries, and never
/// appends more: so it takes no memory for them. Contracts see the list and the room that is left.
#[derive(Drop)]
pub struct Notices<K, V> {
    items: Vec<Notice<K, V>>,
    // The length at which no room is left; never changes.
    most: usize,
}

impl<K, V> Model for Notices<K, V> {
    ghost use Rattle.std.specs.Prelude.{◌≤◌, ◌-◌, length, vec_capacity};
    ghost use Rattle.wt_regions.specs.Notices.{NoticeList};

    ghost Value = { NoticeList K V };

    ghost view = { λ n. record { list = n.items.items; room = n.most - length n.items.items } };

    ghost invariant = { λ n. (length n.items.items ≤ n.most) × (n.most ≤ vec_capacity n.items) };
}

impl<K, V> Notices<K, V> {
    /// Makes an empty list with room for `room` notices.
    ///
    /// `NoMemory` if there is no memory for that room. O(1) beside the allocation.
    pub fn new(alloc: Global, room: usize) -> Result<Self, NoMemory>
        ensures { IfOk result (λ notices. notices ≡ no_notices room) }
    {
        let items = Vec::with_capacity(alloc, room)?;
        Ok(Notices { items, most: room })
    }

    /// Returns whether there is room for `more` more. Takes no memory. O(1).
    pub fn has_room(&self, more: usize) -> bool
        ensures { result ≡ nat_le more self.now.room }
    {
        more <= self.most - self.items.len()
    }

    /// Returns the notices, the earliest first. Takes no memory. O(1).
    pub fn list(&self) -> &[Notice<K, V>]
        ensures { result.now ≡ self.now.list }
    {
        self.items.as_slice()
    }

    // Appends one notice.
    pub(crate) fn tell(&mut self, notice: Notice<K, V>)
        requires { 0 < self.old.room }
        ensures { self.new ≡ appended (notice ∷ []) self.old }
    {
        self.items.push_reserved(notice);
    }
}

impl<K: Drop, V: Drop> Notices<K, V> {
    /// Drops all notices, which gives their room back. Takes no memory. O(notices).
    pub fn empty(&mut self)
        ensures { self.new ≡ emptied self.old }
    {
        self.items.clear();
    }
}

// Appends a notice of the entry that left, if there is one, and returns its weight.
pub(crate) fn tell_left<K: CacheKey, V: Drop>(
    notices: &mut Notices<K, V>,
    left: Option<(K, Held<V>)>,
    cause: Cause,
) -> u64
    requires { 0 < notices.old.room }
    ensures weight { result ≡ option_map_or (λ e. e.1.weight) left 0 }
    ensures notices { notices.new ≡ appended (told_left cause left) notices.old }
{
    match left {
        Some((key, held)) => {
            let weight = held.weight as u64;
            notices.tell(Notice {
                key,
                value: held.value,
                cause,
            });
            weight
        }
        None => 0,
    }
}

// Appends a notice of the key's entry, if there was one, and returns its weight.
pub(crate) fn tell_held<K: CacheKey, V: Drop>(
    notices: &mut Notices<K, V>,
    key: K,
    held: Option<Held<V>>,
    cause: Cause,
) -> u64
    requires { IsSome held → 0 < notices.old.room }
    ensures weight { result ≡ heft held }
    ensures notices { notices.new ≡ appended (told_held cause key held) notices.old }
{
    match held {
        Some(held) => tell_left(notices, Some((key, held)), cause),
        None => 0,
    }
}
