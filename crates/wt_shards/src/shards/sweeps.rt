// Steps at every shard, one after the other.
ghost use Rattle.std.specs.Prelude.{◌*◌, ◌<◌, ◌≤◌};
ghost use Rattle.wt_shards.specs.Contract.{IsHomeCall, IsSweepCall};
ghost use Rattle.wt_shards.specs.Members.{members_of};
ghost use Rattle.wt_shards.specs.Place.{place_of};
ghost use Rattle.wt_shards.specs.Sweeps.{call_of};

use crate::books::Books;
use crate::done::Done;
use crate::pass::Pass;
use crate::shards::Shards;
use crate::sweep::Sweep;
use crate::value::Value;
use std::sync::Wait;
use wt_core::{Call, Notices, Reply};
use wt_keys::{CacheKey, Fault};

impl<K: CacheKey, V: Value<K>, B: Books> Shards<K, V, B> {
    // One sweep at the shard of a number.
    fn sweep_one<R: Wait>(
        &self,
        rt: &R,
        pass: &mut Pass<K, V, B>,
        home: usize,
        sweep: Sweep,
        now: u64,
        notices: &mut Notices<K, V>,
    ) -> Result<Done<Reply<V>>, Fault>
        requires within { home < self.now.shards }
        requires room { self.now.config.entries ≤ notices.old.room }
        ensures made { IsHomeCall (members_of K.CacheKey V.Value) (place_of home self.now)
            (call_of sweep now) (λ reply. reply) pass.old pass.new notices.old notices.new result }
    {
        match sweep {
            Sweep::Clear => self.step(rt, pass, home, Call::Clear(now), notices),
            Sweep::Clean => self.step(rt, pass, home, Call::Clean(now), notices),
        }
    }

    // One sweep at each shard.
    pub(crate) fn sweep<R: Wait>(
        &self,
        rt: &R,
        pass: &mut Pass<K, V, B>,
        sweep: Sweep,
        now: u64,
        notices: &mut Notices<K, V>,
    ) -> Result<(), Fault>
        requires room { self.now.shards * self.now.config.entries ≤ notices.old.room }
        ensures made { IsSweepCall (members_of K.CacheKey V.Value) self.now (call_of sweep now)
            pass.old pass.new notices.old notices.new result }
    {
        for home in 0..self.shards {
            self.sweep_one(rt, pass, home, sweep, now, notices)?;
        }
        Ok(())
    }
}
