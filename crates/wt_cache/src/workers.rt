// Workers, which run the loads that callers posted.
ghost use Rattle.std.specs.Prelude.{◌≡◌, ◌+◌, ◌^◌, ◌<◌, ◌≤◌, []};
ghost use Rattle.wt_regions.specs.Notices.{emptied};
ghost use Rattle.wt_shards.specs.Members.{members_of};
ghost use Rattle.wt_cache.specs.Loads.{IsRunAside, MayReturn};
ghost use Rattle.wt_cache.specs.Moves.{HasLanded, HasTaken};
ghost use Rattle.wt_cache.specs.Workers.{HasWorked};

use crate::cache::LoadingCache;
use crate::got::WorkerReport;
use crate::line_pass::LinePass;
use crate::loader::Loader;
use std::sync::Wait;
use wt_core::Notices;
use wt_flights::Lead;
use wt_keys::CacheKey;
use wt_shards::{Books, Pass, Value};

// The loads after which a worker ends, so that its counts can't wrap. Ours.
const MOST_JOBS: u64 = 1 << 40;

impl<K: CacheKey, V: Value<K>, L: Loader<K, V> + Drop, B: Books> LoadingCache<K, V, L, B> {
    /// Takes loads off the line and runs them, and reports how many there were.
    ///
    /// Ends once the line is closed and it found no load there; after 2^40 loads; or at once if the
    /// cache has no line. While the line is open and empty it looks again for some 20 microseconds,
    /// and then sleeps until a post or the close wakes it. A load whose landing is refused is
    /// published and rung all the same. Entries that leave the cache are counted and dropped, and
    /// those that were in the list before are dropped too. Any number of workers may run at once,
    /// each with passes of its own. The pass of the line is to be one of this cache's line. Takes
    /// the lock of a key's shard for each landing, and that of the line's bell before it sleeps.
    /// Not promised: that it is woken; that it returns.
    ///
    /// In use: `uses::lines::run_worker`.
    pub fn run_worker<R: Wait>(
        &self,
        rt: &R,
        pass: &mut Pass<K, V, B>,
        line_pass: &mut LinePass<K, V>,
        notices: &mut Notices<K, V>,
    ) -> WorkerReport
        requires room { self.now.layout.config.entries ≤ notices.old.room }
        ensures landed { HasLanded result.jobs pass.old.counts pass.new.counts }
        ensures taken { HasTaken result.jobs line_pass.old line_pass.new }
        // Each load that was taken was landed, and nothing else was done with the pass.
        ensures ran { HasWorked (members_of K.CacheKey V.Value) (MayReturn L.may_return)
            self.now.layout (emptied notices.old) result.jobs line_pass.old line_pass.new
            pass.old pass.new }
        ensures failed { result.failed ≤ result.jobs }
        ensures jobs { result.jobs ≤ 2 ^ 40 }
        ensures notices { notices.new ≡ emptied notices.old }
    {
        notices.empty();
        let mut report = WorkerReport {
            jobs: 0,
            failed: 0,
            removed: 0,
        };
        let Some(line) = &self.line else {
            return report;
        };
        for _ in rt.forever() {
            if report.jobs >= MOST_JOBS {
                return report;
            }
            let Some(lead) = line.next(rt, line_pass) else {
                return report;
            };
            self.work(rt, pass, lead, notices, &mut report);
        }
        unreachable!()
    }

    // Runs one load of a worker: entries that leave the cache are counted and dropped.
    fn work<R: Wait>(
        &self,
        rt: &R,
        pass: &mut Pass<K, V, B>,
        lead: Lead<K, V>,
        notices: &mut Notices<K, V>,
        report: &mut WorkerReport,
    )
        requires room { self.now.layout.config.entries ≤ notices.old.room }
        requires none { notices.old.list ≡ [] }
        requires jobs { report.old.jobs < 2 ^ 40 }
        requires failed { report.old.failed ≤ report.old.jobs }
        ensures ran { IsRunAside (members_of K.CacheKey V.Value) (MayReturn L.may_return)
            self.now.layout notices.old lead pass.old pass.new }
        ensures notices { notices.new ≡ notices.old }
        ensures jobs { report.new.jobs ≡ report.old.jobs + 1 }
        ensures failed { report.new.failed ≤ report.new.jobs }
    {
        let ran = self.run(rt, pass, lead, notices);
        report.jobs += 1;
        report.failed += u64::from(ran.failed);
        report.removed = report.removed.saturating_add(notices.list().len() as u64);
        notices.empty();
    }
}
