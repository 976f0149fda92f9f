// Calls as data, and whole runs of them.
ghost use Rattle.std.specs.Prelude.{◌≡◌, ◌+◌, ◌≤◌, false, IfOk, IfErr, IsOk, IsSome, OnOk, OnErr, length};
ghost use Rattle.wt_keys.specs.declared.fault.Fault.TheVariants as fault;
ghost use Rattle.wt_regions.specs.Notices.{appended};
ghost use Rattle.wt_regions.specs.Slide.{KeepsAllButWindow};
ghost use Rattle.wt_core.specs.Contract.{KeepsWhole, IsPartRun};
ghost use Rattle.wt_core.specs.Landings.{TakesNone};
ghost use Rattle.wt_core.specs.Laws.{is_slide};
ghost use Rattle.wt_core.specs.Run.{taken, run, replies, last_notices};
ghost use Rattle.wt_core.specs.Seek.{OpensBy};
ghost use Rattle.wt_core.specs.Step.{refusal_of};

use crate::calls::{Call, Reply};
use crate::sequential::Core;
use std::alloc::Global;
use wt_keys::{CacheKey, Fault, NoMemory, Share};
use wt_regions::{Notices, Weighs};

// Turns a refusal by the state into the reply `Refused`. Only a failed allocation stays an error.
macro_rules! reply_of {
    ($outcome:expr, $made:pat => $reply:expr) => {
        match $outcome {
            Ok($made) => Ok($reply),
            Err(Fault::NoMemory) => Err(NoMemory),
            Err(fault) => Ok(Reply::Refused(fault)),
        }
    };
}

impl<K: CacheKey, V: Share + Weighs> Core<K, V> {
    /// Makes the call, and returns its reply. A call that the state refuses returns `Refused`, and
    /// is no step.
    ///
    /// `NoMemory` alone is an error, and then nothing has changed. Takes as much memory as the
    /// call's own step.
    ///
    /// In use: `uses::plain::take`.
    // Inlined, so that the kind of call is known to the caller that makes it.
    #[inline(always)]
    pub fn take(
        &mut self,
        call: Call<K, V>,
        notices: &mut Notices<K, V>,
    ) -> Result<Reply<V>, NoMemory>
        requires room { self.old.regions.caps.entries ≤ notices.old.room }

        ensures state { OnOk result (self.new ≡ (taken K.eq K.word V.measure self.old call).state) }
        ensures answer { IfOk result (λ r. r ≡ (taken K.eq K.word V.measure self.old call).reply) }
        ensures notices { OnOk result (notices.new
            ≡ appended (taken K.eq K.word V.measure self.old call).notices notices.old) }

        ensures same { KeepsAllButWindow self.old.regions.caps self.new.regions.caps }
        ensures still { is_slide call ≡ false → self.new.regions.caps ≡ self.old.regions.caps }
        ensures whole { KeepsWhole notices.old notices.new }
        // The state's refusals don't depend on memory, and some calls take none.
        ensures refusal { IsSome (refusal_of K.eq K.word V.measure self.old call) → IsOk result }
        ensures memory { TakesNone V.Share.is_copied K.eq V.measure self.old call → IsOk result }
        ensures err { OnErr result ((self.new ≡ self.old) × (notices.new ≡ notices.old)) }
    {
        self.take_met(call, None, notices)
    }

    /// Makes the call as [`Core::take`] does. If it is a seek, `opens` may say whether a hit would
    /// open a load, as `foresee` shows it.
    #[inline(always)]
    pub fn take_met(
        &mut self,
        call: Call<K, V>,
        opens: Option<bool>,
        notices: &mut Notices<K, V>,
    ) -> Result<Reply<V>, NoMemory>
        requires opens { OpensBy K.eq call opens self.old }
        requires room { self.old.regions.caps.entries ≤ notices.old.room }

        ensures state { OnOk result (self.new ≡ (taken K.eq K.word V.measure self.old call).state) }
        ensures answer { IfOk result (λ r. r ≡ (taken K.eq K.word V.measure self.old call).reply) }
        ensures notices { OnOk result (notices.new
            ≡ appended (taken K.eq K.word V.measure self.old call).notices notices.old) }

        ensures same { KeepsAllButWindow self.old.regions.caps self.new.regions.caps }
        ensures still { is_slide call ≡ false → self.new.regions.caps ≡ self.old.regions.caps }
        ensures whole { KeepsWhole notices.old notices.new }
        // The state's refusals don't depend on memory, and some calls take none.
        ensures refusal { IsSome (refusal_of K.eq K.word V.measure self.old call) → IsOk result }
        ensures memory { TakesNone V.Share.is_copied K.eq V.measure self.old call → IsOk result }
        ensures err { OnErr result ((self.new ≡ self.old) × (notices.new ≡ notices.old)) }
    {
        match call {
            Call::Look(key, now) => reply_of!(self.look(key, now, notices), reply => reply),
            Call::Seek(key, now) => match opens {
                None => reply_of!(self.seek(key, now, notices), reply => reply),
                Some(opens) => {
                    reply_of!(self.seek_met(key, now, opens, notices), reply => reply)
                }
            },
            Call::Land(id, key, what, now) => {
                reply_of!(self.land(id, key, what, now, notices), reply => reply)
            }
            Call::Put(key, value, now) => {
                reply_of!(self.put(key, value, now, notices), () => Reply::Stored)
            }
            Call::DropKey(key, now) => {
                reply_of!(self.drop_key(key, now, notices), left => Reply::Dropped(left))
            }
            Call::Clear(now) => reply_of!(self.clear(now, notices), () => Reply::Cleared),
            Call::Forget(key, now) => {
                reply_of!(self.forget(key, now, notices), was => Reply::Forgot(was))
            }
            Call::Clean(now) => reply_of!(self.clean(now, notices), () => Reply::Cleaned),
            Call::Slide { wider, now } => {
                reply_of!(self.slide(wider, now), moved => Reply::Slid(moved))
            }
        }
    }
}

/// Makes the calls one after another, and returns their replies. A call that the state refuses
/// replies `Refused` and is no step.
///
/// The notices are emptied before each call, so those of the last stay. `NoMemory` ends the run;
/// the cache then stands after a prefix of the calls, and their replies are dropped. Takes memory
/// for the list of replies, before the first call, and as much as the calls take.
///
/// In use: `uses::plain::run`.
pub fn run_calls<K: CacheKey, V: Share + Weighs>(
    alloc: Global,
    core: &mut Core<K, V>,
    calls: Vec<Call<K, V>>,
    notices: &mut Notices<K, V>,
) -> Result<Vec<Reply<V>>, Fault>
    requires room { core.old.regions.caps.entries ≤ notices.old.room + length notices.old.list }

    ensures state { OnOk result (core.new ≡ run K.eq K.word V.measure core.old calls.items) }
    ensures answer { IfOk result (λ made. made.items
        ≡ replies K.eq K.word V.measure core.old calls.items) }
    ensures notices { OnOk result (notices.new
        ≡ last_notices K.eq K.word V.measure core.old calls.items notices.old) }

    ensures memory { IfErr result (λ f. f ≡ fault.NoMemory) }
    // Whatever is answered.
    ensures same { KeepsAllButWindow core.old.regions.caps core.new.regions.caps }
    ensures whole { KeepsWhole notices.old notices.new }
    ensures err { OnErr result (IsPartRun K.eq K.word V.measure calls.items core.old core.new) }
{
    let mut made = Vec::with_capacity(alloc, calls.len())?;
    for call in calls {
        notices.empty();
        let Ok(reply) = core.take(call, notices) else {
            return Err(Fault::NoMemory);
        };
        made.push_reserved(reply);
    }
    Ok(made)
}
