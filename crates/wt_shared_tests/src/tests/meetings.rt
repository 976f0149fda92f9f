// Callers that meet: what their clauses and the laws then say of both.
ghost use Rattle.std.specs.Prelude.{◌≡◌, ◌<◌, nat_eq, IfSome};
ghost use mathlib.Core.List.{IsPrefix};
ghost use Rattle.wt_shared.specs.Runs.{IsRun};

use super::compare::{holds, same};
use super::{LoadedCaller, first_left, limits, reply_to};
use std::test::Fail;
use wt_core::{Call, Cause};
use wt_shared::Caller;
use wt_tests::{Do, Loaded, PlainReply, light};

// One caller makes a call, the other one meets it, and makes a call then. The numbers of the two
// calls, if both were made.
#[tactic(auto, using(crate::proofs::Following::follows))]
fn follow(
    mine: &mut LoadedCaller,
    theirs: &mut LoadedCaller,
    first: Call<u64, Loaded>,
    then: Call<u64, Loaded>,
) -> Option<(u64, u64)>
    requires one_log { theirs.old.known.seen.book ≡ mine.old.known.seen.book }
    ensures later { IfSome result (λ n. n.0 < n.1) }
{
    let Ok(_) = theirs.call(first) else {
        return None;
    };
    let number = theirs.number();
    mine.meet(theirs);
    let Ok(_) = mine.call(then) else {
        return None;
    };
    Some((number, mine.number()))
}

// Meets the other caller. The laws then hold of all calls that one of the two had seen.
fn meet_lawfully(mine: &mut LoadedCaller, theirs: &LoadedCaller)
    requires one_log { theirs.now.known.seen.book ≡ mine.old.known.seen.book }
    ensures that { IsPrefix theirs.now.known.seen.entries mine.new.known.seen.entries }
    ensures lawful { IsRun nat_eq (λ k. k) (λ v. record { weight = v.weight; life = v.life })
        mine.new.known.config mine.new.known.seen.entries }
{
    mine.meet(theirs);
    mine.laws();
}

#[test]
fn a_caller_that_has_met_another_one_follows_it(rt: HostRuntime) -> Result<(), Fail> {
    let mut mine: LoadedCaller = Caller::open(rt.alloc(), &limits(None))?;
    let mut theirs = mine.another(rt.alloc())?;
    let numbers = follow(
        &mut mine,
        &mut theirs,
        Call::Put(1, light(5), 0),
        Call::Put(1, light(6), 0),
    );
    same(&rt, "the numbers", numbers, Some((1, 2)));
    same(
        &rt,
        "what left in the second put",
        first_left(&mine),
        (1, Some((1, light(5), Cause::Replaced))),
    );
    Ok(())
}

#[test]
fn a_meeting_leaves_number_and_notices(rt: HostRuntime) -> Result<(), Fail> {
    let mut mine: LoadedCaller = Caller::open(rt.alloc(), &limits(None))?;
    let theirs = mine.another(rt.alloc())?;
    meet_lawfully(&mut mine, &theirs);
    same(
        &rt,
        "the look",
        reply_to(&mut mine, Do::Look, 1, 0),
        Ok(PlainReply::Absent),
    );
    let mut third = mine.another(rt.alloc())?;
    meet_lawfully(&mut third, &mine);
    same(
        &rt,
        "the callers",
        (mine.number(), third.number(), first_left(&third)),
        (1, 0, (0, None)),
    );
    holds(&rt, "nothing left", third.left().is_empty());
    Ok(())
}
