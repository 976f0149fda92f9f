// Which steps are recorded, in a shard with one load and two places.
use super::compare::same;
use super::run::Run;
use super::scene::{Scene, plays};
use super::{answered, config};
use std::alloc::Global;
use std::process::Abort;
use std::test::Fail;
use wt_core::Config;
use wt_keys::Fault;
use wt_shards::Names;
use wt_tests::{Do, Loaded, PlainReply, call_of, light};

// What is done to a key, what is answered, and then how many records were dropped and how many are
// kept.
type Row = (Do, u64, PlainReply, u64, usize);

// In a shard whose bound is 5.
fn rows() -> [Row; 7] {
    let heavy = Loaded {
        version: 9,
        weight: 10,
        life: 0,
    };
    let fault = Fault::TooHeavy {
        weight: 10,
        bound: 5,
    };
    [
        (Do::Put(light(1)), 1, PlainReply::Stored, 0, 1),
        (Do::Put(light(2)), 2, PlainReply::Stored, 0, 2),
        (Do::Put(light(3)), 3, PlainReply::Stored, 1, 2),
        (Do::Seek, 4, PlainReply::Lead(1), 3, 1),
        (Do::Loose(1), 4, PlainReply::Loose(1), 3, 2),
        // A refused call is no step.
        (Do::Put(heavy), 5, PlainReply::Refused(fault), 3, 2),
        // A load that isn't open is a step, and has no place of its own.
        (Do::Loose(1), 4, PlainReply::Gone, 4, 2),
    ]
}

#[derive(Drop)]
struct Recorded {}

impl Scene<Loaded> for Recorded {
    fn play<N: Names, R: Abort>(
        &self,
        rt: &R,
        _alloc: Global,
        _limits: &Config,
        run: &mut Run<Loaded, N>,
    ) -> Result<(), Fault> {
        for (act, key, answer, dropped, kept) in rows() {
            let reply = run.make(call_of(act, key, 0));
            same(rt, "the reply", answered(reply), answer);
            same(
                rt,
                "records dropped and kept",
                run.records(),
                (dropped, kept),
            );
        }
        Ok(())
    }
}

#[test]
fn a_place_is_kept_for_the_open_load(rt: HostRuntime) -> Result<(), Fail> {
    plays(&rt, rt.alloc(), &config(5), &Recorded {})?;
    Ok(())
}
