// Calls of a shard and their replies in plain values, which all tests of the shards use.
mod apart;
mod beside_core;
mod books;
mod caller;
mod compare;
mod loads;
mod missing;
mod numbers;
mod peeks;
mod plain;
mod refusals;
mod ring;
mod run;
mod scene;
mod settling;
mod soak;

use caller::Answer;
use wt_core::{Call, Config, Land, Reply, Weighs};
use wt_keys::Fault;
use wt_shards::{Noted, Shade};
use wt_tests::{Do, Loaded, PlainReply, comparable};

// A reply or a fault, which can be compared.
fn answered(reply: Result<Reply<Loaded>, Fault>) -> PlainReply {
    match reply {
        Ok(reply) => comparable(reply),
        Err(fault) => PlainReply::Refused(fault),
    }
}

// Entries 4, window 1, without expiry; one load may be open, and two steps recorded.
fn config(bound: u64) -> Config {
    Config {
        entries: 4,
        window: 1,
        bound,
        after_write: None,
        after_access: None,
        refresh: None,
        flights: 1,
        ring: 2,
    }
}

// A caller's answer, which can be compared, and its number, or 0.
fn plain_answer(answer: Answer<Loaded>) -> (PlainReply, u64) {
    match answer {
        Ok((reply, step)) => (comparable(reply), step),
        Err(fault) => (PlainReply::Refused(fault), 0),
    }
}

// The outline of a call: a shade in place of its value.
fn shaded(act: Do, key: u64, now: u64) -> Noted<u64> {
    match act {
        Do::Look => Call::Look(key, now),
        Do::Seek => Call::Seek(key, now),
        Do::Keep(id, value) => {
            let shade = Shade {
                measure: value.measure(),
            };
            Call::Land(id, key, Land::Keep(shade), now)
        }
        Do::Loose(id) => Call::Land(id, key, Land::Loose, now),
        Do::Fail(id) => Call::Land(id, key, Land::Failed, now),
        Do::Put(value) => {
            let shade = Shade {
                measure: value.measure(),
            };
            Call::Put(key, shade, now)
        }
        Do::DropKey => Call::DropKey(key, now),
        Do::Clear => Call::Clear(now),
        Do::Forget => Call::Forget(key, now),
        Do::Clean => Call::Clean(now),
        Do::Slide(wider) => Call::Slide { wider, now },
    }
}

// A second of the call.
fn again(call: &Noted<u64>) -> Noted<u64> {
    match call {
        Call::Look(key, now) => Call::Look(*key, *now),
        Call::Seek(key, now) => Call::Seek(*key, *now),
        Call::Land(id, key, what, now) => {
            let what = match what {
                Land::Keep(shade) => Land::Keep(*shade),
                Land::Loose => Land::Loose,
                Land::Failed => Land::Failed,
            };
            Call::Land(*id, *key, what, *now)
        }
        Call::Put(key, shade, now) => Call::Put(*key, *shade, *now),
        Call::DropKey(key, now) => Call::DropKey(*key, *now),
        Call::Clear(now) => Call::Clear(*now),
        Call::Forget(key, now) => Call::Forget(*key, *now),
        Call::Clean(now) => Call::Clean(*now),
        Call::Slide { wider, now } => Call::Slide {
            wider: *wider,
            now: *now,
        },
    }
}
