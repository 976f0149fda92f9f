// The answer of a call as C reads it.
ghost use Rattle.std.specs.Prelude.{◌≡◌};
ghost use Rattle.wt_ffi.specs.Calls.{answer_of, number_of};

use crate::token::Timed;
use wt_core::Reply;

/// The answer of a call: `rd_answer` of the header.
#[repr(C)]
#[derive(Clone, Copy, PartialEq, Eq)]
pub struct Answer {
    /// Which answer it is, from 1; 0 if memory was refused.
    pub kind: u32,
    /// The weight of the token of a hit.
    pub weight: u32,
    /// The token of a hit.
    pub token: u64,
    /// A load's id, the number of its sharers, whether there was something, or the fault's number.
    pub number: u64,
    /// How many notices the call left for `rd_get_notice`.
    pub notices: u64,
}

// The answer that C gets for a reply of the cache.
#[inline(always)]
pub(crate) fn answer_of(reply: &Reply<Timed>, notices: u64) -> Answer
    ensures { result ≡ answer_of reply.now notices }
{
    let mut answer = Answer {
        kind: 0,
        weight: 0,
        token: 0,
        number: 0,
        notices,
    };
    match reply {
        Reply::Hit(value) => {
            answer.kind = 1;
            answer.weight = value.weight;
            answer.token = value.token;
        }
        Reply::Absent => answer.kind = 2,
        Reply::HitLead(value, id) => {
            answer.kind = 3;
            answer.weight = value.weight;
            answer.token = value.token;
            answer.number = *id;
        }
        Reply::Join(id) => {
            answer.kind = 4;
            answer.number = *id;
        }
        Reply::Lead(id) => {
            answer.kind = 5;
            answer.number = *id;
        }
        Reply::Kept(sharers) => {
            answer.kind = 6;
            answer.number = *sharers;
        }
        Reply::Loose(sharers) => {
            answer.kind = 7;
            answer.number = *sharers;
        }
        Reply::Failed(sharers) => {
            answer.kind = 8;
            answer.number = *sharers;
        }
        Reply::Gone => answer.kind = 9,
        Reply::Stored => answer.kind = 10,
        Reply::Dropped(was) => {
            answer.kind = 11;
            answer.number = *was as u64;
        }
        Reply::Cleared => answer.kind = 12,
        Reply::Forgot(was) => {
            answer.kind = 13;
            answer.number = *was as u64;
        }
        Reply::Cleaned => answer.kind = 14,
        Reply::Refused(fault) => {
            answer.kind = 15;
            answer.number = fault.number();
        }
        Reply::Slid(moved) => {
            answer.kind = 16;
            answer.number = *moved as u64;
        }
    }
    answer
}

// The number that a call returns: the fault's, or 0.
#[inline(always)]
pub(crate) fn number_of(reply: &Reply<Timed>) -> u64
    ensures { result ≡ number_of reply.now }
{
    match reply {
        Reply::Refused(fault) => fault.number(),
        _ => 0,
    }
}
