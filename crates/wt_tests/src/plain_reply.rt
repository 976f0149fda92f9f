//! The replies of steps, in a form that tests can compare.
use crate::loaded::Loaded;
use wt_core::Reply;
use wt_keys::Fault;

/// A reply that can be compared.
#[derive(Clone, Copy, Debug, PartialEq, Eq)]
pub enum PlainReply {
    Hit(Loaded),
    Absent,
    HitLead(Loaded, u64),
    Join(u64),
    Lead(u64),
    Kept(u64),
    Loose(u64),
    Failed(u64),
    Gone,
    Stored,
    Dropped(bool),
    Cleared,
    Forgot(bool),
    Cleaned,
    Slid(bool),
    Refused(Fault),
}

/// Returns the reply as one that can be compared.
pub fn comparable(reply: Reply<Loaded>) -> PlainReply {
    match reply {
        Reply::Hit(value) => PlainReply::Hit(value),
        Reply::Absent => PlainReply::Absent,
        Reply::HitLead(value, id) => PlainReply::HitLead(value, id),
        Reply::Join(id) => PlainReply::Join(id),
        Reply::Lead(id) => PlainReply::Lead(id),
        Reply::Kept(sharers) => PlainReply::Kept(sharers),
        Reply::Loose(sharers) => PlainReply::Loose(sharers),
        Reply::Failed(sharers) => PlainReply::Failed(sharers),
        Reply::Gone => PlainReply::Gone,
        Reply::Stored => PlainReply::Stored,
        Reply::Dropped(left) => PlainReply::Dropped(left),
        Reply::Cleared => PlainReply::Cleared,
        Reply::Forgot(was) => PlainReply::Forgot(was),
        Reply::Cleaned => PlainReply::Cleaned,
        Reply::Slid(moved) => PlainReply::Slid(moved),
        Reply::Refused(fault) => PlainReply::Refused(fault),
    }
}
