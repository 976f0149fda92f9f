// Prints the words of a report: those for a reply, and those for entries that left the cache.
ghost use Rattle.std.specs.Prelude.{◌≡◌, ◌++◌, OnOk, decimal};
ghost use Rattle.wt_trace.specs.Words as spec;

use crate::shard::version::Version;
use crate::trace::digits::show_number;
use crate::trace::key::TraceKey;
use std::alloc::AllocError;
use wt_core::{Cause, Notice, Reply};
use wt_keys::Fault;

// The name of a cause.
fn name_of(cause: Cause) -> &'static str
    ensures { result.now ≡ spec.cause_name cause }
{
    match cause {
        Cause::Explicit => "explicit",
        Cause::Replaced => "replaced",
        Cause::Expired => "expired",
        Cause::Size => "size",
    }
}

// Appends a text.
pub(crate) fn show(out: &mut Vec<u8>, text: &str) -> Result<(), AllocError>
    ensures { OnOk result (out.new.items ≡ out.old.items ++ text.now) }
{
    out.extend_from_slice(text.as_bytes())
}

// Appends a text and a number.
pub(crate) fn show_with(out: &mut Vec<u8>, text: &str, n: u64) -> Result<(), AllocError>
    ensures { OnOk result (out.new.items ≡ out.old.items ++ (text.now ++ decimal n)) }
{
    show(out, text)?;
    show_number(out, n)
}

// Appends a notice: a space, the key, the version and the cause.
fn show_notice<K: TraceKey>(
    out: &mut Vec<u8>,
    notice: &Notice<K, Version<K>>,
) -> Result<(), AllocError>
    ensures { OnOk result (out.new.items ≡ out.old.items ++ spec.notice_text K.shown notice.now) }
{
    show(out, " ")?;
    notice.key.show(out)?;
    show_with(out, ":", notice.value.line)?;
    show(out, ":")?;
    show(out, name_of(notice.cause))
}

// Appends notices in their order.
pub(crate) fn show_notices<K: TraceKey>(
    out: &mut Vec<u8>,
    notices: &[Notice<K, Version<K>>],
) -> Result<(), AllocError>
    ensures { OnOk result (out.new.items ≡ out.old.items ++ spec.notices_text K.shown notices.now) }
{
    for notice in notices {
        show_notice(out, notice)?;
    }
    Ok(())
}

// Appends the words of a reply; for a step at every shard the first shard speaks.
pub(crate) fn show_reply<K>(
    out: &mut Vec<u8>,
    shard: usize,
    reply: &Reply<Version<K>>,
) -> Result<(), AllocError>
    ensures { OnOk result (out.new.items ≡ out.old.items ++ spec.words_of shard reply.now) }
{
    match reply {
        Reply::Hit(value) => show_with(out, " hit ", value.line),
        Reply::Absent => show(out, " absent"),
        Reply::HitLead(value, id) => {
            show_with(out, " hit ", value.line)?;
            show_with(out, " lead ", *id)
        }
        Reply::Join(id) => show_with(out, " join ", *id),
        Reply::Lead(id) => show_with(out, " lead ", *id),
        Reply::Kept(sharers) => show_with(out, " land ", *sharers),
        Reply::Loose(sharers) => show_with(out, " loose ", *sharers),
        Reply::Failed(_) => show(out, " fail 7"),
        Reply::Gone => show(out, " none"),
        Reply::Stored => show(out, " put"),
        Reply::Dropped(left) => show(out, if *left { " drop" } else { " absent" }),
        Reply::Cleared => show(out, if shard == 0 { " clear" } else { "" }),
        Reply::Forgot(was) => show(out, if *was { " forget" } else { " none" }),
        Reply::Cleaned => show(out, if shard == 0 { " clean" } else { "" }),
        // No line of a trace makes a slide.
        Reply::Slid(_) => Ok(()),
        Reply::Refused(Fault::TooHeavy { .. }) => show(out, " heavy"),
        Reply::Refused(Fault::TooManyFlights { .. }) => show(out, " full"),
        Reply::Refused(_) => Ok(()),
    }
}

// Appends the words of a load that was landed at once.
pub(crate) fn show_loaded<K>(out: &mut Vec<u8>, reply: &Reply<Version<K>>) -> Result<(), AllocError>
    ensures { OnOk result (out.new.items ≡ out.old.items ++ spec.loaded_words reply.now) }
{
    match reply {
        Reply::Kept(_) => show(out, " load"),
        other => show_reply(out, 0, other),
    }
}
