// The first line of a trace, which may be a header that announces keys that are names.
ghost use Rattle.std.specs.Prelude.{◌≡◌, IfSome, IsNone, false};
ghost use Rattle.wt_trace.specs.Trace.{IsBehindHeader, lines_of, is_header};

use crate::trace::bytes::cut;

// The first line of a trace whose keys are names. It counts as line 1.
const HEADER: &[u8] = b"wt 2";

/// Returns the bytes behind a header, if the first line is one: `wt 2`, which announces that the
/// keys are names.
#[tactic(auto, using(crate::proofs::Reports::header_first, crate::proofs::Reports::behind_first))]
pub fn behind_header(bytes: &[u8]) -> Option<&[u8]>
    ensures some { IfSome result (λ rest. IsBehindHeader bytes.now rest.now) }
    ensures none { IsNone result → is_header (lines_of bytes.now) ≡ false }
{
    let (first, rest) = cut(bytes, b'\n');
    if first == HEADER { Some(rest) } else { None }
}
