// The summary: the numbers of all shards, added up.
ghost use Rattle.std.specs.Prelude.{◌≡◌, ◌++◌, ◌≤◌, IfOk, OnOk, length};
ghost use Rattle.wt_core.specs.Sums.{AreSums};
ghost use Rattle.wt_trace.specs.Report as spec;

use crate::shard::answers::ShardAnswers;
use crate::trace::digits::show_number;
use std::alloc::{AllocError, Global};
use wt_core::Stats;
use wt_keys::NoMemory;

// The sums of the numbers of all shards.
fn totals_of(all: &[ShardAnswers]) -> Stats
    requires { length all.now ≤ 4 }
    ensures { AreSums (λ a. a.stats) result all.now }
{
    let mut sum = Stats::NOTHING;
    for answers in all {
        sum = sum.plus(&answers.stats());
    }
    sum
}

// Appends a label and a number.
#[tactic(auto, unfolding(crate::specs::Report::count_text))]
fn show_count(out: &mut Vec<u8>, label: &str, n: u64) -> Result<(), AllocError>
    ensures { OnOk result (out.new.items ≡ out.old.items ++ spec.count_text label.now n) }
{
    out.extend_from_slice(label.as_bytes())?;
    show_number(out, n)
}

// Appends the summary's line of these numbers.
pub(crate) fn show_numbers(out: &mut Vec<u8>, sum: &Stats) -> Result<(), AllocError>
    ensures { OnOk result (out.new.items ≡ out.old.items ++ spec.summary_of sum.now) }
{
    show_count(out, "lookups ", sum.lookups)?;
    show_count(out, " hits ", sum.hits)?;
    show_count(out, " misses ", sum.misses)?;
    show_count(out, " loads ", sum.loads)?;
    show_count(out, " failed ", sum.failed)?;
    show_count(out, " evicted ", sum.evicted)?;
    show_count(out, " entries ", sum.entries)?;
    show_count(out, " weight ", sum.weight)?;
    out.push(b'\n')?;
    Ok(())
}

/// Appends the summary of shards that were replayed by themselves: the sums of their numbers.
pub fn show_summary(out: &mut Vec<u8>, all: &[ShardAnswers]) -> Result<(), AllocError>
    requires { length all.now ≤ 4 }
    ensures { OnOk result (out.new.items ≡ out.old.items ++ spec.summary all.now) }
{
    let sum = totals_of(all);
    show_numbers(out, &sum)?;
    Ok(())
}

/// Returns the summary's line of these numbers.
pub fn summary_text(alloc: Global, sum: &Stats) -> Result<Vec<u8>, NoMemory>
    ensures { IfOk result (λ out. out.items ≡ spec.summary_of sum.now) }
{
    let mut out = Vec::new(alloc);
    show_numbers(&mut out, sum)?;
    Ok(out)
}
