//! Seven examples, each a module that prints what its caches return.
#![tactic(auto)]

mod first;
mod loads;
mod names;
mod pure;
mod refresh;
mod shards;
mod weights;

fn main(rt: HostRuntime) -> anyhow::Result<()> {
    let alloc = rt.alloc();
    println!(rt; "-- first")?;
    first::show(&rt, alloc)?;
    println!(rt; "-- weights")?;
    weights::show(&rt, alloc)?;
    println!(rt; "-- refresh")?;
    refresh::show(&rt, alloc)?;
    println!(rt; "-- loads")?;
    loads::show(&rt, alloc)?;
    println!(rt; "-- shards")?;
    shards::show(&rt, alloc)?;
    println!(rt; "-- names")?;
    names::show(&rt, alloc)?;
    println!(rt; "-- pure")?;
    pure::show(&rt, alloc)?;
    Ok(())
}
