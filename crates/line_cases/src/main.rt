//! Cases of the line transport: texts that must be refused, texts that must be taken, settings, room,
//! marker, head, reads, a round trip, and long tapes. Each case prints what came of it.
#![tactic(auto)]

mod bad;
mod common;
mod good;
mod head;
mod many;
mod marker;
mod ranges;
mod reads;
mod room;
mod trip;

use std::alloc::Global;

fn run(rt: &impl Print, alloc: Global) -> anyhow::Result<()> {
    bad::run(rt, alloc)?;
    good::run(rt, alloc)?;
    ranges::run(rt, alloc)?;
    room::run(rt, alloc)?;
    marker::run(rt, alloc)?;
    head::run(rt, alloc)?;
    reads::run(rt, alloc)?;
    trip::run(rt, alloc)?;
    many::run(rt, alloc)
}

fn main(rt: HostRuntime) -> anyhow::Result<()> {
    run(&rt, rt.alloc())
}
