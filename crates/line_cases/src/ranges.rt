//! Settings out of their range, one by one, and the edges that are taken.
use crate::common::Refused;
use case_words::answer::yes;
use case_words::blank::is_blank;
use line::line_transport::LineTransport;
use line::settings::Settings;
use std::alloc::Global;
use std::io;
use tape::refusal::SetupError;

const SMALL: Settings = Settings {
    tracks: 2,
    volumes: 2,
    marker: 10,
    room: 100,
};

// Makes a transport with one setting of this value, and tells what came of it.
fn range(
    rt: &impl Print,
    alloc: Global,
    name: &str,
    value: usize,
    chosen: Settings,
) -> io::Result<()> {
    print!(rt; "{name} {value}: ")?;
    match LineTransport::new(alloc, chosen) {
        Ok(line) => println!(rt; "made blank={}", yes(is_blank(&line))),
        Err(SetupError::Refused(refusal)) => rt.println(Refused(refusal)),
        Err(error) => rt.println(error),
    }
}

// Each of these values of one setting, with `set` to choose it.
fn values<F: Fn(usize) -> Settings>(
    rt: &impl Print,
    alloc: Global,
    name: &str,
    values: &[usize],
    set: F,
) -> io::Result<()>
    requires { F.IsAlwaysCallable set }
{
    for value in values {
        range(rt, alloc, name, *value, set(*value))?;
    }
    Ok(())
}

pub(crate) fn run(rt: &impl Print, alloc: Global) -> io::Result<()> {
    let tracks = |tracks| Settings { tracks, ..SMALL };
    let volumes = |volumes| Settings { volumes, ..SMALL };
    let marker = |marker| Settings { marker, ..SMALL };
    let room = |room| Settings { room, ..SMALL };
    values(rt, alloc, "tracks", &[0, 3], &tracks)?;
    values(rt, alloc, "volumes", &[0, 50], &volumes)?;
    values(rt, alloc, "marker", &[2, 60001], &marker)?;
    values(rt, alloc, "tracks", &[1, 2], &tracks)?;
    values(rt, alloc, "volumes", &[1, 49], &volumes)?;
    values(rt, alloc, "marker", &[3, 60000], &marker)?;
    values(rt, alloc, "room", &[0], &room)
}
