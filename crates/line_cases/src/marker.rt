//! The marker: which write meets it, and what a track takes behind it.
use crate::common::transport;
use case_words::answer::{moved, written, yes};
use case_words::settings::USUAL;
use line::line_transport::LineTransport;
use line::settings::Settings;
use std::alloc::Global;
use std::io;
use tape::item::ItemRef;
use tape::transport::Transport;

fn marks(rt: &impl Print, line: &mut LineTransport, n: usize) -> io::Result<()> {
    for _ in 0..n {
        let word = written(line.write(ItemRef::Mark));
        let marked = yes(line.marked());
        print!(rt; " {word}/{marked}")?;
    }
    println!(rt)
}

// The answer of each write, and whether the marker is met behind it.
fn met(rt: &impl Print, alloc: Global, marker: usize, n: usize) -> anyhow::Result<()> {
    let mut line = transport(alloc, Settings { marker, ..USUAL })?;
    print!(rt; "marker {marker}:")?;
    marks(rt, &mut line, n)?;
    let bytes = line.text().len();
    let next = moved(line.next_track());
    let marked = yes(line.marked());
    print!(rt; "  bytes={bytes} next track={next} marked={marked}:")?;
    marks(rt, &mut line, 1)?;
    Ok(())
}

fn block(rt: &impl Print, line: &mut LineTransport, bytes: &[u8]) -> io::Result<()> {
    let size = bytes.len();
    let before = line.text().len();
    let word = written(line.write(ItemRef::Block(bytes)));
    let more = line.text().len().saturating_sub(before);
    println!(rt; "  a block of {size}: {word} bytes={more}")
}

fn blocks(rt: &impl Print, line: &mut LineTransport) -> io::Result<()> {
    let bytes = [65u8; 257];
    for size in [0, 1, 32, 33, 256, 257] {
        block(rt, line, bytes.get(..size).unwrap_or(&bytes))?;
    }
    Ok(())
}

fn sizes(rt: &impl Print, alloc: Global) -> anyhow::Result<()> {
    let mut line = transport(
        alloc,
        Settings {
            marker: 10,
            ..USUAL
        },
    )?;
    println!(rt; "before the marker:")?;
    blocks(rt, &mut line)?;
    Ok(())
}

fn sizes_behind(rt: &impl Print, alloc: Global) -> anyhow::Result<()> {
    let mut line = transport(alloc, Settings { marker: 3, ..USUAL })?;
    print!(rt; "behind the marker:")?;
    marks(rt, &mut line, 3)?;
    blocks(rt, &mut line)?;
    Ok(())
}

// The write that meets the marker may be a long block.
fn long_at_marker(rt: &impl Print, alloc: Global) -> anyhow::Result<()> {
    let one = Settings {
        tracks: 1,
        volumes: 1,
        marker: 3,
        ..USUAL
    };
    let mut line = transport(alloc, one)?;
    print!(rt; "a long block at the marker:")?;
    marks(rt, &mut line, 2)?;
    block(rt, &mut line, &[66u8; 256])?;
    Ok(())
}

pub(crate) fn run(rt: &impl Print, alloc: Global) -> anyhow::Result<()> {
    met(rt, alloc, 3, 12)?;
    met(rt, alloc, 4, 13)?;
    sizes(rt, alloc)?;
    sizes_behind(rt, alloc)?;
    long_at_marker(rt, alloc)
}
