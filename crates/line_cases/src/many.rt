//! Many items and many volumes, so that every digit of a line's numbers is used.
use crate::common::{count_while, take, transport};
use case_words::answer::moved;
use case_words::settings::USUAL;
use line::line_transport::LineTransport;
use line::settings::Settings;
use line_text::lines::{MARK_SIZE, block_head_of, head_of};
use std::alloc::Global;
use std::str::from_utf8;
use tape::item::ItemRef;
use tape::place::Place;
use tape::transport::Transport;

// Room for 123 marks, of 36 bytes each, and no more.
const ITEMS: Settings = Settings {
    tracks: 1,
    volumes: 1,
    room: 4428,
    ..USUAL
};

const VOLUMES: Settings = Settings {
    tracks: 1,
    volumes: 49,
    ..USUAL
};

// The last line, which is a mark's: its bytes as they are, so that its line feed is seen too.
fn show_last(rt: &impl Print, line: &LineTransport) -> anyhow::Result<()> {
    let text = line.text();
    let last = &text[text.len().saturating_sub(MARK_SIZE)..];
    print!(rt; "{}", from_utf8(last)?)?;
    Ok(())
}

// Marks until one is not taken, and how many are.
fn marks(line: &mut LineTransport, n: usize) -> usize {
    count_while(n, || line.write(ItemRef::Mark).is_ok())
}

fn items(rt: &impl Print, alloc: Global) -> anyhow::Result<()> {
    let mut from = transport(alloc, ITEMS)?;
    let written = marks(&mut from, 123);
    let mut to = transport(alloc, ITEMS)?;
    let taking = take(&mut to, from.text());
    println!(rt; "many items: {written} {taking}")?;
    show_last(rt, &from)
}

// A mark on each volume.
fn volumes(rt: &impl Print, alloc: Global) -> anyhow::Result<()> {
    let mut line = transport(alloc, VOLUMES)?;
    let mut written = marks(&mut line, 1);
    for _ in 0..48 {
        let _ = line.mount();
        written = written.saturating_add(marks(&mut line, 1));
    }
    let more = moved(line.mount());
    println!(rt; "many volumes: {written}, one more={more}")?;
    show_last(rt, &line)
}

// The parts of a line with numbers that use every digit.
fn parts(rt: &impl Print) -> anyhow::Result<()> {
    let head = head_of(Place {
        volume: 49,
        track: 2,
        item: 98765,
    });
    let block = block_head_of(234);
    println!(rt;
        "parts of a line: {}{}",
        from_utf8(&head)?,
        from_utf8(&block)?
    )?;
    Ok(())
}

pub(crate) fn run(rt: &impl Print, alloc: Global) -> anyhow::Result<()> {
    items(rt, alloc)?;
    volumes(rt, alloc)?;
    parts(rt)
}
