//! Room: a write fails exactly where its line does not fit, and from then on all but the questions
//! is turned down.
use crate::common::{At, passed, seen, transport};
use case_words::answer::{found, moved, written, yes};
use case_words::blank::FRONT;
use case_words::settings::USUAL;
use case_words::status::StatusWords;
use line::line_transport::LineTransport;
use line::settings::Settings;
use std::alloc::Global;
use std::io;
use tape::bounds::LONGEST_BLOCK;
use tape::item::ItemRef;
use tape::status::Status;
use tape::transport::Transport;

const TWO_MARKS: &[u8] = b"vol=01 track=1 item=00001 kind=mark\n\
vol=01 track=1 item=00002 kind=mark\n";

fn calls(rt: &impl Print, line: &mut LineTransport) -> io::Result<()> {
    let write = written(line.write(ItemRef::Mark));
    let look = seen(line.look());
    let read = passed(line.read(&mut [0; LONGEST_BLOCK]));
    let rewind = moved(line.rewind());
    println!(rt; "  write={write} look={look} read={read} rewind={rewind}")?;
    let next = moved(line.next_track());
    let mount = moved(line.mount());
    let following = found(line.following());
    println!(rt; "  next track={next} mount={mount} following={following}")
}

fn questions(rt: &impl Print, line: &LineTransport) -> io::Result<()> {
    let status = Status::of(line);
    println!(rt; "  place={} {}", At(status.place), StatusWords(status))
}

// Marks until one fails, then each function, and what the tape still has.
fn filled(rt: &impl Print, alloc: Global, room: usize) -> anyhow::Result<()> {
    let mut line = transport(alloc, Settings { room, ..USUAL })?;
    print!(rt; "room {room}, three marks:")?;
    for _ in 0..3 {
        print!(rt; " {}", written(line.write(ItemRef::Mark)))?;
    }
    println!(rt; " used={}", line.text().len())?;
    calls(rt, &mut line)?;
    questions(rt, &line)?;
    let same = yes(line.text() == TWO_MARKS);
    println!(rt; "  two marks={same}")?;
    Ok(())
}

fn block(rt: &impl Print, alloc: Global, room: usize, bytes: &[u8]) -> anyhow::Result<()> {
    let mut line = transport(alloc, Settings { room, ..USUAL })?;
    let size = bytes.len();
    let word = written(line.write(ItemRef::Block(bytes)));
    let failed = yes(line.failed());
    let used = line.text().len();
    println!(rt; "room {room}, a block of {size}: {word} failed={failed} used={used}")?;
    Ok(())
}

// A write that cannot apply is turned down where its line would not fit either.
fn down_first(rt: &impl Print, alloc: Global) -> anyhow::Result<()> {
    let mut line = transport(alloc, Settings { room: 10, ..USUAL })?;
    let empty = written(line.write(ItemRef::Block(b"")));
    let failed = yes(line.failed());
    let mark = written(line.write(ItemRef::Mark));
    println!(rt; "an empty block without room: {empty} failed={failed}, then a mark: {mark}")?;
    Ok(())
}

// A text that is taken ends the failure.
fn taken_after(rt: &impl Print, alloc: Global) -> anyhow::Result<()> {
    let mut line = transport(alloc, Settings { room: 72, ..USUAL })?;
    for _ in 0..3 {
        let _ = line.write(ItemRef::Mark);
    }
    let before = yes(line.failed());
    let taken = yes(line.take(TWO_MARKS).is_ok());
    let after = yes(line.failed());
    let first = yes(line.place() == FRONT);
    let look = seen(line.look());
    println!(rt;
        "a text after a failure: failed={before} taken={taken} failed={after} at the first={first} look={look}"
    )?;
    Ok(())
}

pub(crate) fn run(rt: &impl Print, alloc: Global) -> anyhow::Result<()> {
    filled(rt, alloc, 72)?;
    filled(rt, alloc, 71)?;
    filled(rt, alloc, 108)?;
    block(rt, alloc, 53, b"A")?;
    block(rt, alloc, 52, b"A")?;
    block(rt, alloc, 563, &[7; 256])?;
    block(rt, alloc, 562, &[7; 256])?;
    block(rt, alloc, 50, b"A")?;
    down_first(rt, alloc)?;
    taken_after(rt, alloc)
}
