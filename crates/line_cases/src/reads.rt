//! Reads into buffers that are too short, just long enough, and longer.
use crate::common::{passed, seen, transport};
use case_words::answer::{written, yes};
use case_words::settings::USUAL;
use line::line_transport::LineTransport;
use std::alloc::Global;
use std::io;
use tape::item::{ItemRef, Kind};
use tape::transport::Transport;

// A block's size, and 0 of anything else, as the stored output has it.
fn block_size(kind: Option<Kind>) -> usize {
    match kind {
        Some(Kind::Block(size)) => size,
        _ => 0,
    }
}

// Reads into a buffer, and tells whether it then holds what it should.
fn read(
    rt: &impl Print,
    line: &mut LineTransport,
    buffer: &mut [u8],
    wanted: &[u8],
) -> io::Result<()> {
    let room = buffer.len();
    let answer = line.read(buffer);
    let word = passed(answer);
    let size = block_size(answer.ok());
    let holds = yes(*buffer == *wanted);
    let item = line.place().item;
    let next = line.look();
    let look = seen(next);
    let ahead = block_size(next.ok().flatten());
    println!(rt;
        "buffer of {room}: {word} size={size} holds={holds} item={item} look={look} size={ahead}"
    )
}

fn recorded(rt: &impl Print, line: &mut LineTransport) -> io::Result<()> {
    let block = written(line.write(ItemRef::Block(b"WXYZ")));
    let mark = written(line.write(ItemRef::Mark));
    let long = written(line.write(ItemRef::Block(&[200u8; 256])));
    let back = yes(line.rewind().is_ok());
    println!(rt; "reads: {block} {mark} {long} back={back}")
}

pub(crate) fn run(rt: &impl Print, alloc: Global) -> anyhow::Result<()> {
    let mut line = transport(alloc, USUAL)?;
    recorded(rt, &mut line)?;
    read(rt, &mut line, &mut [1, 2, 3], &[1, 2, 3])?;
    read(rt, &mut line, &mut [9; 6], b"WXYZ\x09\x09")?;
    read(rt, &mut line, &mut [], b"")?;
    read(rt, &mut line, &mut [9; 255], &[9; 255])?;
    read(rt, &mut line, &mut [9; 256], &[200; 256])?;
    read(rt, &mut line, &mut [9; 2], &[9; 2])?;
    let _ = line.rewind();
    read(rt, &mut line, &mut [9; 4], b"WXYZ")?;
    Ok(())
}
