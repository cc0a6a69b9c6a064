//! A round trip: what is written on two tracks of two volumes is handed out as text, and taken again.
use crate::common::{pass_track, take, transport};
use case_words::answer::yes;
use case_words::settings::USUAL;
use line::line_transport::LineTransport;
use std::alloc::Global;
use std::io;
use std::str::from_utf8;
use tape::item::ItemRef;
use tape::transport::{Fault, Transport};

const WRITTEN: &[u8] = b"vol=01 track=1 item=00001 kind=block size=005 hex=48656C6C6F\n\
vol=01 track=1 item=00002 kind=mark\n\
vol=01 track=2 item=00001 kind=mark\n\
vol=01 track=2 item=00002 kind=block size=003 hex=00AFFA\n\
vol=02 track=1 item=00001 kind=mark\n\
vol=02 track=2 item=00001 kind=block size=001 hex=9A\n";

fn first_volume(line: &mut LineTransport) -> Result<bool, Fault> {
    line.write(ItemRef::Block(b"Hello"))?;
    line.write(ItemRef::Mark)?;
    line.next_track()?;
    line.write(ItemRef::Mark)?;
    line.write(ItemRef::Block(&[0, 175, 250]))
}

fn second_volume(line: &mut LineTransport) -> Result<bool, Fault> {
    line.mount()?;
    line.write(ItemRef::Mark)?;
    line.next_track()?;
    line.write(ItemRef::Block(&[154]))
}

fn write(rt: &impl Print, line: &mut LineTransport) -> anyhow::Result<()> {
    let first = yes(first_volume(line).is_ok());
    let second = yes(second_volume(line).is_ok());
    let same = yes(line.text() == WRITTEN);
    println!(rt; "round trip: volume 1={first} volume 2={second} as written={same}")?;
    print!(rt; "{}", from_utf8(line.text())?)?;
    Ok(())
}

fn tracks(rt: &impl Print, line: &mut LineTransport) -> io::Result<()> {
    print!(rt; "taken again, items:")?;
    for k in 0..line.all_tracks() {
        print!(rt; " {}", pass_track(line, k))?;
    }
    println!(rt)
}

pub(crate) fn run(rt: &impl Print, alloc: Global) -> anyhow::Result<()> {
    let mut from = transport(alloc, USUAL)?;
    write(rt, &mut from)?;
    let mut to = transport(alloc, USUAL)?;
    println!(rt; "taken again: {}", take(&mut to, from.text()))?;
    tracks(rt, &mut to)?;
    Ok(())
}
