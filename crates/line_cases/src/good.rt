//! Texts that must be taken: each is handed out again byte for byte, its tracks with items count as
//! marked with their eight writes taken, and a blank track is as new.
use crate::common::{pass_all, pass_track, take, transport};
use case_words::answer::{Answer, written, yes};
use case_words::settings::USUAL;
use line::line_transport::LineTransport;
use line::settings::Settings;
use std::alloc::Global;
use std::io;
use tape::item::ItemRef;
use tape::transport::Transport;

const MARK: &[u8] = b"vol=01 track=1 item=00001 kind=mark\n";

const TWO_TRACKS: &[u8] = b"vol=01 track=1 item=00001 kind=mark\n\
vol=01 track=1 item=00002 kind=block size=002 hex=00FF\n\
vol=01 track=2 item=00001 kind=block size=001 hex=7E\n";

const SECOND_TRACK: &[u8] = b"vol=01 track=2 item=00001 kind=mark\n";

const SECOND_VOLUME: &[u8] = b"vol=02 track=1 item=00001 kind=mark\n";

const BLANK_VOLUME: &[u8] = b"vol=01 track=1 item=00001 kind=mark\n\
vol=03 track=1 item=00001 kind=mark\n\
vol=03 track=1 item=00002 kind=mark\n";

const THREE_VOLUMES: Settings = Settings {
    volumes: 3,
    ..USUAL
};

// Of each track: how many items it has, and whether its marker is met.
fn show_tracks(rt: &impl Print, line: &mut LineTransport) -> io::Result<()> {
    for k in 0..line.all_tracks() {
        let items = pass_track(line, k);
        let marked = if line.marked() { "m" } else { "" };
        print!(rt; " {items}{marked}")?;
    }
    Ok(())
}

// A mark behind the last item of a track.
fn one_more(line: &mut LineTransport, k: usize) -> Answer {
    if !line.seek_track(k) {
        return Answer(Ok("no track"));
    }
    let _ = pass_all(line);
    written(line.write(ItemRef::Mark))
}

fn good(
    rt: &impl Print,
    alloc: Global,
    name: &str,
    text: &[u8],
    last: usize,
) -> anyhow::Result<()> {
    let mut line = transport(alloc, THREE_VOLUMES)?;
    print!(rt; "{name}: {} tracks", take(&mut line, text))?;
    show_tracks(rt, &mut line)?;
    let on_last = one_more(&mut line, last);
    let still = yes(line.text() == text);
    let behind = one_more(&mut line, last.saturating_add(1));
    println!(rt; " on the last={on_last} same={still} behind it={behind}")?;
    Ok(())
}

// A text in place of another.
fn again(rt: &impl Print, alloc: Global) -> anyhow::Result<()> {
    let mut line = transport(alloc, THREE_VOLUMES)?;
    let first = yes(line.take(BLANK_VOLUME).is_ok());
    let second = yes(line.take(SECOND_TRACK).is_ok());
    let same = yes(line.text() == SECOND_TRACK);
    let tracks = line.all_tracks();
    println!(rt; "one text after another: {first} {second} same={same} tracks={tracks}")?;
    Ok(())
}

pub(crate) fn run(rt: &impl Print, alloc: Global) -> anyhow::Result<()> {
    good(rt, alloc, "empty text", b"", 0)?;
    good(rt, alloc, "one mark", MARK, 0)?;
    good(rt, alloc, "two tracks", TWO_TRACKS, 1)?;
    good(rt, alloc, "track 2 only", SECOND_TRACK, 1)?;
    good(rt, alloc, "volume 2 only", SECOND_VOLUME, 2)?;
    good(rt, alloc, "a blank volume in the middle", BLANK_VOLUME, 4)?;
    again(rt, alloc)
}
