//! The head on its way over tracks and volumes.
use crate::common::{At, passed, seen, transport};
use case_words::answer::{Answer, found, moved, written, yes};
use case_words::settings::USUAL;
use line::line_transport::LineTransport;
use line::settings::Settings;
use std::alloc::Global;
use std::io;
use tape::bounds::LONGEST_BLOCK;
use tape::item::ItemRef;
use tape::transport::Transport;

// A transport whose head is moved, and where each move is told.
#[derive(Drop)]
struct Moves<'a, R> {
    rt: &'a R,
    line: LineTransport,
}

impl<R: Print> Moves<'_, R> {
    // Where the head stands, and what comes next there.
    fn here(&mut self) -> io::Result<()> {
        let look = seen(self.line.look());
        println!(self.rt; " at {} look={look}", At(self.line.place()))
    }

    // Tells what a call came to. The word is made before: the check refuses a closure that returns an
    // `Answer`, for the `&'static str` in it ("a field that is a reference is given a reference at
    // another lifetime"), and one that returns any `A: fmt::Display` is no shorter.
    fn step(&mut self, call: &str, name: &str, word: Answer) -> io::Result<()> {
        print!(self.rt; "{call} {name}: {word}")?;
        self.here()
    }

    fn next(&mut self, name: &str) -> io::Result<()> {
        let word = moved(self.line.next_track());
        self.step("next track", name, word)
    }

    fn follow(&mut self, name: &str) -> io::Result<()> {
        let word = found(self.line.following());
        self.step("following", name, word)
    }

    fn rewind(&mut self, name: &str) -> io::Result<()> {
        let word = moved(self.line.rewind());
        self.step("rewind", name, word)
    }

    fn write(&mut self, name: &str) -> io::Result<()> {
        let word = written(self.line.write(ItemRef::Mark));
        self.step("write", name, word)
    }

    fn pass(&mut self, name: &str) -> io::Result<()> {
        let word = passed(self.line.read(&mut [0; LONGEST_BLOCK]));
        self.step("read", name, word)
    }

    fn mount(&mut self, name: &str) -> io::Result<()> {
        let word = moved(self.line.mount());
        print!(self.rt; "mount {name}: {word} tracks={}", self.line.all_tracks())?;
        self.here()
    }

    fn seek(&mut self, k: usize) -> io::Result<()> {
        let there = yes(self.line.seek_track(k));
        print!(self.rt; "seek {k}: {there}")?;
        self.here()
    }

    fn tracks(&mut self) -> io::Result<()> {
        self.next("from a blank track")?;
        self.mount("on a blank tape")?;
        self.write("on track 1")?;
        self.mount("on track 1 of two")?;
        self.next("behind an item")?;
        self.mount("on a blank track 2")?;
        self.next("from a blank volume")?;
        self.write("in volume 2")?;
        self.next("in volume 2")?;
        self.write("on its track 2")?;
        self.next("on a last track")?;
        self.mount("with no volume left")
    }

    fn volumes(&mut self) -> io::Result<()> {
        self.rewind("from the end")?;
        self.write("before the last item")?;
        self.follow("from volume 1")?;
        self.follow("from the last volume")?;
        self.seek(4)?;
        self.seek(1)?;
        self.write("on a blank track before items")?;
        self.seek(3)?;
        self.pass("the only item")?;
        self.pass("at the track's end")?;
        self.write("behind what was read")
    }

    fn mounts(&mut self) -> io::Result<()> {
        self.write("a first mark")?;
        self.write("a second mark")?;
        self.rewind("over both")?;
        self.mount("before both")?;
        self.pass("the first")?;
        self.mount("before the second")?;
        self.pass("the second")?;
        self.mount("behind both")?;
        self.mount("once more")
    }
}

pub(crate) fn run(rt: &impl Print, alloc: Global) -> anyhow::Result<()> {
    let line = transport(alloc, USUAL)?;
    let mut moves = Moves { rt, line };
    moves.tracks()?;
    moves.volumes()?;
    moves.line = transport(alloc, Settings { tracks: 1, ..USUAL })?;
    moves.mounts()?;
    Ok(())
}
