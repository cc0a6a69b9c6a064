//! What a line transport has beside the interface: its making, its text, and its tracks.
use crate::bench::Bench;
use crate::words::{Refused, number, put_hex};
use case_words::answer::{found, yes};
use case_words::blank::is_blank;
use case_words::settings::USUAL;
use line::line_transport::LineTransport;
use line::settings::Settings;
use std::io;
use tape::refusal::SetupError;

// The number behind a name, up to the next space.
fn setting(argument: &str, name: &str, usual: usize) -> usize {
    argument.split_once(name).map_or(usual, |(_, rest)| {
        number(rest.split(' ').next().unwrap_or(rest))
    })
}

/// The settings that a `new` names, and the usual ones for the others.
pub(crate) fn settings(argument: &str) -> Settings {
    Settings {
        tracks: setting(argument, "tracks=", USUAL.tracks),
        volumes: setting(argument, "volumes=", USUAL.volumes),
        marker: setting(argument, "marker=", USUAL.marker),
        room: setting(argument, "room=", USUAL.room),
    }
}

/// A recorded text with a line more.
pub(crate) fn with_line(mut recorded: Vec<u8>, line: &str) -> Vec<u8> {
    let _ = recorded.extend_from_slice(line.as_bytes());
    let _ = recorded.push(b'\n');
    recorded
}

impl<R: Print + AllocGlobal> Bench<'_, R, LineTransport> {
    fn make(&mut self, argument: &str) -> io::Result<()> {
        match LineTransport::new(self.rt.alloc(), settings(argument)) {
            Ok(made) => {
                self.tape = made;
                self.rt.println("made")
            }
            Err(SetupError::Refused(refusal)) => self.rt.println(Refused(refusal)),
            Err(error) => self.rt.println(error),
        }
    }

    fn offer(&mut self, text: &[u8]) -> io::Result<()> {
        match self.tape.take(text) {
            Ok(()) => println!(self.rt; "taken same={}", yes(self.tape.text() == text)),
            Err(refusal) => {
                let blank = yes(is_blank(&self.tape));
                println!(self.rt; "{} blank={blank}", Refused(refusal))
            }
        }
    }

    /// Takes a recorded text at its dot, behind which bytes stand in place of the last line feed.
    pub(crate) fn take(&mut self, mut recorded: Vec<u8>, dot: &str) -> io::Result<()> {
        if dot != "." {
            let _ = recorded.pop();
            put_hex(&mut recorded, dot.strip_prefix('.').unwrap_or(""));
        }
        self.offer(recorded.as_slice())
    }

    fn again(&mut self) -> io::Result<()> {
        let mut text = Vec::new(self.rt.alloc());
        let _ = text.extend_from_slice(self.tape.text());
        self.offer(text.as_slice())
    }

    fn text(&self) -> io::Result<()> {
        self.rt.println(self.tape.text().len())?;
        self.rt.write_all(self.tape.text())
    }

    fn answer(&mut self, command: &str, argument: &str) -> io::Result<()> {
        match command {
            "new" => self.make(argument),
            "seek" => self
                .rt
                .println(found(Ok(self.tape.seek_track(number(argument))))),
            "tracks" => self.rt.println(self.tape.all_tracks()),
            "text" => self.text(),
            // its text is still to come, and so is the answer
            "take" if argument.is_empty() => Ok(()),
            "again" => self.again(),
            _ => self.perform(command, argument),
        }
    }

    /// Performs a command, and answers it.
    pub(crate) fn step(&mut self, given: &str) -> io::Result<()> {
        if given.starts_with('#') {
            return self.rt.println(given);
        }
        print!(self.rt; "{given}: ")?;
        let (command, argument) = given.split_once(' ').unwrap_or((given, ""));
        self.answer(command, argument)
    }
}
