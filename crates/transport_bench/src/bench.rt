//! The commands that any transport can perform.
use crate::words::{At, Hex, Next, number, put_hex};
use case_words::answer::{found, moved, written};
use case_words::status::StatusWords;
use std::io;
use tape::bounds::LONGEST_BLOCK;
use tape::item::ItemRef;
use tape::status::Status;
use tape::transport::Transport;

// The longest buffer of a read.
const MOST_READ: usize = 300;

/// A transport under trial, and where its answers go.
#[derive(Drop)]
pub(crate) struct Bench<'a, R, T> {
    pub(crate) rt: &'a R,
    pub(crate) tape: T,
}

impl<R: Print + AllocGlobal, T: Transport> Bench<'_, R, T> {
    // A loop that counts: each turn writes, and the last answer is told too.
    fn marks(&mut self, count: &str) -> io::Result<()> {
        let mut taken = 0usize;
        let mut last = Ok(false);
        for _ in 0..number(count) {
            last = self.tape.write(ItemRef::Mark);
            if last.is_ok() {
                taken = taken.saturating_add(1);
            }
        }
        println!(self.rt; "{taken} {}", written(last))
    }

    // A block of the bytes given, or of so many times these: until it is too long, since it is then turned
    // down whatever its other bytes.
    fn block(&mut self, argument: &str) -> io::Result<()> {
        let (hex, times) = argument.split_once('*').unwrap_or((argument, "1"));
        let mut bytes = Vec::new(self.rt.alloc());
        for _ in 0..number(times) {
            if !put_hex(&mut bytes, hex) || LONGEST_BLOCK < bytes.len() {
                break;
            }
        }
        let answer = self.tape.write(ItemRef::Block(bytes.as_slice()));
        self.rt.println(written(answer))
    }

    // The buffer is filled beforehand, so that what a read leaves alone is seen to stay.
    fn read(&mut self, size: &str) -> io::Result<()> {
        let mut bytes = [0xEEu8; MOST_READ];
        let buffer = &mut bytes[..number(size).min(MOST_READ)];
        let answer = self.tape.read(buffer).map(Some);
        println!(self.rt; "{}{}", Hex(buffer), Next(answer))
    }

    fn ask(&self) -> io::Result<()> {
        let status = Status::of(&self.tape);
        println!(self.rt; "{} {}", At(status.place), StatusWords(status))
    }

    /// Performs a command.
    // A match: a table of closures over the bench would hold function pointers, and be no shorter.
    pub(crate) fn perform(&mut self, command: &str, argument: &str) -> io::Result<()> {
        match command {
            "mark" => self.rt.println(written(self.tape.write(ItemRef::Mark))),
            "marks" => self.marks(argument),
            "block" => self.block(argument),
            "next" => self.rt.println(moved(self.tape.next_track())),
            "mount" => self.rt.println(moved(self.tape.mount())),
            "rewind" => self.rt.println(moved(self.tape.rewind())),
            "following" => self.rt.println(found(self.tape.following())),
            "look" => self.rt.println(Next(self.tape.look())),
            "read" => self.read(argument),
            "ask" => self.ask(),
            _ => self.rt.println("no such command"),
        }
    }
}
