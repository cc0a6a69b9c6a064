//! transport_bench: a bench for a transport. Reads a script of commands from standard input, performs them on a
//! line transport, and answers each with one line: the command as given, a colon, the answer.
//!
//! Making and asking:
//!
//!     # TEXT             a comment, printed as it is
//!     new NAME=N ..      a new transport in place of the old: `made`, the refusal, or `no memory`;
//!                        tracks, volumes, marker and room are 2, 2, 60000 and 4096 if not given
//!     ask                the questions: the head's place, the tracks of a volume, whether the head's
//!                        track is marked, whether the transport has failed, whether there are items
//!
//! The functions of the interface, each of which may also be turned down (`down`) or fail (`failed`):
//!
//!     mark               writes a mark: `taken`, or `marker` where its track is then marked
//!     marks N            writes N marks: how many were taken, and the last answer
//!     block HEX          writes a block of these bytes, two digits each; of none if none are given
//!     block HEX*N        writes a block of N times these bytes
//!     next mount rewind  to the next track, a new volume, the very first item: `done`
//!     following          to the next volume of the image: `there` or `none`
//!     look               what comes next: `mark`, `block` and its size, or `end`
//!     read N             reads into N bytes (at most 300) that were EE: all of them after it, and
//!                        what was read, as in `look`
//!
//! What only a line transport has:
//!
//!     seek K             to track K, counted from 0 over all volumes: `there` or `none`
//!     tracks             the number of tracks of all volumes
//!     text               the number of bytes of its text, and then the text
//!     take               takes the lines that follow, up to one with a dot, as a recorded text:
//!                        `taken` and whether its text is then the same, or the refusal and whether
//!                        the tape is then blank
//!     .                  ends such a text; `.open` leaves out its last line feed, and `.HEX` has
//!                        these bytes in its place
//!     again              takes its own text
//!
//! The bench begins with a transport as of a bare `new`, and a `new` that is refused keeps the old
//! one. A number that cannot be read is 0, and digits that cannot be read give no byte. Anything else
//! is answered `no such command`. That there is memory for the script's own bytes is taken for granted.
#![tactic(auto)]

mod bench;
mod own;
mod words;

use crate::bench::Bench;
use line::line_transport::LineTransport;
use std::io;

// Performs a script. The lines of a recorded text are gathered, and taken at the one with a dot.
fn play<R: Print + AllocGlobal>(
    bench: &mut Bench<'_, R, LineTransport>,
    script: &str,
) -> io::Result<()> {
    let mut recorded = None;
    for given in script.split_terminator('\n') {
        match recorded.take() {
            Some(text) if given.starts_with('.') => bench.take(text, given)?,
            Some(text) => recorded = Some(own::with_line(text, given)),
            None => {
                if given == "take" {
                    recorded = Some(Vec::new(bench.rt.alloc()));
                }
                bench.step(given)?;
            }
        }
    }
    Ok(())
}

fn run(rt: &(impl Input + Print + AllocGlobal)) -> io::Result<()> {
    let script = io::read_to_string(rt.alloc(), rt.reader())?;
    match LineTransport::new(rt.alloc(), own::settings("")) {
        Ok(tape) => play(&mut Bench { rt, tape }, script.as_str()),
        Err(error) => rt.println(error),
    }
}

fn main(rt: HostRuntime) -> io::Result<()> {
    run(&rt)
}
