//! inspect: an account of every item of a cassette, from its line text.
//!
//! Reads the text from standard input and writes the account to standard output. Volumes are taken
//! to have two tracks; the argument `tracks=1` says that they have one.
#![tactic(auto)]

use inspection::account::account;
use std::env::{self, Env};
use std::io::{self, Read, Write};

// The tracks of a volume that an argument asks for.
fn tracks_asked(argument: &str) -> Option<usize> {
    match argument {
        "tracks=1" => Some(1),
        "tracks=2" => Some(2),
        _ => None,
    }
}

fn run(rt: &(impl Env + Input + Print + AllocGlobal)) -> anyhow::Result<()> {
    let tracks = env::args(rt)?
        .filter_map(|argument| tracks_asked(argument.as_str()))
        .last()
        .unwrap_or(2);
    let mut text = Vec::new(rt.alloc());
    rt.reader().read_to_end(&mut text)?;
    let told = account(rt.alloc(), tracks, text.as_slice())?;
    io::writer(rt).write_all(told.as_slice())?;
    Ok(())
}

fn main(rt: HostRuntime) -> anyhow::Result<()> {
    run(&rt)
}
