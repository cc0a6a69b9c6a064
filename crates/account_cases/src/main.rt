//! Accounts of texts that inspect must refuse, and of the smallest ones.
#![tactic(auto)]

use inspection::account::account;
use std::io::{self, Write};

// The name of a case, the tracks of its volumes, and its text.
const CASES: [(&str, usize, &[u8]); 6] = [
    ("nothing at all", 2, b""),
    (
        "one mark, one track",
        1,
        b"vol=01 track=1 item=00001 kind=mark\n",
    ),
    (
        "behind a blank track",
        2,
        b"vol=01 track=2 item=00001 kind=block size=001 hex=41\n",
    ),
    ("no line feed", 2, b"vol=01 track=1 item=00001 kind=mark"),
    (
        "second item first",
        2,
        b"vol=01 track=1 item=00002 kind=mark\n",
    ),
    (
        "three tracks to a volume",
        3,
        b"vol=01 track=1 item=00001 kind=mark\n",
    ),
];

fn run(rt: &(impl Print + AllocGlobal)) -> anyhow::Result<()> {
    for (name, tracks, text) in CASES {
        println!(rt; "{name}")?;
        let told = account(rt.alloc(), tracks, text)?;
        io::writer(rt).write_all(told.as_slice())?;
    }
    Ok(())
}

fn main(rt: HostRuntime) -> anyhow::Result<()> {
    run(&rt)
}
