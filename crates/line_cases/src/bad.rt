//! Texts that must be refused, each made from a good one by one change, beside a few that must not.
use crate::common::{Refused, transport};
use case_words::answer::yes;
use case_words::blank::is_blank;
use case_words::settings::USUAL;
use line::line_transport::LineTransport;
use line::settings::Settings;
use std::alloc::{AllocError, Global};
use tape::item::ItemRef;
use tape::refusal::Refusal;
use tape::transport::Transport;

// A good text of two tracks and two volumes.
const GOOD: &str = "vol=01 track=1 item=00001 kind=mark\n\
vol=01 track=1 item=00002 kind=block size=003 hex=4142FF\n\
vol=01 track=1 item=00003 kind=mark\n\
vol=01 track=2 item=00001 kind=mark\n\
vol=02 track=1 item=00001 kind=block size=001 hex=0A\n\
vol=02 track=2 item=00001 kind=mark\n";

// Where its lines begin, counted here: a constant's value calls no function that finds a line feed.
const FIRST: usize = 0;

const SECOND: usize = 36;

const THIRD: usize = 93;

const FOURTH: usize = 129;

const FIFTH: usize = 165;

const SIXTH: usize = 218;

const END: usize = GOOD.len();

// Where the parts of a line begin.
const VOLUME: usize = 4;

const TRACK: usize = 13;

const ITEM: usize = 20;

const KIND: usize = 31;

const SIZE: usize = 42;

const HEX: usize = 50;

// A change of the good text: its name, where it begins, how many bytes give way, and to what. In
// this order, so that a case is one line of a table.
#[derive(Drop)]
struct Change(&'static str, usize, usize, &'static str);

impl Change {
    // The good text with the change.
    fn text(&self, alloc: Global) -> Result<String, AllocError> {
        let Change(_, at, cut, with) = *self;
        let front = GOOD.get(..at).unwrap_or("");
        let back = GOOD.get(at.saturating_add(cut)..).unwrap_or("");
        [front, with, back].concat(alloc)
    }
}

const WORDS: [Change; 10] = [
    Change("the good text", FIRST, 0, ""),
    Change("a letter of vol= changed", FIRST + 1, 1, "a"),
    Change("a capital in track=", FOURTH + 7, 1, "T"),
    Change("a letter of item= changed", THIRD + 16, 1, "d"),
    Change("a letter of kind= changed", SECOND + 27, 1, "y"),
    Change("neither mark nor block", FIRST + KIND, 4, "note"),
    Change("a mark misspelt", SIXTH + KIND, 4, "mask"),
    Change("a block misspelt", SECOND + KIND, 5, "black"),
    Change("a letter of size= changed", SECOND + 37, 1, "z"),
    Change("a letter of hex= changed", SECOND + 46, 1, "H"),
];

const NUMBERS: [Change; 10] = [
    Change("items start at 2", FIRST, SECOND - FIRST, ""),
    Change("items start at 0", FIRST + ITEM, 5, "00000"),
    Change("a gap in the items", SECOND, THIRD - SECOND, ""),
    Change("a repeated item", SECOND + ITEM, 5, "00001"),
    Change("an item number of four digits", FIRST + ITEM, 5, "0001"),
    Change("an item number in a wrong digit", FIRST + ITEM, 5, "10001"),
    Change("volume 00", FIRST + VOLUME, 2, "00"),
    Change("volume 03 of two", SIXTH + VOLUME, 2, "03"),
    Change("track 0", FIRST + TRACK, 1, "0"),
    Change("track 3", FOURTH + TRACK, 1, "3"),
];

const BLOCKS: [Change; 10] = [
    Change("a size too small", SECOND + SIZE, 3, "002"),
    Change("a size too large", SECOND + SIZE, 3, "004"),
    Change("size 000 with hex", SECOND + SIZE, 3, "000"),
    Change("size 000 without hex", SECOND + SIZE, 14, "000 hex="),
    Change("small letters in hex", SECOND + HEX + 4, 2, "ff"),
    Change("a hex digit too few", SECOND + HEX + 5, 1, ""),
    Change("a hex digit too many", SECOND + HEX + 6, 0, "0"),
    Change("a letter past F in hex", SECOND + HEX, 1, "G"),
    Change("a colon in hex", SECOND + HEX, 1, ":"),
    Change("a slash in hex", SECOND + HEX, 1, "/"),
];

// A block of so many zero digits in the last line but one: its size as told, and the digits.
const SIZES: [(&str, &str, usize); 4] = [
    ("size 256", "256", 512),
    ("size 257", "257", 514),
    ("size 256 of 257 bytes", "256", 514),
    ("size 999", "999", 514),
];

const ENDS: [Change; 12] = [
    Change("no last line feed", END - 1, 1, ""),
    Change(
        "no last line feed of a block",
        SIXTH - 1,
        END - SIXTH + 1,
        "",
    ),
    Change("half a line at the end", SIXTH + 9, END - SIXTH - 9, ""),
    Change("no line feed in the middle", FOURTH - 1, 1, ""),
    Change("a blank line at the front", FIRST, 0, "\n"),
    Change("a blank line in the middle", THIRD, 0, "\n"),
    Change("a blank line at the end", END, 0, "\n"),
    Change("a blank line alone", FIRST, END, "\n"),
    Change("a trailing space after a mark", SECOND - 1, 0, " "),
    Change("a trailing space after a block", THIRD - 1, 0, " "),
    Change("a carriage return", SECOND - 1, 0, "\r"),
    Change("a byte behind the end", END, 0, "\0"),
];

// The lines of the good text, counted from 0, in another order.
const ORDERS: [(&str, &[usize]); 5] = [
    ("items out of order", &[0, 2, 1, 3, 4, 5]),
    ("tracks out of order", &[3, 0, 1, 2, 4, 5]),
    ("volumes out of order", &[4, 5, 0, 1, 2, 3]),
    ("a track taken up again", &[0, 3, 1, 2, 4, 5]),
    ("the text twice", &[0, 1, 2, 3, 4, 5, 0, 1, 2, 3, 4, 5]),
];

// The last line with another volume, under settings of so many volumes.
const VOLUMES: [(&str, &str, usize); 4] = [
    ("volume 03 of three", "03", 3),
    ("volume 49 of 49", "49", 49),
    ("volume 49 of 48", "49", 48),
    ("volume 50 of 49", "50", 49),
];

// Lines of the good text, one behind another.
fn ordered(alloc: Global, lines: &[usize]) -> Result<String, AllocError> {
    let mut text = String::new(alloc);
    for k in lines {
        text.push_str(GOOD.split_inclusive('\n').nth(*k).unwrap_or(""))?;
    }
    Ok(text)
}

// The transport has a mark to begin with, so that a refusal has something to leave blank.
fn offered(line: &mut LineTransport, text: &str) -> Result<(), Refusal> {
    let _ = line.write(ItemRef::Mark);
    line.take(text.as_bytes())
}

// Takes a text into a new transport, and tells what came of it.
fn offer(
    rt: &impl Print,
    alloc: Global,
    name: &str,
    chosen: Settings,
    text: &str,
) -> anyhow::Result<()> {
    let mut line = transport(alloc, chosen)?;
    let answer = offered(&mut line, text);
    let blank = yes(is_blank(&line));
    match answer {
        Ok(()) => println!(rt; "{name}: taken blank={blank}")?,
        Err(refusal) => println!(rt; "{name}: {} blank={blank}", Refused(refusal))?,
    }
    Ok(())
}

fn changes(rt: &impl Print, alloc: Global, cases: &[Change]) -> anyhow::Result<()> {
    for case in cases {
        offer(rt, alloc, case.0, USUAL, case.text(alloc)?.as_str())?;
    }
    Ok(())
}

fn sizes(rt: &impl Print, alloc: Global) -> anyhow::Result<()> {
    let front = GOOD.get(..FIFTH + SIZE).unwrap_or("");
    for (name, size, digits) in SIZES {
        let text = format!(in alloc; "{front}{size} hex={:0digits$}\n", 0)?;
        offer(rt, alloc, name, USUAL, text.as_str())?;
    }
    Ok(())
}

fn order(
    rt: &impl Print,
    alloc: Global,
    name: &str,
    chosen: Settings,
    lines: &[usize],
) -> anyhow::Result<()> {
    let text = ordered(alloc, lines)?;
    offer(rt, alloc, name, chosen, text.as_str())
}

fn orders(rt: &impl Print, alloc: Global) -> anyhow::Result<()> {
    for (name, lines) in ORDERS {
        order(rt, alloc, name, USUAL, lines)?;
    }
    Ok(())
}

fn volumes(rt: &impl Print, alloc: Global) -> anyhow::Result<()> {
    for (name, digits, volumes) in VOLUMES {
        let text = Change(name, SIXTH + VOLUME, 2, digits).text(alloc)?;
        offer(
            rt,
            alloc,
            name,
            Settings { volumes, ..USUAL },
            text.as_str(),
        )?;
    }
    Ok(())
}

fn limits(rt: &impl Print, alloc: Global) -> anyhow::Result<()> {
    let one = Settings { tracks: 1, ..USUAL };
    order(rt, alloc, "track 2 with one track", one, &[0, 1, 2, 3])?;
    order(rt, alloc, "track 1 with one track", one, &[0, 1, 2, 4])?;
    for (name, room) in [
        ("room for one byte less", END - 1),
        ("room for the text", END),
    ] {
        offer(rt, alloc, name, Settings { room, ..USUAL }, GOOD)?;
    }
    Ok(())
}

pub(crate) fn run(rt: &impl Print, alloc: Global) -> anyhow::Result<()> {
    changes(rt, alloc, &WORDS)?;
    changes(rt, alloc, &NUMBERS)?;
    changes(rt, alloc, &BLOCKS)?;
    sizes(rt, alloc)?;
    changes(rt, alloc, &ENDS)?;
    orders(rt, alloc)?;
    volumes(rt, alloc)?;
    limits(rt, alloc)
}
