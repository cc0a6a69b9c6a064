//! Cases of labels, from a script on standard input with a case to a line.
//!
//! `make Hdr|1|0|VOL1|PAYROLL |73366|030|1|USER` makes a label of kind, section, block count, volume,
//! file identifier, creation date, retention days, data code and user, and reads it again.
//! `read TEXT` reads the text as a label, and prints what would make it.
#![tactic(auto)]

use labels::contents::Contents;
use labels::fields::Fields;
use labels::kind::LabelKind;
use labels::label::Label;
use labels::read::parse::parse;
use std::io;
use std::str::from_utf8;
use tape::refusal::Reason;

// The script has the variants' names; a FromStr would read what a kind displays.
fn kind_named(word: &str) -> Option<LabelKind> {
    match word {
        "Hdr" => Some(LabelKind::Hdr),
        "Etr" => Some(LabelKind::Etr),
        "Eov" => Some(LabelKind::Eov),
        "Eof" => Some(LabelKind::Eof),
        _ => None,
    }
}

/// The first N characters of the text, and what stands behind the bar that ends them.
// By length, not by `split('|')`: a bar may stand in a part, of which no label can be made.
fn part<const N: usize>(text: &[u8]) -> Option<([u8; N], &[u8])> {
    let (part, rest) = text.split_first_chunk()?;
    Some((*part, rest.strip_prefix(b"|")?))
}

/// What the words ask for, where each has its length and they are parted by bars.
fn asked(words: &str) -> Option<Contents> {
    let (kind, words) = words.split_once('|')?;
    let (section, words) = words.split_once('|')?;
    let (count, words) = words.split_once('|')?;
    let (volume, words) = part(words.as_bytes())?;
    let (file, words) = part(words)?;
    let (created, words) = part(words)?;
    let (retention, words) = part(words)?;
    let ([code], words) = part::<1>(words)?;
    let user = words.try_into().ok()?;
    Some(Contents {
        kind: kind_named(kind)?,
        volume,
        fields: Fields {
            file,
            created,
            retention,
            code,
            user,
        },
        section: section.parse().ok()?,
        count: count.parse().ok()?,
    })
}

/// Whether reading the label gives back what it was made of.
fn reads_back(label: &Label, contents: Contents) -> bool {
    parse(label.as_bytes()).is_ok_and(|read| read.contents() == contents)
}

fn show_refusal(rt: &impl Print, reason: Reason) -> io::Result<()> {
    println!(rt; "refused={} layer={}", reason.number(), reason.layer())
}

/// The bytes as text, which those of a label always are.
fn text(bytes: &[u8]) -> &str {
    from_utf8(bytes).unwrap_or("no text")
}

fn make(rt: &impl Print, contents: Contents) -> io::Result<()> {
    match Label::new(contents) {
        Ok(label) => {
            let bytes = text(label.as_bytes());
            // by hand: the crate that has these words stands on the line transport, and labels do not
            let back = if reads_back(&label, contents) {
                "yes"
            } else {
                "no"
            };
            println!(rt; "{bytes}\nread back={back}")
        }
        Err(reason) => show_refusal(rt, reason),
    }
}

fn tell(rt: &impl Print, contents: Contents) -> io::Result<()> {
    let Contents {
        kind,
        volume,
        fields,
        section,
        count,
    } = contents;
    print!(rt; "{kind:?}|{section}|{count}")?;
    let code = [fields.code];
    let texts: [&[u8]; 6] = [
        &volume,
        &fields.file,
        &fields.created,
        &fields.retention,
        &code,
        &fields.user,
    ];
    for bytes in texts {
        let text = text(bytes);
        print!(rt; "|{text}")?;
    }
    println!(rt)
}

fn show(rt: &impl Print, line: &str) -> io::Result<()> {
    if let Some(block) = line.strip_prefix("read ") {
        match parse(block.as_bytes()) {
            Ok(read) => tell(rt, read.contents()),
            Err(reason) => show_refusal(rt, reason),
        }
    } else if let Some(contents) = line.strip_prefix("make ").and_then(asked) {
        make(rt, contents)
    } else {
        println!(rt; "no such case")
    }
}

fn main(rt: HostRuntime) -> anyhow::Result<()> {
    let script = io::read_to_string(rt.alloc(), rt.stdin())?;
    for line in script.lines() {
        show(&rt, line)?;
    }
    Ok(())
}
