//! The named edges of the rules.
use crate::characters::{is_a_character, is_date, is_n_character};
use crate::contents::Contents;
use crate::fields::Fields;
use crate::kind::LabelKind;
use crate::label::Label;
use crate::read::parse::parse;
use std::test::Fail;

fn payroll() -> Fields {
    Fields {
        file: *b"PAYROLL ",
        created: *b"73366",
        retention: *b"030",
        code: b'1',
        user: *b"USER",
    }
}

fn says(kind: LabelKind, section: u8, count: u16) -> Contents {
    Contents {
        kind,
        volume: *b"VOL1",
        fields: payroll(),
        section,
        count,
    }
}

#[test]
fn characters(rt: HostRuntime) {
    for (b, lawful) in [
        (31, false),
        (32, true),
        (35, false),
        (36, false),
        (64, false),
        (90, true),
        (91, false),
        (b'a', false),
    ] {
        assert_eq!(rt; is_a_character(b), lawful);
    }
    for (b, lawful) in [(47, false), (48, true), (57, true), (58, false)] {
        assert_eq!(rt; is_n_character(b), lawful);
    }
}

#[test]
fn kinds(rt: HostRuntime) -> Result<(), Fail> {
    for (kind, character, name) in [
        (LabelKind::Hdr, b'1', "HDR"),
        (LabelKind::Etr, b'3', "ETR"),
        (LabelKind::Eov, b'7', "EOV"),
        (LabelKind::Eof, b'9', "EOF"),
    ] {
        assert_eq!(rt; u8::from(kind), character);
        assert_eq!(rt; LabelKind::try_from(character)?, kind);
        assert_eq!(rt; kind.name(), name);
        assert_eq!(rt; kind.to_string(rt.alloc())?.as_str(), name);
    }
    assert!(rt; LabelKind::try_from(b'5').is_err());
    Ok(())
}

#[test]
fn agreements(rt: HostRuntime) {
    assert!(rt; payroll().agrees(&payroll()));
    assert!(rt;
        !payroll().agrees(&Fields {
            user: *b"ELSE",
            ..payroll()
        })
    );
}

#[test]
fn dates(rt: HostRuntime) {
    for date in [*b"73001", *b"73366", *b"00000", *b"00366"] {
        assert!(rt; is_date(&date));
    }
    for date in [*b"73000", *b"73367", *b"00367", *b"7300A", *b"     "] {
        assert!(rt; !is_date(&date));
    }
    assert!(rt; !is_date(b"7336"));
}

#[test]
fn numbers(rt: HostRuntime) {
    for (section, count, lawful) in [
        (0, 0, true),
        (1, 9999, true),
        (98, 9999, true),
        (99, 1, true),
        (100, 1, false),
        (1, 10000, false),
    ] {
        let contents = says(LabelKind::Eof, section, count);
        assert_eq!(rt; contents.is_lawful(), lawful);
        assert_eq!(rt; Label::new(contents).is_ok(), lawful);
    }
    let header = says(LabelKind::Hdr, 1, 0);
    assert!(rt; Label::new(header).is_ok());
    assert!(rt; Label::new(Contents { count: 1, ..header }).is_err());
    assert!(rt;
        Label::new(Contents {
            volume: *b"vol1",
            ..header
        })
        .is_err()
    );
}

#[test]
fn round_trips(rt: HostRuntime) -> Result<(), Fail> {
    for (kind, count) in [
        (LabelKind::Hdr, 0),
        (LabelKind::Etr, 9999),
        (LabelKind::Eov, 1),
        (LabelKind::Eof, 0),
    ] {
        let contents = says(kind, 7, count);
        let label = Label::new(contents)?;
        let read = parse(label.as_bytes())?;
        assert_eq!(rt; read.contents(), contents);
        assert_eq!(rt; read.kind(), kind);
        let parts = read.parts();
        assert_eq!(rt; parts.volume(), *b"VOL1");
        assert_eq!(rt; parts.fields(), payroll());
        assert_eq!(rt; parts.section(), 7);
        assert_eq!(rt; parts.count(), count);
    }
    Ok(())
}

#[test]
fn blocks(rt: HostRuntime) {
    assert!(rt; parse(b"1VOL1PAYROLL 017336603000001USER").is_ok());
    assert!(rt; parse(b"1VOL1PAYROLL 017336603000001USE").is_err());
    assert!(rt; parse(b"1VOL1PAYROLL 017336603000001USERS").is_err());
    assert!(rt; parse(b"").is_err());
    for block in [
        *b"5VOL1PAYROLL 017336603000001USER",
        *b"1VOL1PAYROLL 017336603000011USER",
        *b"1VOL1payroll 017336603000001USER",
        *b"1VOL1PAYROLL 017300003000001USER",
        *b"1VOL1PAYROLL A17336603000001USER",
    ] {
        assert!(rt; parse(&block).is_err());
    }
}
