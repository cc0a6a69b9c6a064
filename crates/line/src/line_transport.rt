//! A tape kept as text: the lines of its items, and where each track's lines lie.
ghost use Rattle.std.specs.Prelude.{◌≡◌, ◌*◌, ◌/◌, ◌%◌, ◌<◌, ◌≤◌, length, vec_len, vec_capacity};
ghost use Rattle.line_text.specs.Layout.{Whole, Placed, Propers, AllSound, NoneBehind, SomeThere, HeadInside, HeadPlaced, Unmarked};
ghost use Rattle.line.specs.Settings.{Lawful};

use crate::settings::Settings;
use line_text::span::Span;

pub mod interface;
mod laying;
mod moving;
mod reading;
mod setup;
mod taking;
mod writing;

// The head: its track, the items passed there, and the place of the next one's line in the text.
#[derive(Clone, Copy)]
struct Head {
    at: usize,
    item: usize,
    pos: usize,
}

impl Head {
    // Before the first item of a track whose lines begin at `pos`.
    fn start_of(at: usize, pos: usize) -> Head
        ensures { result ≡ record { at = at; item = 0; pos = pos } }
    {
        Head { at, item: 0, pos }
    }
}

/// A transport whose tape is a text, a line an item. Its memory is obtained once, when it is made.
#[derive(Drop)]
pub struct LineTransport {
    text: Vec<u8>,
    // one for each track of each volume mounted so far
    spans: Vec<Span>,
    settings: Settings,
    head: Head,
    // the last track that has items, or the first where none has: a track in any case, as `has_items`
    // and `is_at_end` ask
    last: usize,
    failed: bool,
    ghost whole: { Whole settings.tracks text.items spans.items },
    ghost placed: { Placed settings.tracks text.items spans.items },
    ghost propers: { Propers text.items spans.items },
    ghost sound: { AllSound spans.items },
    ghost ending: { last < length spans.items },
    ghost behind: { NoneBehind spans.items last },
    ghost there: { SomeThere spans.items last },
    ghost inside: { HeadInside spans.items head.at head.item },
    ghost reached: { HeadPlaced settings.tracks text.items spans.items head.at head.item head.pos },
    ghost unmarked: { Unmarked settings.marker spans.items },
    ghost lawful: { Lawful settings },
    ghost whole_volumes: { length spans.items % settings.tracks ≡ 0 },
    ghost mounted: { length spans.items / settings.tracks ≤ settings.volumes },
    ghost text_memory: { settings.room ≤ vec_capacity text },
    ghost in_room: { length text.items ≤ settings.room },
    ghost span_memory: { settings.volumes * settings.tracks ≤ vec_capacity spans },
}
