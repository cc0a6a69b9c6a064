//! Where a track's lines lie in the text.
ghost use Rattle.std.specs.Prelude.{◌≡◌, ◌==◌, if◌then◌else◌};
ghost use Rattle.line_text.specs.Layout.{blank_span, is_marked};
ghost use Rattle.line_text.specs.Spans.{one_more, span_after, recorded_span};

use tape::bounds::WRITES_AFTER;

/// A track: where its first line begins, how many items it has, whether its marker is met, and the
/// writes taken since. Of a blank track the beginning says nothing.
// The last two are no Option, which would ask of callers that an unmarked track has taken none since.
#[derive(Clone, Copy, PartialEq, Eq, Debug)]
pub struct Span {
    pub start: usize,
    pub count: usize,
    pub marked: bool,
    pub since: usize,
}

impl Span {
    /// A track without an item.
    // By its own word, and no Default.
    pub fn blank() -> Span
        ensures { result ≡ blank_span }
    {
        Span {
            start: 0,
            count: 0,
            marked: false,
            since: 0,
        }
    }

    /// Whether the track's marker is met.
    pub fn marked(self) -> bool
        ensures { result ≡ is_marked self }
    {
        self.marked
    }

    // The track with one item more, whose line begins at `end`, where the text ended. Counts stop at
    // the largest number, which no tape reaches.
    fn longer(self, end: usize) -> Span
        ensures start { result.start ≡ (if self.count == 0 then end else self.start) }
        ensures count { result.count ≡ one_more self.count }
    {
        Span {
            start: if self.count == 0 { end } else { self.start },
            count: self.count.saturating_add(1),
            ..self
        }
    }

    /// The track with one item more, whose line begins at `end`, where the text ended. The write of
    /// number `marker` meets the marker. Counts stop at the largest number, which no tape reaches.
    pub fn with_one_more(self, end: usize, marker: usize) -> Span
        ensures { result ≡ span_after self end marker }
    {
        let longer = self.longer(end);
        Span {
            marked: self.marked || longer.count == marker,
            since: self.since.saturating_add(usize::from(self.marked)),
            ..longer
        }
    }

    /// The track with one item more that was recorded elsewhere: such a track counts as marked, with
    /// all eight writes taken.
    pub fn with_one_recorded(self, end: usize) -> Span
        ensures { result ≡ recorded_span self end }
    {
        Span {
            marked: true,
            since: WRITES_AFTER,
            ..self.longer(end)
        }
    }
}
