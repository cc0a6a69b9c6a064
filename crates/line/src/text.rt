//! Lines put at the end of a text, and blank tracks behind the others, in memory that is there already.
ghost use Rattle.std.specs.Prelude.{◌≡◌, ◌*◌, true, length, replicate};
ghost use Rattle.tape.specs.Items.{item_of};
ghost use Rattle.line_text.specs.Lines.{line, line_size, hexed, small, small_item};
ghost use Rattle.line_text.specs.Layout.{blank_span};
ghost use Rattle.line.specs.Put.{HasRoom, Puts, PutsReserved};

use figures::hex::hex_of;
use line_text::lines::{block_head_of, head_of};
use line_text::span::Span;
use tape::item::ItemRef;
use tape::place::Place;

fn put_bytes(text: &mut Vec<u8>, bytes: &[u8])
    requires { HasRoom text.old (length bytes.now) }
    ensures { Puts text.old text.new bytes.now }
{
    text.extend_from_slice(bytes).unwrap();
}

fn put_hex(text: &mut Vec<u8>, bytes: &[u8])
    requires { HasRoom text.old (2 * length bytes.now) }
    ensures puts { Puts text.old text.new (hexed bytes.now) }
    ensures bytes { small bytes.now ≡ true }
{
    for b in bytes {
        put_bytes(text, &hex_of(*b));
    }
}

pub(crate) fn put_line(text: &mut Vec<u8>, place: Place, item: ItemRef<'_>)
    requires { HasRoom text.old (line_size (item_of item)) }
    ensures puts { Puts text.old text.new (line place.volume place.track place.item (item_of item.entry)) }
    ensures bytes { small_item (item_of item.entry) ≡ true }
{
    put_bytes(text, &head_of(place));
    match item {
        ItemRef::Mark => put_bytes(text, b"mark\n"),
        ItemRef::Block(bytes) => {
            put_bytes(text, &block_head_of(bytes.len()));
            put_hex(text, bytes);
            put_bytes(text, b"\n");
        }
    }
}

// So many blank tracks more.
pub(crate) fn put_blanks(spans: &mut Vec<Span>, n: usize)
    requires { HasRoom spans.old n }
    ensures { PutsReserved spans.old spans.new (replicate n blank_span) }
{
    // push_reserved promises that nothing is allocated, as resize does not
    for _ in 0..n {
        spans.push_reserved(Span::blank());
    }
}
