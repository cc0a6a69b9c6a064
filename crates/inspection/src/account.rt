//! The account of a cassette, from its line text.
ghost use Rattle.std.specs.Prelude.{◌≡◌, IfOk};
ghost use Rattle.inspection.specs.Account.{account_of};
ghost use Rattle.inspection.specs.Opened.{Opens};

use crate::told::Told;
use crate::walk::account_of_tape;
use line::line_transport::LineTransport;
use line::settings::Settings;
use std::alloc::{AllocError, Global};
use tape::bounds::{LAST_MARKER, MOST_VOLUMES};
use tape::refusal::SetupError;

// The tape that a line text gives, with so many tracks to a volume. A refusal of the text is handed
// on as one of the settings is: an error of this module would have the same two variants.
fn tape_of(heap: Global, tracks: usize, text: &[u8]) -> Result<LineTransport, SetupError>
    ensures { Opens tracks text.now result }
{
    let settings = Settings {
        tracks,
        volumes: MOST_VOLUMES,
        marker: LAST_MARKER,
        room: text.len(),
    };
    let mut tape = LineTransport::new(heap, settings)?;
    tape.take(text).map_err(SetupError::Refused)?;
    Ok(tape)
}

/// The account of the tape that a line text gives, with so many tracks to a volume, or the refusal
/// and words that help. Only want of memory gives no account.
pub fn account(heap: Global, tracks: usize, text: &[u8]) -> Result<Vec<u8>, AllocError>
    ensures { IfOk result (λ v. v.items ≡ account_of tracks text.now) }
{
    let mut out = Vec::new(heap);
    match tape_of(heap, tracks, text) {
        Ok(tape) => account_of_tape(out, tape, text.len()),
        Err(SetupError::Refused(refusal)) => {
            refusal.tell(&mut out)?;
            Ok(out)
        }
        Err(SetupError::NoMemory) => Err(AllocError),
    }
}
