//! The parts are found in a block by their places.
ghost use Rattle.std.specs.Prelude.{◌≡◌};
ghost use Rattle.std.specs.Option.{option_map};
ghost use Rattle.labels.specs.Reading.{held, found_parts};

use crate::parts::Parts;

impl<'a> Parts<'a> {
    /// The parts of the bytes behind a label's kind, where there are 31.
    // An Option: in a TryFrom each of the eight cuts would carry the error.
    pub(crate) fn of(rest: &'a [u8]) -> Option<Parts<'a>>
        ensures { option_map held result ≡ found_parts rest.now }
    {
        let (volume, rest) = rest.split_first_chunk()?;
        let (file, rest) = rest.split_first_chunk()?;
        let (section, rest) = rest.split_first_chunk()?;
        let (created, rest) = rest.split_first_chunk()?;
        let (retention, rest) = rest.split_first_chunk()?;
        let (count, rest) = rest.split_first_chunk()?;
        let (code, rest) = rest.split_first_chunk()?;
        let (user, rest) = rest.split_first_chunk()?;
        rest.is_empty().then_some(Parts {
            volume,
            file,
            section,
            created,
            retention,
            count,
            code,
            user,
        })
    }
}
