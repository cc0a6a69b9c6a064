//! Refusals: why, where, and by which layer.
ghost use Rattle.std.specs.Prelude.{◌≡◌, Some};
ghost use Rattle.tape.specs.Refusals.{reason_number, reason_layer, reason_words, layer_name, refusal_words, setup_words, nowhere};
ghost use Rattle.tape.specs.declared.refusal.SetupError.TheVariants.{NoMemory};

use crate::place::Place;
use std::alloc::AllocError;
use std::error::Error;
use std::fmt;

/// Why a call was refused. Each reason has one number and one layer, which programs print.
#[derive(Clone, Copy, PartialEq, Eq, Debug)]
pub enum Reason {
    /// 1: a block was given that has no byte, or more than 256
    BlockSize,
    /// 2: a field, a setting or a recorded text was given that is not lawful
    Unlawful,
    /// 3: the buffer that was given is not long enough
    ShortBuffer,
    /// 4: an item, a track or a volume is missing
    Missing,
    /// 5: a tape mark stands where none belongs
    MarkOutOfPlace,
    /// 6: a block stands where none belongs
    BlockOutOfPlace,
    /// 7: a block that should be a label is none, or one of another kind than belongs there
    BadLabel,
    /// 8: a label contradicts its header, its volume or the order of sections
    LabelDisagrees,
    /// 9: a trailer's block count is not the number of the section's blocks
    CountDisagrees,
    /// 10: the call is not for this state
    DoesNotFit,
    /// 11: a Basic file is to end that has no block
    EmptyFile,
    /// 12: a Basic file is to begin on a last track that is marked
    NoRoomForFile,
    /// 13: the Compact section is full, with 9,999 blocks
    SectionFull,
    /// 14: there is no volume left to mount
    NoVolume,
    /// 15: the set is closed already, or there is nothing more to read
    Ended,
    /// 16: the transport failed
    TransportFailed,
    /// 17: the writing waits for a volume, and the call is another than mount
    VolumeAwaited,
    /// 18: no entry of the catalogue is free
    CatalogueFull,
}

/// The part of the system that a refusal comes from.
#[derive(Clone, Copy, PartialEq, Eq, Debug)]
pub enum Layer {
    Transport,
    Label,
    Structure,
}

impl Layer {
    /// The layer's name, which programs print.
    pub fn name(self) -> &'static str
        ensures { result.now ≡ layer_name self }
    {
        match self {
            Layer::Transport => "transport",
            Layer::Label => "label",
            Layer::Structure => "structure",
        }
    }
}

impl fmt::Display for Layer {
    ghost output = { λ layer. Some (layer_name layer) };

    fn fmt<W: fmt::Write>(&self, f: &mut fmt::Formatter<W>) -> fmt::Result {
        f.write_str(self.name())
    }
}

/// A refusal: its reason, and the place it speaks of.
#[derive(Clone, Copy, PartialEq, Eq, Debug)]
pub struct Refusal {
    pub reason: Reason,
    pub place: Place,
}

impl fmt::Display for Refusal {
    ghost output = { λ refusal. Some (refusal_words refusal) };

    fn fmt<W: fmt::Write>(&self, f: &mut fmt::Formatter<W>) -> fmt::Result {
        let Place {
            volume,
            track,
            item,
        } = self.place;
        f.write_str(self.reason.words())?;
        write!(f, ", at volume {volume}, track {track}, item {item}")
    }
}

impl Error for Refusal {}

/// Why a transport could not be made: a refusal, or want of memory.
#[derive(Clone, Copy, PartialEq, Eq, Debug)]
pub enum SetupError {
    Refused(Refusal),
    NoMemory,
}

impl From<AllocError> for SetupError {
    ghost from_gives = { λ _ r. r ≡ NoMemory };

    fn from(_e: AllocError) -> SetupError {
        SetupError::NoMemory
    }
}

impl fmt::Display for SetupError {
    ghost output = { λ e. Some (setup_words e) };

    fn fmt<W: fmt::Write>(&self, f: &mut fmt::Formatter<W>) -> fmt::Result {
        match self {
            SetupError::Refused(refusal) => write!(f, "{refusal}"),
            SetupError::NoMemory => f.write_str("no memory"),
        }
    }
}

impl Error for SetupError {}

impl Reason {
    /// The number by which users know the reason.
    // A method and no From: `u8::from(reason)` would not say which number. Arms and no discriminants:
    // that two reasons have one number is for the proof to refuse, and no compiler would build it.
    pub fn number(self) -> u8
        ensures { result ≡ reason_number self }
    {
        match self {
            Reason::BlockSize => 1,
            Reason::Unlawful => 2,
            Reason::ShortBuffer => 3,
            Reason::Missing => 4,
            Reason::MarkOutOfPlace => 5,
            Reason::BlockOutOfPlace => 6,
            Reason::BadLabel => 7,
            Reason::LabelDisagrees => 8,
            Reason::CountDisagrees => 9,
            Reason::DoesNotFit => 10,
            Reason::EmptyFile => 11,
            Reason::NoRoomForFile => 12,
            Reason::SectionFull => 13,
            Reason::NoVolume => 14,
            Reason::Ended => 15,
            Reason::TransportFailed => 16,
            Reason::VolumeAwaited => 17,
            Reason::CatalogueFull => 18,
        }
    }

    /// The layer that the reason belongs to.
    pub fn layer(self) -> Layer
        ensures { result ≡ reason_layer self }
    {
        match self {
            Reason::TransportFailed => Layer::Transport,
            Reason::Unlawful => Layer::Label,
            Reason::BadLabel => Layer::Label,
            Reason::LabelDisagrees => Layer::Label,
            Reason::CountDisagrees => Layer::Label,
            _ => Layer::Structure,
        }
    }

    /// What to look at where a call was refused for the reason.
    pub fn words(self) -> &'static str
        ensures { result.now ≡ reason_words self }
    {
        match self {
            Reason::BlockSize => "a block must have 1 to 256 bytes",
            Reason::Unlawful =>
                "a field or a setting is unlawful, or the text is not whole items in order",
            Reason::ShortBuffer => "the buffer is shorter than the block: give one of 256 bytes",
            Reason::Missing => "an item, a track or a volume is missing: the set may be cut short",
            Reason::MarkOutOfPlace => "a tape mark stands where a block must be",
            Reason::BlockOutOfPlace => "a block stands where a tape mark must be",
            Reason::BadLabel =>
                "a label is not 32 bytes long, is unlawful, or is of a wrong kind here",
            Reason::LabelDisagrees =>
                "a label disagrees with its header, its volume or the order of sections",
            Reason::CountDisagrees =>
                "the count of a trailer is not the number of blocks in front of it",
            Reason::DoesNotFit =>
                "the call does not fit the state, as a block before its file is begun",
            Reason::EmptyFile => "a Basic file must have a block before it is ended",
            Reason::NoRoomForFile =>
                "the last track has met its marker, so no Basic file can begin on it",
            Reason::SectionFull => "a Compact section has 9999 blocks and takes no more",
            Reason::NoVolume => "no volume is left that can be mounted",
            Reason::Ended => "the set is closed, or reading has come to its end",
            Reason::TransportFailed => "the transport failed: what it had recorded stays",
            Reason::VolumeAwaited => "a volume is awaited: mount it before any other call",
            Reason::CatalogueFull => "the catalogue has no free entry",
        }
    }

    /// This reason where there is no transport, so that the place is all zeros.
    // A method and no From, which would hide the zeros.
    pub fn nowhere(self) -> Refusal
        ensures { result ≡ nowhere self }
    {
        Refusal {
            reason: self,
            place: Place {
                volume: 0,
                track: 0,
                item: 0,
            },
        }
    }
}

impl fmt::Display for Reason {
    ghost output = { λ reason. Some (reason_words reason) };

    fn fmt<W: fmt::Write>(&self, f: &mut fmt::Formatter<W>) -> fmt::Result {
        f.write_str(self.words())
    }
}

impl Error for Reason {}

#[cfg(test)]
mod tests {
    use super::*;
    use std::test::Fail;

    // numbers and layers once more, apart from the code
    const REASONS: [(Reason, u8, Layer); 18] = [
        (Reason::BlockSize, 1, Layer::Structure),
        (Reason::Unlawful, 2, Layer::Label),
        (Reason::ShortBuffer, 3, Layer::Structure),
        (Reason::Missing, 4, Layer::Structure),
        (Reason::MarkOutOfPlace, 5, Layer::Structure),
        (Reason::BlockOutOfPlace, 6, Layer::Structure),
        (Reason::BadLabel, 7, Layer::Label),
        (Reason::LabelDisagrees, 8, Layer::Label),
        (Reason::CountDisagrees, 9, Layer::Label),
        (Reason::DoesNotFit, 10, Layer::Structure),
        (Reason::EmptyFile, 11, Layer::Structure),
        (Reason::NoRoomForFile, 12, Layer::Structure),
        (Reason::SectionFull, 13, Layer::Structure),
        (Reason::NoVolume, 14, Layer::Structure),
        (Reason::Ended, 15, Layer::Structure),
        (Reason::TransportFailed, 16, Layer::Transport),
        (Reason::VolumeAwaited, 17, Layer::Structure),
        (Reason::CatalogueFull, 18, Layer::Structure),
    ];

    #[test]
    fn each_reason_has_its_number_and_layer(rt: HostRuntime) {
        for (reason, number, layer) in &REASONS {
            assert_eq!(rt; reason.number(), *number);
            assert_eq!(rt; reason.layer(), *layer);
        }
    }

    #[test]
    fn nowhere_is_all_zeros(rt: HostRuntime) {
        // not field by field, so that the zeros stand in one place, where an edit turns one
        let [volume, track, item] = [0; 3];
        let place = Place {
            volume,
            track,
            item,
        };
        let reason = Reason::Unlawful;
        assert_eq!(rt; reason.nowhere(), Refusal { reason, place });
    }

    #[test]
    fn layers_have_names(rt: HostRuntime) -> Result<(), Fail> {
        for (layer, name) in [
            (Layer::Transport, "transport"),
            (Layer::Label, "label"),
            (Layer::Structure, "structure"),
        ] {
            assert_eq!(rt; layer.name(), name);
            let told = layer.to_string(rt.alloc())?;
            assert_eq!(rt; told.as_str(), name);
        }
        Ok(())
    }

    #[test]
    fn refusals_and_setup_errors_have_words(rt: HostRuntime) -> Result<(), Fail> {
        let words = "a tape mark stands where a block must be, at volume 1, track 2, item 37";
        let place = Place {
            volume: 1,
            track: 2,
            item: 37,
        };
        let reason = Reason::MarkOutOfPlace;
        let refusal = Refusal { reason, place };
        let told = refusal.to_string(rt.alloc())?;
        assert_eq!(rt; told.as_str(), words);
        let refused = SetupError::Refused(refusal).to_string(rt.alloc())?;
        assert_eq!(rt; refused.as_str(), words);
        let memory = SetupError::from(AllocError).to_string(rt.alloc())?;
        assert_eq!(rt; memory.as_str(), "no memory");
        Ok(())
    }

    #[test]
    fn reasons_have_words(rt: HostRuntime) -> Result<(), Fail> {
        for (reason, _, _) in REASONS {
            let told = reason.to_string(rt.alloc())?;
            assert_eq!(rt; told.as_str(), reason.words());
        }
        assert_eq!(rt;
            Reason::EmptyFile.words(),
            "a Basic file must have a block before it is ended"
        );
        Ok(())
    }
}
