//! The refusals with their numbers and layers, the place of no transport, and the sizes that a set
//! may have.
#![tactic(auto)]

use tape::bounds::is_size;
use tape::refusal::Reason;

const REASONS: [Reason; 18] = [
    Reason::BlockSize,
    Reason::Unlawful,
    Reason::ShortBuffer,
    Reason::Missing,
    Reason::MarkOutOfPlace,
    Reason::BlockOutOfPlace,
    Reason::BadLabel,
    Reason::LabelDisagrees,
    Reason::CountDisagrees,
    Reason::DoesNotFit,
    Reason::EmptyFile,
    Reason::NoRoomForFile,
    Reason::SectionFull,
    Reason::NoVolume,
    Reason::Ended,
    Reason::TransportFailed,
    Reason::VolumeAwaited,
    Reason::CatalogueFull,
];

const SIZES: [(usize, usize); 8] = [
    (0, 1),
    (1, 0),
    (1, 1),
    (2, 1),
    (3, 1),
    (2, 49),
    (1, 49),
    (2, 50),
];

fn run(rt: &impl Print) -> anyhow::Result<()> {
    for reason in REASONS {
        println!(rt; "refused={:02} layer={}", reason.number(), reason.layer())?;
    }
    let place = Reason::Unlawful.nowhere().place;
    println!(rt;
        "nowhere vol={} track={} item={}",
        place.volume, place.track, place.item
    )?;
    for (tracks, volumes) in SIZES {
        let lawful = if is_size(tracks, volumes) {
            "lawful"
        } else {
            "unlawful"
        };
        println!(rt; "tracks={tracks} volumes={volumes} {lawful}")?;
    }
    Ok(())
}

fn main(rt: HostRuntime) -> anyhow::Result<()> {
    run(&rt)
}
