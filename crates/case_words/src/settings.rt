//! The settings that the cases run under.
use line::settings::Settings;
use tape::bounds::LAST_MARKER;

/// Settings that leave room for most cases, which change one or two of them.
pub const USUAL: Settings = Settings {
    tracks: 2,
    volumes: 2,
    marker: LAST_MARKER,
    room: 4096,
};
