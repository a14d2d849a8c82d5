//! Reporting modes and their names.

ghost use Rattle.std.specs.Prelude.{◌≡◌, bytes_eq};
ghost use Rattle.std.specs.List.{find};
ghost use Rattle.ids_types.specs.ModeNames.{mode_name, mode_named};

/// The reporting mode of a security event (AUTOSAR SWS Intrusion Detection System Manager).
#[derive(Clone, Copy, Debug, PartialEq, Eq)]
pub enum Mode {
    /// Every report is dropped.
    Off,
    /// Reports pass the filters without their context data.
    Brief,
    /// Reports pass the filters with their context data.
    Detailed,
    /// Reports qualify at once, without their context data.
    BriefBypassing,
    /// Reports qualify at once, with their context data.
    DetailedBypassing,
}

/// Every mode.
const MODES: [Mode; 5] = [
    Mode::Off,
    Mode::Brief,
    Mode::Detailed,
    Mode::BriefBypassing,
    Mode::DetailedBypassing,
];

impl Mode {
    /// The name of the mode in texts.
    pub fn name(self) -> &'static str
        ensures { result.now ≡ mode_name self }
    {
        match self {
            Mode::Off => "OFF",
            Mode::Brief => "BRIEF",
            Mode::Detailed => "DETAILED",
            Mode::BriefBypassing => "BRIEF_BYPASSING_FILTERS",
            Mode::DetailedBypassing => "DETAILED_BYPASSING_FILTERS",
        }
    }

    /// The mode of this name, `None` where it is no name of one.
    /// Steps: 5 names of at most 26 bytes. By: read off; `MODES` has 5.
    pub fn named(name: &[u8]) -> Option<Mode>
        ensures { result ≡ mode_named name.now }
    {
        find_named(&MODES, name)
    }
}

fn find_named(modes: &[Mode], name: &[u8]) -> Option<Mode>
    ensures { result ≡ find (λ mode. bytes_eq name.now (mode_name mode)) modes.now }
{
    modes
        .iter()
        .copied()
        .find(|mode| name == mode.name().as_bytes())
}
