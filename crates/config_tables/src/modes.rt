//! The numbers of reporting modes.
ghost use Rattle.std.specs.Prelude.{◌≡◌};
ghost use Rattle.config_tables.specs.Modes.{mode_at};

use ids_types::Mode;

/// The mode of a number, 0 to 4; `None` if there is no such mode.
pub fn mode_at(number: u8) -> Option<Mode>
    ensures { result ≡ mode_at number }
{
    match number {
        0 => Some(Mode::Off),
        1 => Some(Mode::Brief),
        2 => Some(Mode::Detailed),
        3 => Some(Mode::BriefBypassing),
        4 => Some(Mode::DetailedBypassing),
        _ => None,
    }
}
