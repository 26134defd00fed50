// The form of the capture that the words name.
ghost use Rattle.std.specs.Prelude.{◌≡◌};
ghost use Rattle.capture_any.specs.Captures.{IsForm};
ghost use Rattle.words.specs.Settings.{meaning_of};
ghost use Rattle.run_asks.specs.Asking.{IsFormOf};

use capture_any::Form;
use words::{Format, Settings};

/// The form of the capture that the settings name.
pub fn form_of(settings: &Settings) -> Form
    ensures named { IsFormOf (meaning_of settings.now) result }
    ensures fits { IsForm result }
{
    match settings.format {
        Format::Raw => Form::Raw {
            channels: settings.channels,
            rate: settings.rate,
        },
        Format::Vcd => Form::Vcd {
            down: settings.down,
        },
        Format::Csv => Form::Csv {
            mode: settings.csv,
            header: settings.header,
            rate: settings.rate,
        },
    }
}
