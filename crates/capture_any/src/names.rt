// The names of channels that a capture doesn't name.
ghost use Rattle.std.specs.Prelude.{◌≡◌, ◌≤◌, ◌++◌, codes, IfOk};
ghost use Rattle.std.specs.Fmt.{decimal};
ghost use Rattle.capture_raw.specs.Raw.{raw_names};

use la_base::{Names, NoMemory};
use line_text::LineBuf;
use std::alloc::Global;

// The name of a channel: D0, D1 and so on.
fn channel_name(channel: u32) -> LineBuf
    ensures { result ≡ codes "D" ++ decimal channel }
{
    let mut name = LineBuf::new();
    name.push_bytes(b"D");
    name.push_dec(u64::from(channel));
    name
}

/// The names of so many channels.
pub fn channel_names(alloc: Global, channels: u32) -> Result<Names, NoMemory>
    requires { channels ≤ 4096 }
    ensures { IfOk result (λ names. names ≡ raw_names channels) }
{
    let mut names = Names::new(alloc);
    for channel in 0..channels {
        names.push(channel_name(channel).bytes())?;
    }
    Ok(names)
}
