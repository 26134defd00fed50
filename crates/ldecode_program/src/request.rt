// What the words ask of the program.
ghost use Rattle.std.specs.Prelude.{◌≡◌, map};
ghost use Rattle.std.specs.String.{string_bytes};
ghost use Rattle.ldecode_program.specs.Requests.{requested};

/// What the words ask of the program.
#[derive(Clone, Copy, Debug, PartialEq, Eq)]
pub enum Request {
    /// The usage, on standard output. Nothing is read.
    Help,
    /// The version, on standard output. Nothing is read.
    Version,
    /// A run over the standard streams.
    Run,
}

/// What the first word asks for; in any other place `--help` and `--version` are words of a run.
pub fn request_of(words: &[String]) -> Request
    ensures { result ≡ requested (map string_bytes words.now) }
{
    let Some(word) = words.first() else {
        return Request::Run;
    };
    if word.as_str() == "--help" {
        Request::Help
    } else if word.as_str() == "--version" {
        Request::Version
    } else {
        Request::Run
    }
}
