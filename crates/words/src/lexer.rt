// What a word looks like.
ghost use Rattle.std.specs.Prelude.{◌≡◌, option_map};
ghost use Rattle.words.specs.Lexer.{begins_option, behind_dash, cut_at, long_of};

/// Whether a word is read as an option.
pub fn begins_option(word: &str) -> bool
    ensures { result ≡ begins_option word.now }
{
    match word.as_bytes() {
        [b'-', ..] => true,
        _ => false,
    }
}

// What follows a first hyphen.
fn behind_dash(word: &str) -> Option<&str>
    ensures { option_map (λ s. s.now) result ≡ behind_dash word.now }
{
    word.strip_prefix('-')
}

// What stands before the first `=`, and what stands after it if there is one.
fn cut_at_equals(text: &str) -> (&str, Option<&str>)
    ensures { (result.0.now, option_map (λ s. s.now) result.1) ≡ cut_at 61 text.now }
{
    match text.split_once('=') {
        Some((name, value)) => (name, Some(value)),
        None => (text, None),
    }
}

/// What stands before the first `/`, and what stands after it if there is one.
pub fn cut_at_slash(text: &str) -> (&str, Option<&str>)
    ensures { (result.0.now, option_map (λ s. s.now) result.1) ≡ cut_at 47 text.now }
{
    match text.split_once('/') {
        Some((above, below)) => (above, Some(below)),
        None => (text, None),
    }
}

/// The name and the value of `--NAME` or `--NAME=VALUE`.
pub fn long_of(word: &str) -> Option<(&str, Option<&str>)>
    ensures { option_map (λ p. (p.0.now, option_map (λ s. s.now) p.1)) result ≡ long_of word.now }
{
    let rest = behind_dash(behind_dash(word)?)?;
    if rest.is_empty() {
        return None;
    }
    Some(cut_at_equals(rest))
}
