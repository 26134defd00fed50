// The uses of options in the words, and the other words.
use crate::Name;

/// The value of an option, or a word that is no option, with the number of the word that holds it.
#[derive(Clone, Copy)]
pub struct Given<'a> {
    pub name: Option<Name>,
    pub word: u32,
    pub text: &'a str,
}
