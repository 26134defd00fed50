// Laws of the definitions.
ghost use Rattle.std.specs.Prelude.{◌≡◌, true, List, Some, None, Ok, [], IfSome};
ghost use Rattle.clap.specs.Words.{matches_of, takes};
ghost use Rattle.words.specs.App.{rows_of_uses, word_app};
ghost use Rattle.words.specs.Lexer.{Text};
ghost use Rattle.words.specs.Options.{name_of, row};
ghost use Rattle.words.specs.Uses.{Used, uses_of, why_value};
ghost use Rattle.words.specs.declared.options.Name.{Name};

/// Each option is found by its name, and takes its usual value, where it has one.
pub fn options_are_whole()
    ensures found { (name : Name) → name_of (row name).name ≡ Some name }
    ensures usual { (name : Name)
        → IfSome (row name).usual (λ text. why_value (row name).takes text ≡ None) }
{}

/// `clap` takes all words that have no fault, and what it reads in them are their uses.
pub fn clap_reads_the_uses()
    ensures taken { (words : List Text) (uses : List Used) → uses_of words ≡ Ok uses
        → takes word_app words ≡ true }
    ensures read { (words : List Text) (uses : List Used) → uses_of words ≡ Ok uses
        → matches_of word_app words ≡ rows_of_uses [] uses }
{}
