// Laws of the table and of values in range.
ghost use Rattle.std.specs.Prelude.{ℕ, ◌≡◌, ◌<◌, Bool, true, IfSome, List, Option, Some, slice_get};
ghost use Rattle.kind_table.specs.Kinds.{OptionRow, Pin, Row, kind_of, kind_row};
ghost use Rattle.kind_table.specs.Values.{channel_at, maybe_channel_at, number_at, row_in_range};
ghost use Rattle.kind_table.specs.Whole.{IsWhole, NumberFits, usual_fits};
ghost use Rattle.kind_table.specs.declared.kinds.Kind.{Kind};

/// Each kind is found by its name, and its row is whole: it has at most eight options, each with a
/// usual value that it takes, and its groups are of these. (A law; nothing is done.)
pub fn kinds_are_whole()
    ensures found { (kind : Kind) → kind_of (kind_row kind).name ≡ Some kind }
    ensures whole { (kind : Kind) → IsWhole (kind_row kind) }
{}

/// Of values in range, by any row: an option's number is one that it takes, and a channel's bit is
/// one of a sample, whether it has to be given or not. (A law; nothing is done.)
pub fn values_in_range_fit()
    ensures number { (bits : ℕ) (row : Row) (values : List (Option ℕ))
        (place : ℕ) (option : OptionRow) → row_in_range bits row values ≡ true
        → slice_get row.options place ≡ Some option → usual_fits option.form ≡ true
        → NumberFits option.form (number_at row.options values place) }
    ensures channel { (bits : ℕ) (row : Row) (values : List (Option ℕ))
        (place : ℕ) (option : OptionRow) → row_in_range bits row values ≡ true
        → slice_get row.options place ≡ Some option
        → (required : Bool) → option.form ≡ Pin required → 0 < bits
        → channel_at values place < bits }
    ensures maybe_channel { (bits : ℕ) (row : Row) (values : List (Option ℕ))
        (place : ℕ) (option : OptionRow) → row_in_range bits row values ≡ true
        → slice_get row.options place ≡ Some option
        → (required : Bool) → option.form ≡ Pin required
        → IfSome (maybe_channel_at values place) (λ bit. bit < bits) }
{}
