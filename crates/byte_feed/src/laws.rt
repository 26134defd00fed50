// Laws of tokens and lines, each on a function that does nothing.
ghost use Rattle.byte_feed.specs.Laws.{LinesCanBeCut, LinesExtend, TokensExtend};
ghost use Rattle.byte_feed.specs.Worked.{WorkedLines};

/// The tokens of bytes that are cut are the first of those of every longer input, and a fault among
/// them is the fault of every longer input, behind the same tokens.
pub fn tokens_extend()
    ensures { TokensExtend }
{}

/// Worked lines.
pub fn lines_hold()
    ensures { WorkedLines }
{}

/// The lines of bytes that are cut are the first of those of every longer input, and a fault among
/// them is the fault of every longer input, behind the same lines.
pub fn lines_extend()
    ensures { LinesExtend }
{}

/// Where bytes have a line behind others, there is a place in them, right behind a line feed, up to
/// which those others alone are the lines.
pub fn lines_can_be_cut()
    ensures { LinesCanBeCut }
{}
