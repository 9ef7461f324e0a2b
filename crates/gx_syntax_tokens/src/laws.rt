//! Laws of tokens, as contracts of empty functions. A crate above that needs one calls it.

ghost use Rattle.gx_syntax_tokens.specs.SpacedText.{SpacedTextRoundTrips, LinesRoundTrip, LexesValidTokens};
ghost use Rattle.gx_syntax_tokens.specs.Writing.{WritesSpacedText};

/// The text of tokens lexes to these tokens and to its end; so does the text of lines.
pub fn spaced_text_round_trips()
    ensures tokens { SpacedTextRoundTrips }
    ensures lines { LinesRoundTrip }
{}

/// Tokens that a `Writer` writes one by one give their spaced text.
pub fn written_tokens_are_spaced()
    ensures { WritesSpacedText }
{}

/// The tokens of any text are within the limits.
pub fn lexed_tokens_are_valid()
    ensures { LexesValidTokens }
{}
