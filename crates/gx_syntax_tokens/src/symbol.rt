//! Symbols: how each is written, and the longest one at the front of a text.
//!
//! A new symbol of one byte goes into `Symbol`, `spelling` and `one_byte_symbol` here, and into the
//! same words of `specs/Symbols.antt`. If another symbol is its first byte, `two_byte_symbol` must
//! find it.

ghost use Rattle.std.specs.Prelude.{◌≡◌, length};
ghost use Rattle.gx_syntax_tokens.specs.Symbols.{one_byte_symbol, spelling, symbol_at, symbol_with_equals, two_byte_symbol};

/// A symbol of the script language.
#[derive(Clone, Copy, Debug, PartialEq, Eq)]
pub enum Symbol {
    /// `(`
    OpenParen,
    /// `)`
    CloseParen,
    /// `,`
    Comma,
    /// `;`
    Semicolon,
    /// `:`
    Colon,
    /// `.`
    Dot,
    /// `=`
    Assign,
    /// `==`
    Equal,
    /// `!=`
    NotEqual,
    /// `<`
    Less,
    /// `<=`
    LessEqual,
    /// `>`
    Greater,
    /// `>=`
    GreaterEqual,
    /// `+`
    Plus,
    /// `-`
    Minus,
    /// `*`
    Star,
    /// `/`
    Slash,
    /// `%`
    Percent,
}

impl Symbol {
    /// The text of the symbol.
    pub(crate) fn spelling(self) -> &'static str
        ensures { result.now ≡ spelling self }
    {
        match self {
            Symbol::OpenParen => "(",
            Symbol::CloseParen => ")",
            Symbol::Comma => ",",
            Symbol::Semicolon => ";",
            Symbol::Colon => ":",
            Symbol::Dot => ".",
            Symbol::Assign => "=",
            Symbol::Equal => "==",
            Symbol::NotEqual => "!=",
            Symbol::Less => "<",
            Symbol::LessEqual => "<=",
            Symbol::Greater => ">",
            Symbol::GreaterEqual => ">=",
            Symbol::Plus => "+",
            Symbol::Minus => "-",
            Symbol::Star => "*",
            Symbol::Slash => "/",
            Symbol::Percent => "%",
        }
    }

    /// The bytes of the symbol.
    pub(crate) fn len(self) -> usize
        ensures { result ≡ length (spelling self) }
    {
        self.spelling().len()
    }
}

// The symbol that is this byte alone.
fn one_byte_symbol(byte: u8) -> Option<Symbol>
    ensures { result ≡ one_byte_symbol byte }
{
    let symbol = match byte {
        b'(' => Symbol::OpenParen,
        b')' => Symbol::CloseParen,
        b',' => Symbol::Comma,
        b';' => Symbol::Semicolon,
        b':' => Symbol::Colon,
        b'.' => Symbol::Dot,
        b'=' => Symbol::Assign,
        b'<' => Symbol::Less,
        b'>' => Symbol::Greater,
        b'+' => Symbol::Plus,
        b'-' => Symbol::Minus,
        b'*' => Symbol::Star,
        b'/' => Symbol::Slash,
        b'%' => Symbol::Percent,
        _ => return None,
    };
    Some(symbol)
}

// The symbol that is this byte and `=`.
fn symbol_with_equals(byte: u8) -> Option<Symbol>
    ensures { result ≡ symbol_with_equals byte }
{
    match byte {
        b'=' => Some(Symbol::Equal),
        b'!' => Some(Symbol::NotEqual),
        b'<' => Some(Symbol::LessEqual),
        b'>' => Some(Symbol::GreaterEqual),
        _ => None,
    }
}

// The symbol that is this byte and the next one.
fn two_byte_symbol(first: u8, rest: &[u8]) -> Option<Symbol>
    ensures { result ≡ two_byte_symbol first rest.now }
{
    match rest {
        [b'=', ..] => symbol_with_equals(first),
        _ => None,
    }
}

/// The symbol that a text begins with: the longest that fits.
pub(crate) fn symbol_of(text: &[u8]) -> Option<Symbol>
    ensures { result ≡ symbol_at text.now }
{
    let [first, rest @ ..] = text else {
        return None;
    };
    match two_byte_symbol(*first, rest) {
        Some(symbol) => Some(symbol),
        None => one_byte_symbol(*first),
    }
}
