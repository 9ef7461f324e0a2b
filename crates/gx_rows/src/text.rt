//! Texts: bytes of UTF-8 that are shared and never change. A short text is one block of memory, its
//! count of copies and its bytes; a longer one is such a block, a `String` and its bytes.
//!
//! `as_str` borrows the bytes of a short text by `from_utf8_unchecked`: what that requires is the
//! invariant of `Text`, so a new way to make a text has to keep it. The block is 24 bytes beside its
//! counts: `MOST_SHORT` is what fits there, and a `String` in place of the `Box` would not.

ghost use Rattle.std.specs.Prelude.{
  ◌≡◌,
  ◌≤◌,
  IfOk,
  IsUtf8,
  length,
  nat_eq,
  refl,
  string_bytes,
};
ghost use Rattle.std.specs.Cmp.{partial_equiv_from_equiv};
ghost use Rattle.std.specs.Cmp.Lexicographic.{
  pointwise,
  slice_cmp,
  nat_list_eq_equiv,
  nat_list_cmp_total,
  texts_po,
  texts_ties,
};
ghost use Rattle.std.specs.Ordering.{as_partial_cmp, nat_cmp};

use crate::NoMemory;
use std::alloc::Global;
use std::cmp::Ordering;
use std::marker::Model;
use std::rc::Rc;

// The most bytes of a short text.
const MOST_SHORT: usize = 22;

// The first `len` of the bytes.
#[derive(Debug, Drop)]
struct Short {
    len: u8,
    bytes: [u8; MOST_SHORT],
}

#[derive(Debug, Drop)]
enum Chars {
    Short(Short),
    Long(Box<String>),
}

/// A text of UTF-8. Contracts see it as its list of bytes. Copies share one memory.
#[derive(Debug, Drop)]
pub struct Text {
    chars: Rc<Chars>,
}

impl Model for Text {
    ghost use Rattle.std.specs.Prelude.{List, ℕ, IsUtf8};
    ghost use Rattle.gx_rows.specs.Chars.{bytes_of, Fits};

    ghost Value = { List ℕ };

    ghost view = { λ t. bytes_of t.chars.value };

    ghost invariant = { λ t. Fits t.chars.value × IsUtf8 (bytes_of t.chars.value) };
}

impl Text {
    /// A text with the bytes of `s`.
    ///
    /// # Errors
    ///
    /// `NoMemory` if memory for the bytes runs out.
    pub fn of(alloc: Global, s: &str) -> Result<Text, NoMemory>
        ensures { IfOk result (λ t. t ≡ s.now) }
    {
        if s.len() <= MOST_SHORT {
            return Text::short(alloc, s);
        }
        Text::long(alloc, String::from_str(alloc, s)?)
    }

    /// The text of `chars`. It copies up to 22 bytes, and takes more over without a copy.
    ///
    /// # Errors
    ///
    /// `NoMemory` if memory for the bytes or for the count of copies runs out.
    pub fn from_string(alloc: Global, chars: String) -> Result<Text, NoMemory>
        ensures { IfOk result (λ t. t ≡ string_bytes chars) }
    {
        if chars.len() <= MOST_SHORT {
            return Text::short(alloc, chars.as_str());
        }
        Text::long(alloc, chars)
    }

    fn short(alloc: Global, s: &str) -> Result<Text, NoMemory>
        requires { length s.now ≤ MOST_SHORT }
        ensures { IfOk result (λ t. t ≡ s.now) }
    {
        let len = s.len();
        let mut bytes = [0; MOST_SHORT];
        bytes[..len].copy_from_slice(s.as_bytes());
        let len = len as u8;
        let chars = Rc::new(alloc, Chars::Short(Short { len, bytes }))?;
        Ok(Text { chars })
    }

    fn long(alloc: Global, chars: String) -> Result<Text, NoMemory>
        ensures { IfOk result (λ t. t ≡ string_bytes chars) }
    {
        let boxed = Box::new(alloc, chars)?;
        let chars = Rc::new(alloc, Chars::Long(boxed))?;
        Ok(Text { chars })
    }

    /// The text, borrowed.
    pub fn as_str(&self) -> &str
        ensures bytes { result.now ≡ self.now }
        ensures utf8 { IsUtf8 self.now }
    {
        match self.chars.as_ref() {
            Chars::Short(short) => unsafe {
                str::from_utf8_unchecked(&short.bytes[..short.len as usize])
            },
            Chars::Long(chars) => chars.as_str(),
        }
    }

    /// An equal text. It shares the bytes and takes no memory.
    ///
    /// # Errors
    ///
    /// `NoMemory` if no further copy can be counted.
    pub fn copy(&self) -> Result<Text, NoMemory>
        ensures { IfOk result (λ t. t ≡ self.now) }
    {
        Ok(Text {
            chars: self.chars.clone()?,
        })
    }
}

impl PartialEq for Text {
    ghost eq = { pointwise nat_eq };

    ghost laws = { partial_equiv_from_equiv nat_list_eq_equiv };

    fn eq(&self, other: &Text) -> bool {
        self.as_str() == other.as_str()
    }
}

impl Eq for Text {
    ghost laws = { nat_list_eq_equiv };
}

impl PartialOrd for Text {
    ghost partial_cmp = { as_partial_cmp (slice_cmp nat_cmp) };

    ghost laws = { texts_po };

    fn partial_cmp(&self, other: &Text) -> Option<Ordering> {
        Some(self.cmp(other))
    }
}

impl Ord for Text {
    ghost cmp = { slice_cmp nat_cmp };

    ghost total = { nat_list_cmp_total };

    ghost matches_partial_cmp = { λ x y. refl };

    ghost matches_eq = { texts_ties };

    fn cmp(&self, other: &Text) -> Ordering {
        self.as_str().cmp(other.as_str())
    }
}
