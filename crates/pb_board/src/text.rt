//! Short texts that take no memory of their own.

ghost use Rattle.std.specs.Prelude.{◌≡◌, ◌-◌, ◌<◌, ◌≤◌, length, replicate};

use std::marker::Model;

/// Holds a text of at most `N` bytes, `N` at most 255.
#[derive(Clone, Copy, Debug, PartialEq, Eq, Hash)]
pub struct Text<const N: usize> {
    bytes: [u8; N],
    len: u8,
}

impl<const N: usize> Model for Text<N> {
    ghost use Rattle.std.specs.Prelude.{ℕ, ◌<◌, List, length, take};
    ghost use Rattle.pb_board.specs.Padded.{IsPadded, padded, padded-back};

    ghost Value = { List ℕ };

    ghost view = { λ b. take b.len b.bytes };

    ghost invariant = { λ b. (N < 256) × IsPadded N b.bytes b.len };

    ghost inverse = { λ text. record { bytes = padded N text; len = length text } };

    ghost inverse_ok = { λ b h. padded-back N (λ bytes len.
        record { bytes = bytes; len = len }) b.bytes b.len h.1 };
}

impl<const N: usize> Text<N> {
    ghost use Rattle.std.specs.Prelude.{[], ◌∷◌, ◌++◌};

    /// Makes a text of no bytes.
    #[inline]
    pub fn new() -> Text<N>
        requires { N < 256 }
        ensures { result ≡ [] }
    {
        Text {
            bytes: [0; N],
            len: 0,
        }
    }

    /// Makes a text of these bytes.
    #[inline]
    pub fn of(bytes: &[u8]) -> Text<N>
        requires small { N < 256 }
        requires fits { length bytes.now ≤ N }
        ensures { result ≡ bytes.now }
    {
        let mut buffer = [0; N];
        buffer[..bytes.len()].copy_from_slice(bytes);
        Text {
            bytes: buffer,
            len: bytes.len() as u8,
        }
    }

    /// Writes a byte at the end.
    #[inline]
    pub fn push(&mut self, byte: u8)
        requires { length self.old < N }
        ensures { self.new ≡ self.old ++ byte ∷ [] }
    {
        self.bytes[self.len as usize] = byte;
        self.len += 1;
    }

    /// Gives the bytes of the text.
    #[inline]
    pub fn as_bytes(&self) -> &[u8]
        ensures value { result.now ≡ self.now }
        ensures short { length self.now ≤ N }
    {
        &self.bytes[..self.len as usize]
    }
}
