// A line that is put together piece by piece: each piece goes behind those before it, as far as there is room.
ghost use Rattle.std.specs.Prelude.{◌≡◌, ◌≤◌, [], ◌++◌, length, take};
ghost use Rattle.base.specs.Hex.{hex_of, hex_digit};

use itoa::{Buffer, Integer};
use std::marker::Model;

// The bytes that a line of an answer has room for; none is as long.
pub const ROOM: usize = 512;

// The first `len` bytes of a buffer of N.
#[derive(Drop)]
pub struct Line<const N: usize> {
    bytes: [u8; N],
    len: usize,
}

impl<const N: usize> Model for Line<N> {
    ghost use Rattle.std.specs.Prelude.{List, ℕ, ◌≤◌, take};

    ghost Value = { List ℕ };

    ghost view = { λ l. take l.len l.bytes };

    ghost invariant = { λ l. l.len ≤ N };
}

impl<const N: usize> Line<N> {
    pub fn new() -> Self
        ensures { result ≡ [] }
    {
        Line {
            bytes: [0; N],
            len: 0,
        }
    }

    pub fn text(&self) -> &[u8]
        ensures value { result.now ≡ self.now }
        ensures within { length result.now ≤ N }
    {
        &self.bytes[..self.len]
    }

    pub fn push(&mut self, text: &[u8])
        ensures { self.new ≡ take N (self.old ++ text.now) }
    {
        let n = text.len().min(N - self.len);
        let end = self.len + n;
        let room = &mut self.bytes[..];
        room[self.len..end].copy_from_slice(&text[..n]);
        self.len = end;
    }

    // The number as `{}` prints it.
    pub fn push_number<I: Integer>(&mut self, n: I)
        ensures { self.new ≡ take N (self.old ++ I.text n) }
    {
        let mut buffer = Buffer::new();
        self.push(buffer.format(n).as_bytes());
    }

    // Two digits for each byte.
    pub fn push_hex(&mut self, bytes: &[u8])
        ensures { self.new ≡ take N (self.old ++ hex_of bytes.now) }
    {
        // No effect at run time: the proof reads here that what there is has room.
        let _ = &self.bytes;
        for b in bytes {
            self.push(&[hex_glyph(b / 16), hex_glyph(b % 16)]);
        }
    }
}

// The digit of a value below 16.
fn hex_glyph(d: u8) -> u8
    requires { d ≤ 15 }
    ensures { result ≡ hex_digit d }
{
    if d < 10 { b'0' + d } else { b'a' - 10 + d }
}
