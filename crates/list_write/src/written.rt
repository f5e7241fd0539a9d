// Bytes written one behind the other.
ghost use Rattle.std.specs.Prelude.{◌≡◌, ◌+◌, ◌≤◌, ◌<◌, [], ◌++◌, length, take};
ghost use Rattle.list_write.specs.ProgramRecord.{counted, Appends};

use super::REST;

// The first `len` bytes are written. It is fixed memory, since no heap is used, and no `ArrayVec` of the kit, since the
// statements of a ported crate would be trusted too. Clauses go by `held`, and not by a `Model`: a struct with a
// `Model` that doesn't show all of its fields is no `Copy`.
#[derive(Clone, Copy)]
pub struct Written<const N: usize> {
    bytes: [u8; N],
    len: usize,
    ghost fits: { len ≤ N },
}

impl<const N: usize> Written<N> {
    ghost use Rattle.list_write.specs.View.{held};

    // Nothing yet.
    pub fn new() -> Self
        ensures { held result ≡ [] }
    {
        Written {
            bytes: [0; N],
            len: 0,
        }
    }

    pub fn as_slice(&self) -> &[u8]
        ensures is { result.now ≡ held self.now }
        ensures fits { length result.now ≤ N }
    {
        &self.bytes[..self.len]
    }

    pub(crate) fn push(&mut self, more: &[u8])
        requires { length (held self.old) + length more.now ≤ N }
        ensures { held self.new ≡ held self.old ++ more.now }
    {
        let bytes = &mut self.bytes[..];
        self.len += laws::copy(more, &mut bytes[self.len..]);
    }

    // A text after its length.
    pub(crate) fn push_text(&mut self, text: &[u8])
        requires { (length text.now < 256) × (length (held self.old) + 1 + length text.now ≤ N) }
        ensures { held self.new ≡ held self.old ++ counted text.now }
    {
        self.push(&[text.len() as u8]);
        self.push(text);
    }

    // A record by its rest, at most REST bytes of it, the length byte first. Where there is no room for it nothing is
    // written.
    pub fn push_record(&mut self, rest: &[u8])
        ensures { Appends N (counted (take 45 rest.now)) (held self.old) (held self.new) }
    {
        let text = &rest[..REST.min(rest.len())];
        if text.len() < N - self.len {
            self.push_text(text);
        }
    }
}
