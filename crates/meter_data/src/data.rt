// A reply's data.
ghost use Rattle.std.specs.Prelude.{◌≡◌, ◌≤◌, []};

// The first `len` bytes. A telegram has nine bytes more, so that it fits a reply. A type of its own, and not that of
// `list_write::Written`: one type for both would have a public `push`, which may have no `requires`. It is fixed memory,
// since no heap is used, and no `ArrayVec` of the kit, since the statements of a ported crate would be trusted too.
#[derive(Clone, Copy)]
pub struct Data {
    pub bytes: [u8; 87],
    pub len: usize,
    pub ghost fits: { len ≤ 87 },
}

impl Data {
    ghost use Rattle.meter_data.specs.View.{held};

    pub(crate) fn new() -> Self
        ensures bytes { held result ≡ [] }
        ensures len { result.len ≡ 0 }
    {
        Data {
            bytes: [0; 87],
            len: 0,
        }
    }

    pub fn as_slice(&self) -> &[u8]
        ensures { result.now ≡ held self.now }
    {
        &self.bytes[..self.len]
    }
}
