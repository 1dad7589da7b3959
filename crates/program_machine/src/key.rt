//! Keys of pointers to values.

/// The bytes of a key: the first `size` of these.
#[derive(Clone, Copy)]
pub(crate) struct Key {
    pub(crate) size: usize,
    pub(crate) bytes: [u8; 260],
}

impl Key {
    ghost use Rattle.std.specs.Prelude.{◌≡◌, ◌≤◌, length, []};
    ghost use Rattle.program_machine.specs.Places as places;

    /// No byte.
    #[inline(always)]
    pub(crate) fn new() -> Key
        ensures { places.bytes_of result ≡ [] }
    {
        Key {
            size: 0,
            bytes: [0; 260],
        }
    }

    /// The bytes.
    #[tactic(auto, using(std::proofs::lemmas::List::take_min))]
    pub(crate) fn as_slice(&self) -> &[u8]
        ensures value { result.now ≡ places.bytes_of self.now }
        ensures at_most { length result.now ≤ 260 }
    {
        &self.bytes[..self.size.min(260)]
    }

    /// Puts these bytes in place of its own.
    pub(crate) fn put(&mut self, key: &[u8])
        requires { length key.now ≤ 260 }
        ensures { places.bytes_of self.new ≡ key.now }
    {
        self.bytes[..key.len()].copy_from_slice(key);
        self.size = key.len();
    }
}
