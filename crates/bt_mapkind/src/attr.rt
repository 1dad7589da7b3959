//! What a map is made with.

ghost use Rattle.std.specs.Prelude.{◌≡◌, true};
ghost use Rattle.bt_mapkind.specs.Attributes.{good, charge_of, suits_type};

/// The types of maps, by their names in bpftool-map(8).
#[derive(Clone, Copy, PartialEq, Eq, Debug)]
pub enum MapType {
    Array,
    Hash,
    LpmTrie,
    Queue,
    Stack,
    ArrayOfMaps,
    ProgArray,
    HashOfMaps,
}

/// The attributes of a map (bpf(2), `BPF_MAP_CREATE`). Sizes are in bytes.
#[derive(Clone, Copy, PartialEq, Eq, Debug)]
pub struct MapAttr {
    pub kind: MapType,
    pub key_size: u32,
    pub value_size: u32,
    pub max_entries: u32,
    pub flags: u32,
}

impl MapAttr {
    /// Whether a map of this type can have these attributes: values of 1 to 256 bytes, 1 to 65,536 entries, and the
    /// key size and flags of the type. An outer map's template is no part of them.
    pub fn good(&self) -> bool
        ensures { result ≡ good self.now }
    {
        (1..=256).contains(&self.value_size)
            && (1..=65_536).contains(&self.max_entries)
            && self.suits_type()
    }

    /// What a map of these attributes costs of a host's budget, in bytes: a key and a value for each entry, which are
    /// reserved when it is made.
    pub fn charge(&self) -> u64
        requires { good self.now ≡ true }
        ensures { result ≡ charge_of self.now }
    {
        u64::from(self.max_entries) * (u64::from(self.key_size) + u64::from(self.value_size))
    }

    // Whether key size, value size and flags are those of the type.
    fn suits_type(&self) -> bool
        ensures { result ≡ suits_type self.now.kind self.now.key_size self.now.value_size self.now.flags }
    {
        match self.kind {
            MapType::Array => self.key_size == 4 && self.flags == 0,
            MapType::Hash => (1..=64).contains(&self.key_size) && self.flags <= 1,
            MapType::LpmTrie => (5..=260).contains(&self.key_size) && self.flags == 1,
            MapType::Queue | MapType::Stack => self.key_size == 0 && self.flags == 0,
            MapType::ArrayOfMaps | MapType::ProgArray => {
                self.key_size == 4 && self.value_size == 4 && self.flags == 0
            }
            MapType::HashOfMaps => {
                (1..=64).contains(&self.key_size) && self.value_size == 4 && self.flags <= 1
            }
        }
    }
}
