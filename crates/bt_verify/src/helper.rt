//! Helper functions.

/// A helper function that a program may call (bpf-helpers(7)).
#[derive(Clone, Copy, Debug, PartialEq, Eq)]
pub enum Helper {
    /// 1: finds the value of a key. R1 map, R2 key.
    MapLookupElem,
    /// 2: sets the value of a key. R1 map, R2 key, R3 value, R4 flags.
    MapUpdateElem,
    /// 3: removes a key. R1 map, R2 key.
    MapDeleteElem,
    /// 12: goes on in another program. R1 context, R2 program array, R3 index.
    TailCall,
    /// 87: puts a value into a queue or stack. R1 map, R2 value, R3 flags.
    MapPushElem,
    /// 88: takes a value out. R1 map, R2 where the value goes.
    MapPopElem,
    /// 89: reads the value that would be taken out. R1 map, R2 where the value goes.
    MapPeekElem,
}

impl Helper {
    ghost use Rattle.std.specs.Prelude.{◌≡◌, ◌<◌, ◌^◌, IfSome};
    ghost use Rattle.bt_verify.specs.Helper.{helper_of, helper_number, arguments};

    /// The helper with this number, if there is one.
    #[tactic(auto, unfolding(crate::specs::Helper::helper_of))]
    pub fn new(number: i32) -> Option<Helper>
        ensures value { result ≡ helper_of number }
        ensures found { IfSome result (λ h. helper_number h ≡ number) }
    {
        match number {
            1 => Some(Helper::MapLookupElem),
            2 => Some(Helper::MapUpdateElem),
            3 => Some(Helper::MapDeleteElem),
            12 => Some(Helper::TailCall),
            87 => Some(Helper::MapPushElem),
            88 => Some(Helper::MapPopElem),
            89 => Some(Helper::MapPeekElem),
            _ => None,
        }
    }

    /// The registers that hold its arguments, bit r for Rr.
    pub(crate) fn arguments(self) -> u16
        ensures value { result ≡ arguments self }
        ensures few { result < 2 ^ 11 }
    {
        match self {
            Helper::MapLookupElem
            | Helper::MapDeleteElem
            | Helper::MapPopElem
            | Helper::MapPeekElem => 0b110,
            Helper::TailCall | Helper::MapPushElem => 0b1110,
            Helper::MapUpdateElem => 0b1_1110,
        }
    }
}
