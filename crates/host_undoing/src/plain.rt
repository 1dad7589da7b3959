//! What takes back an operation that retired nothing, in few bytes.

ghost use Rattle.std.specs.Prelude.{◌≡◌, MatchResult, IsOk};
ghost use Rattle.host_undoing.specs.declared.plain.PlainUndoing.{PlainUndoing as Plain};
ghost use Rattle.host_undoing.specs.Exchange.{undoing_of};

use crate::undoing::{Part, Undoing};
use bt_mapkind::KeptBack;
use host_state::none_retired;
use std::alloc::Global;

/// What takes back an operation that retired nothing: an exchange of what its map holds.
#[derive(Drop)]
pub struct PlainUndoing {
    pub kept: KeptBack,
    pub map: u32,
    /// What the undoing says of the objects that it retired, of which there are none.
    pub live: bool,
}

impl PlainUndoing {
    /// This undoing in few bytes, if it exchanges what the map holds and retired nothing; else the undoing comes back.
    pub fn of(undoing: Undoing, map: u32) -> Result<PlainUndoing, Undoing>
        ensures answer { MatchResult result (λ plain. (undoing_of plain ≡ undoing) × (plain.map ≡ map)) (λ back. back ≡ undoing) }
        ensures whenever { (plain : Plain) → undoing_of plain ≡ undoing → plain.map ≡ map → IsOk result }
    {
        let Undoing { part, retired } = undoing;
        match part {
            Part::Contents { map: at, kept } => {
                if at == map && retired.targets.as_slice().is_empty() {
                    return Ok(PlainUndoing {
                        kept,
                        map,
                        live: retired.live,
                    });
                }
                Err(Undoing {
                    part: Part::Contents { map: at, kept },
                    retired,
                })
            }
            part => Err(Undoing { part, retired }),
        }
    }

    /// The undoing.
    pub fn whole(self, alloc: Global) -> Undoing
        ensures { result ≡ undoing_of self }
    {
        let mut retired = none_retired(alloc);
        retired.live = self.live;
        Undoing {
            part: Part::Contents {
                map: self.map,
                kept: self.kept,
            },
            retired,
        }
    }
}
