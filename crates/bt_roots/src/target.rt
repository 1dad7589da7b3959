//! What a pin names: a map or a program, by its id.
use std::cmp::Ordering;

/// An object that a pin or a link leads to. Maps come before programs, and each kind by ascending id.
#[derive(Clone, Copy, PartialEq, Eq, Hash, Debug)]
pub enum Target {
    /// The map of this id.
    Map(u32),
    /// The program of this id.
    Prog(u32),
}

impl Ord for Target {
    ghost use Rattle.std.specs.Prelude.{refl};
    ghost use Rattle.std.proofs.Common.{rules};
    ghost use Rattle.std.specs.Cmp.Rules.{comparing};
    ghost use Rattle.bt_roots.specs.TargetOrder.{target_cmp, target_order};

    ghost cmp = { target_cmp };

    ghost total = { target_order };

    ghost matches_partial_cmp = { λ x y. refl };

    ghost matches_eq = { λ x y. Prim.search (comparing, rules) };

    fn cmp(&self, other: &Target) -> Ordering {
        match (self, other) {
            (Target::Map(left), Target::Map(right)) => left.cmp(right),
            (Target::Map(_), Target::Prog(_)) => Ordering::Less,
            (Target::Prog(_), Target::Map(_)) => Ordering::Greater,
            (Target::Prog(left), Target::Prog(right)) => left.cmp(right),
        }
    }
}

impl PartialOrd for Target {
    ghost use Rattle.std.specs.Prelude.{Some};
    ghost use Rattle.std.proofs.Common.{rules};
    ghost use Rattle.std.specs.Cmp.{po};
    ghost use Rattle.std.specs.Cmp.Rules.{comparing};
    ghost use Rattle.bt_roots.specs.TargetOrder.{target_cmp, target_order};

    ghost partial_cmp = { λ x y. Some (target_cmp x y) };

    ghost laws = { po target_order (λ x y. Prim.search (comparing, rules)) };

    fn partial_cmp(&self, other: &Target) -> Option<Ordering> {
        Some(self.cmp(other))
    }
}
