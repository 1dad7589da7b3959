//! Laws of the definitions, each the contract of a function that does nothing.
ghost use Rattle.std.specs.Prelude.{◌≡◌, List, true};
ghost use Rattle.bt_roots.specs.Exchange.{KeepsRoom, TurnsBack, exchange_fits};
ghost use Rattle.bt_roots.specs.Live.{IsReachability};
ghost use Rattle.bt_roots.specs.Reachable.{Links};
ghost use Rattle.bt_roots.specs.View.{Pins, RootsView};
ghost use Rattle.bt_roots.specs.declared.device.Device.{Device};
ghost use Rattle.bt_roots.specs.declared.target.Target.{Target};
ghost use Rattle.bt_roots.specs.declared.back.RootBack.{RootBack};

/// The law of `turn`: turned twice, an exchange leaves the roots and itself as they were.
pub fn turning_twice_is_nothing()
    ensures { (roots : RootsView) (back : RootBack) → TurnsBack roots back }
{}

/// The law of room: an exchange that fits the roots fits them whatever changes later.
pub fn room_is_for_good()
    ensures { (old new : RootsView) (back : RootBack) →
        KeepsRoom old new → exchange_fits old back ≡ true → exchange_fits new back ≡ true }
{}

/// The law of liveness: the test that can be computed tells just what is reachable.
pub fn liveness_is_reachability()
    ensures { (pins : Pins) (devices : List Device) (links : Links) (target : Target) →
        IsReachability pins devices links target }
{}
