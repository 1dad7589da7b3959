//! Pins and devices on a host of two devices, the turns of their changes, and what is live.

use bt_roots::{RootBack, RootFault, Roots, Target, devices_are_good};
use host_words::Word;
use std::alloc::Global;
use std::process::Abort;

fn word(rt: &impl Abort, alloc: Global, bytes: &[u8]) -> Word {
    Word::new(alloc, bytes).expect(rt, "a word")
}

fn names(rt: &impl Abort, alloc: Global, names: &[&[u8]]) -> Vec<Word> {
    let mut words = Vec::new(alloc);
    for name in names {
        assert!(rt; words.push(word(rt, alloc, name)).is_ok());
    }
    words
}

// A name of each of these letters.
fn of_letters(rt: &impl Abort, alloc: Global, letters: &[u8]) -> Vec<Word> {
    let mut words = Vec::new(alloc);
    for letter in letters {
        assert!(rt; words.push(word(rt, alloc, &[*letter])).is_ok());
    }
    words
}

fn host(rt: &impl Abort, alloc: Global) -> Roots {
    let devices = names(rt, alloc, &[b"eth0", b"eth1"]);
    assert!(rt; devices_are_good(&devices));
    Roots::new(alloc, devices).expect(rt, "a host")
}

#[test]
fn good_devices(rt: HostRuntime) {
    let alloc = rt.alloc();
    assert!(rt; !devices_are_good(&names(&rt, alloc, &[])));
    assert!(rt; !devices_are_good(&names(&rt, alloc, &[b"eth0", b"lo", b"eth0"])));
    assert!(rt; !devices_are_good(&names(&rt, alloc, &[b"eth0", b"e/0"])));
    assert!(rt; devices_are_good(&of_letters(&rt, alloc, b"abcdefghijklmnop")));
    assert!(rt; !devices_are_good(&of_letters(&rt, alloc, b"abcdefghijklmnopq")));
}

/// A pin is taken back and done again.
#[test]
fn a_pin_turns(rt: HostRuntime) {
    let mut roots = host(&rt, rt.alloc());
    let path = word(&rt, rt.alloc(), b"/m");
    let mut back = roots.pin(&path, Target::Map(1)).expect(&rt, "a pin");
    roots.turn(&mut back);
    assert_eq!(rt; roots.pinned(&path), None);
    roots.turn(&mut back);
    assert_eq!(rt; roots.pinned(&path), Some(Target::Map(1)));
}

/// Taking a pin away is taken back and done again; what takes it back holds what was pinned.
#[test]
fn taking_a_pin_away_turns(rt: HostRuntime) {
    let mut roots = host(&rt, rt.alloc());
    let path = word(&rt, rt.alloc(), b"/m");
    let _ = roots.pin(&path, Target::Map(1)).expect(&rt, "a pin");
    let mut back = roots.unpin(&path).expect(&rt, "a pin");
    roots.turn(&mut back);
    assert_eq!(rt; roots.pinned(&path), Some(Target::Map(1)));
    roots.turn(&mut back);
    let is_held = matches!(
        back,
        RootBack::Pin {
            target: Some(Target::Map(1)),
            ..
        }
    );
    assert!(rt; roots.pinned(&path).is_none() && is_held);
    assert!(rt; roots.pins().next().is_none());
}

/// A program that takes the place of another is taken back and done again.
#[test]
fn a_program_turns(rt: HostRuntime) {
    let mut roots = host(&rt, rt.alloc());
    let _ = roots.attach(b"eth1", 7, false).expect(&rt, "a device");
    let mut back = roots.attach(b"eth1", 8, true).expect(&rt, "a device");
    roots.turn(&mut back);
    assert_eq!(rt; roots.device(b"eth1"), Some((2, Some(7))));
    roots.turn(&mut back);
    assert_eq!(rt; roots.device(b"eth1"), Some((2, Some(8))));
}

/// Taking a program away is taken back, and there is none to take away at another device.
#[test]
fn taking_a_program_away_turns(rt: HostRuntime) {
    let mut roots = host(&rt, rt.alloc());
    let _ = roots.attach(b"eth1", 8, false).expect(&rt, "a device");
    let mut back = roots.detach(b"eth1").expect(&rt, "a program");
    assert_eq!(rt; roots.device(b"eth1"), Some((2, None)));
    roots.turn(&mut back);
    assert_eq!(rt; roots.device(b"eth1"), Some((2, Some(8))));
    assert_eq!(rt; roots.detach(b"eth0").err(), Some(RootFault::NoEntry));
    assert!(rt; roots.device(b"lo").is_none() && roots.devices().len() == 2);
}

fn live(rt: &impl Abort, roots: &Roots, links: &[(Target, Target)]) -> Vec<Target> {
    roots.live_set(links).expect(rt, "the live objects")
}

/// A cycle is live while a program of it is attached.
#[test]
fn a_cycle_is_live_while_attached(rt: HostRuntime) {
    let mut roots = host(&rt, rt.alloc());
    let cycle = [
        (Target::Map(1), Target::Prog(2)),
        (Target::Prog(2), Target::Map(1)),
        (Target::Prog(3), Target::Map(5)),
    ];
    assert!(rt; live(&rt, &roots, &cycle).is_empty());
    let _ = roots.attach(b"eth0", 2, false).expect(&rt, "a device");
    let wanted = [Target::Map(1), Target::Prog(2)];
    assert!(rt; live(&rt, &roots, &cycle).as_slice() == wanted.as_slice());
}

// A chain of so many links, the last one first.
fn chain(rt: &impl Abort, alloc: Global, count: u32) -> Vec<(Target, Target)> {
    let mut links = Vec::new(alloc);
    for id in (0..count).rev() {
        let link = (Target::Map(id), Target::Map(id.wrapping_add(1)));
        assert!(rt; links.push(link).is_ok());
    }
    links
}

#[test]
fn a_chain_is_live_by_its_first_pin(rt: HostRuntime) {
    let mut roots = host(&rt, rt.alloc());
    let first = word(&rt, rt.alloc(), b"/first");
    let _ = roots.pin(&first, Target::Map(0)).expect(&rt, "a pin");
    let live = live(&rt, &roots, &chain(&rt, rt.alloc(), 10_000));
    assert_eq!(rt; live.len(), 10_001);
    assert!(rt; live.contains(&Target::Map(10_000)));
}
