//! Attributes, bytes, atomic instructions and error numbers, and blocks of rows, at their edges.

use bt_mapkind::{AtomicOp, AtomicSize, Bytes, Errno, MapAttr, MapType, Query};
use map_block::Block;

/// A type, a key size, flags, and whether a map has them. Other sizes are in scripts of each type.
const ATTRIBUTES: [(MapType, u32, u32, bool); 4] = [
    (MapType::Array, 4, 0, true),
    (MapType::Array, 8, 0, false),
    (MapType::LpmTrie, 5, 1, true),
    (MapType::LpmTrie, 5, 0, false),
];

#[test]
fn attributes_and_errors(rt: HostRuntime) {
    for (kind, key_size, flags, is_good) in ATTRIBUTES {
        let attr = MapAttr {
            kind,
            key_size,
            value_size: 4,
            max_entries: 2,
            flags,
        };
        assert_eq!(rt; attr.good(), is_good, "{attr:?}");
    }
    assert_eq!(rt; Errno::ENOMEM.number(), 12);
}

#[test]
fn bytes_hold_up_to_260(rt: HostRuntime) {
    let many = [7u8; 261];
    let most = Bytes::of(rt.alloc(), &many[..260]).expect(&rt, "260 bytes");
    assert!(rt; most.len() == 260 && !most.is_empty());
    assert!(rt; Bytes::of(rt.alloc(), &many).is_none());
    assert!(rt; most.copy() == most && Bytes::short(rt.alloc(), &many[..260]) == most);
    assert!(rt; most != Bytes::short(rt.alloc(), &[1, 2, 0, 0]));
}

#[test]
fn four_bytes_are_an_index_and_are_exchanged(rt: HostRuntime) {
    let mut key = Bytes::of(rt.alloc(), &[1, 2, 0, 0]).expect(&rt, "four bytes");
    assert!(rt; key.index() == 513);
    let mut other = [9u8, 8, 7, 6];
    if key.len() == 4 {
        key.exchange(&mut other);
    }
    assert!(rt; key.as_slice() == [9, 8, 7, 6].as_slice() && other == [1, 2, 0, 0]);
    assert!(rt; Query::Next(None) != Query::Next(Some(key)));
}

#[test]
fn atomic_instructions(rt: HostRuntime) {
    let cases = [
        (AtomicOp::Add { fetch: false }, 0xffff_ffff, 4),
        (AtomicOp::Or { fetch: true }, 0x10, 0x15),
        (AtomicOp::Xor { fetch: false }, 0x1_0000_0001, 0x4),
        (
            AtomicOp::CompareExchange {
                expected: 0x7_0000_0005,
            },
            8,
            8,
        ),
        (AtomicOp::CompareExchange { expected: 6 }, 8, 5),
    ];
    for (op, operand, after) in cases {
        let mut bytes = [5u8, 0, 0, 0];
        op.apply(AtomicSize::Word, operand, &mut bytes);
        assert_eq!(rt; u32::from_le_bytes(bytes), after);
        assert_eq!(rt; op.combined_word(5, operand), after);
    }
    assert_eq!(rt; AtomicOp::And { fetch: false }.combined(6, 3), 2);
    assert!(rt; AtomicOp::Exchange.fetches() && !AtomicOp::Or { fetch: false }.fetches());
    assert_eq!(rt; AtomicSize::DoubleWord.in_bytes(), 8);
}

/// Rows begin zero; a write, an exchange and an atomic instruction change their row alone.
#[test]
fn rows_of_a_block(rt: HostRuntime) {
    let mut block = Block::zeros(rt.alloc(), 2, 12).expect(&rt, "a block");
    let mut bytes = Bytes::of(rt.alloc(), &[8; 12]).expect(&rt, "12 bytes");
    assert!(rt; block.is_zero() && block.len() == 2 && block.row(1).len() == 12);
    block.combine(1, 8, AtomicOp::Add { fetch: false }, AtomicSize::Word, 258);
    assert!(rt; block.len() == 2 && block.row(0).len() == 12);
    block.write(0, 10, &[7, 6]);
    assert!(rt; block.len() == 2 && block.row(0).len() == 12 && block.row(1).len() == 12);
    assert!(rt; block.row(1) == [0, 0, 0, 0, 0, 0, 0, 0, 2, 1, 0, 0].as_slice());
    block.exchange(0, &mut bytes);
    assert!(rt; bytes.as_slice() == [0, 0, 0, 0, 0, 0, 0, 0, 0, 0, 7, 6].as_slice());
    assert!(rt; block.len() == 2 && block.row(0).len() == 12);
    assert!(rt; block.copy_of(0).as_slice() == [8; 12].as_slice());
}
