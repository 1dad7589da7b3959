//! Makings of maps in a book whose budget is used up.

use crate::books::{
    ARRAY, AnyMap, LIMITS, array_of, book_within, is_recorded, is_refused, making, write,
};
use bt_journal::Book;
use bt_mapkind::{MapAttr, MapKind};
use host_state::{Refusal, Reply};
use journal_model::Limits;
use std::alloc::Global;
use std::process::Abort;

// An array of two values: it is charged 10, all of the budget.
const WHOLE: MapAttr = MapAttr {
    max_entries: 2,
    ..ARRAY
};

// An array of two longer values.
const WIDER: MapAttr = MapAttr {
    value_size: 2,
    ..WHOLE
};

// Whether a book has one map, which is charged all of the budget.
fn is_used_up<K: MapKind>(book: &Book<K>) -> bool {
    book.charged() == 10 && book.room() == 0 && book.moments() == 1 && book.attr(2).is_none()
}

// Another map is refused and changes nothing: the next change has the next serial.
fn refuses_another<K: MapKind>(
    rt: &impl Abort,
    alloc: Global,
    kinds: (K, K),
    attr: MapAttr,
    refusal: Refusal,
) {
    let (first, second) = kinds;
    let limits = Limits {
        budget: 10,
        ..LIMITS
    };
    let mut book = book_within(rt, alloc, limits);
    let making_one = making(rt, alloc, WHOLE, 1, None);
    assert!(rt; is_recorded(&mut book, making_one, Some(first), 1, Reply::Id(1)));
    assert!(rt; is_used_up(&book));
    let making_another = making(rt, alloc, attr, 2, None);
    assert!(rt; is_refused(&mut book, making_another, Some(second), refusal));
    assert!(rt; is_used_up(&book));
    let writing = write(rt, alloc, 1, 5);
    assert!(rt; is_recorded(&mut book, writing, None, 2, Reply::Done));
    assert!(rt; book.charged() == 10);
}

// The attributes of the other map and those of its box, and why it is refused.
#[test]
fn another_map_where_the_budget_is_used_up(rt: HostRuntime) {
    for (attr, boxed, refusal) in [
        (WHOLE, WHOLE, Refusal::BudgetFull),
        (ARRAY, ARRAY, Refusal::BudgetFull),
        (WHOLE, WIDER, Refusal::WrongBlank),
    ] {
        let kinds = (
            array_of(&rt, rt.alloc(), WHOLE),
            array_of(&rt, rt.alloc(), boxed),
        );
        refuses_another::<AnyMap>(&rt, rt.alloc(), kinds, attr, refusal);
    }
}
