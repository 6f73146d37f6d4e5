//! What the tests share.
use marks::store::MarkStore;
use std::process::Abort;
use stream::refusal::*;

/// Holds the two numbers of a store against what they should be; `at` says where.
pub fn stands<S: MarkStore>(rt: &impl Abort, store: &S, mark: u32, left: u32, at: &str) {
    assert_eq!(rt; store.read(), mark, "the mark: {at}");
    assert_eq!(rt; store.raises_left(), left, "the raises left: {at}");
}

/// Checks that a raise and a torn raise are refused with 10 and leave the two numbers.
pub fn full<S: MarkStore>(rt: &impl Abort, store: &mut S, mark: u32, at: &str) {
    assert_eq!(rt; store.raise(), Err(Refusal::NoRaiseLeft), "a raise: {at}");
    assert_eq!(rt;
        store.torn_raise(0, 1),
        Err(Refusal::NoRaiseLeft),
        "a torn raise: {at}"
    );
    assert_eq!(rt;
        store.torn_raise(9, 1),
        Err(Refusal::NoRaiseLeft),
        "a torn raise of which all writes went through: {at}"
    );
    stands(rt, store, mark, 0, at);
}
