//! The column.
use crate::shared::*;
use column::store::*;
use marks::store::MarkStore;
use std::test::Fail;

/// A word of ones.
const BLANK: u32 = 0xffff_ffff;

#[test]
fn a_column_of_no_pair_is_full(rt: HostRuntime) -> Result<(), Fail> {
    let mut none = [0u32; 0];
    full(&rt, &mut Column::new(&mut none), 0, "no word");
    let mut one = [BLANK];
    full(&rt, &mut Column::new(&mut one), 0, "an odd last word");
    assert_eq!(rt; one, [BLANK]);
    Ok(())
}

#[test]
fn raises_write_the_first_blank_pair(rt: HostRuntime) -> Result<(), Fail> {
    let mut words = [5, 5, 7, !7, BLANK, BLANK, BLANK, BLANK, BLANK];
    let mut column = Column::new(&mut words);
    stands(&rt, &column, 7, 2, "as found");
    column.raise()?;
    stands(&rt, &column, 8, 1, "raised once");
    column.raise()?;
    full(&rt, &mut column, 9, "raised twice");
    assert_eq!(rt; words, [5, 5, 7, !7, 8, !8, 9, !9, BLANK]);
    Ok(())
}

#[test]
fn torn_raises_leave_junk(rt: HostRuntime) -> Result<(), Fail> {
    let mut words = [BLANK; 12];
    let mut column = Column::new(&mut words);
    column.torn_raise(0, 0)?;
    stands(
        &rt,
        &column,
        0,
        5,
        "a junk first word of 0 makes the pair count",
    );
    column.torn_raise(0, BLANK)?;
    stands(&rt, &column, 0, 5, "the pair is blank again");
    column.torn_raise(0, 77)?;
    stands(&rt, &column, 0, 4, "the pair is wasted");
    column.torn_raise(1, 77)?;
    stands(&rt, &column, 0, 3, "the complement is junk");
    column.torn_raise(1, !1)?;
    stands(&rt, &column, 1, 2, "the junk is the complement");
    column.torn_raise(2, 77)?;
    stands(&rt, &column, 2, 1, "both writes went through");
    assert_eq!(rt;
        words,
        [0, BLANK, 77, BLANK, 1, 77, 1, !1, 2, !2, BLANK, BLANK]
    );
    Ok(())
}

#[test]
fn the_highest_mark_ends_a_column(rt: HostRuntime) -> Result<(), Fail> {
    let mut words = [0xffff_fffe, 1, BLANK, BLANK, BLANK, BLANK];
    let mut column = Column::new(&mut words);
    stands(&rt, &column, 0xffff_fffe, 1, "two blank pairs, one number");
    column.torn_raise(1, BLANK)?;
    stands(&rt, &column, 0xffff_fffe, 1, "the pair is blank again");
    column.raise()?;
    full(&rt, &mut column, BLANK, "raised to the highest number");
    assert_eq!(rt; words, [0xffff_fffe, 1, BLANK, 0, BLANK, BLANK]);
    Ok(())
}

#[test]
fn at_most_8192_words_are_used(rt: HostRuntime) -> Result<(), Fail> {
    let mut words = vec![in rt.alloc(); 0u32; 8194]?;
    words[8190] = BLANK;
    words[8191] = BLANK;
    words[8192] = BLANK;
    words[8193] = BLANK;
    let mut column = Column::new(&mut words);
    stands(&rt, &column, 0, 1, "as found");
    column.raise()?;
    full(&rt, &mut column, 1, "raised once");
    Ok(())
}
