// Tests of words of small lengths, each word against a second count; refusals at their borders.
use crate::both::Both;
use crate::fields::FieldTest;
use crate::parity::RowTest;
use crate::testing::Test;
use frames::bits::Bits;
use frames::faults::Fault;
use frames::halves::Halves;
use frames::words::Word;
use std::alloc::Global;
use std::test::Fail;

// The halves whose first five places are the five lowest digits of a number, the highest first. The tests of each
// crate spell their small words themselves: a helper for all would need a crate for tests alone.
fn five(number: u64) -> Halves {
    Halves {
        first: (number % 32) << 59,
        second: 0,
    }
}

fn word(number: u64) -> Result<Word, Fail> {
    let bits = Bits::new(5, five(number))?;
    Ok(Word { bits })
}

// Whether a number has an odd number of digits 1.
fn is_odd(number: u64) -> bool {
    number.count_ones() % 2 == 1
}

#[test]
fn rows_accept_even_words(rt: HostRuntime) -> Result<(), Fail> {
    let test = RowTest::new(rt.alloc(), 5, &[five(0b11000), five(0b00111)])?;
    assert_eq!(rt; test.len(), 5);
    for number in 0..32 {
        let expected = !is_odd(number & 0b11000) && !is_odd(number & 0b00111);
        assert_eq!(rt; test.accepts(&word(number)?), expected);
    }
    Ok(())
}

#[test]
fn fields_hold_their_range(rt: HostRuntime) -> Result<(), Fail> {
    let test = FieldTest::new(5, 1, 3, 2, 5)?;
    for number in 0..32 {
        let held = (number >> 1) % 8;
        assert_eq!(rt; test.accepts(&word(number)?), held >= 2 && held <= 5);
    }
    Ok(())
}

#[test]
fn other_lengths_are_not_accepted(rt: HostRuntime) -> Result<(), Fail> {
    let four = FieldTest::new(4, 0, 1, 0, 1)?;
    let all = RowTest::new(rt.alloc(), 5, &[])?;
    assert!(rt; !four.accepts(&word(0)?));
    assert!(rt; all.accepts(&word(0)?));
    let both = Both {
        left: four,
        right: all,
    };
    assert_eq!(rt; both.len(), 0);
    assert!(rt; !both.accepts(&word(0)?));
    Ok(())
}

fn row_fault(heap: Global, len: usize, rows: &[Halves]) -> Option<Fault> {
    RowTest::new(heap, len, rows).err()
}

#[test]
fn rows_are_refused(rt: HostRuntime) {
    let rows = [five(1); 33];
    let heap = rt.alloc();
    assert_eq!(rt; row_fault(heap, 5, &rows[0..32]), None);
    assert_eq!(rt; row_fault(heap, 0, &rows), Some(Fault::Length));
    assert_eq!(rt; row_fault(heap, 129, &rows), Some(Fault::Length));
    assert_eq!(rt; row_fault(heap, 4, &rows), Some(Fault::TooManyRows));
    assert_eq!(rt;
        row_fault(heap, 4, &[five(2), five(1)]),
        Some(Fault::RowMark(1))
    );
}

fn field_fault(len: usize, first: usize, count: usize, low: u32, high: u32) -> Option<Fault> {
    FieldTest::new(len, first, count, low, high).err()
}

#[test]
fn fields_are_refused(rt: HostRuntime) {
    assert_eq!(rt; field_fault(128, 112, 16, 0, 65535), None);
    assert_eq!(rt; field_fault(0, 0, 0, 0, 0), Some(Fault::Length));
    assert_eq!(rt; field_fault(129, 0, 1, 0, 0), Some(Fault::Length));
    assert_eq!(rt; field_fault(128, 0, 0, 0, 0), Some(Fault::Field));
    assert_eq!(rt; field_fault(128, 0, 17, 0, 0), Some(Fault::Field));
    assert_eq!(rt; field_fault(128, 113, 16, 0, 0), Some(Fault::Field));
    assert_eq!(rt; field_fault(128, usize::MAX, 1, 0, 0), Some(Fault::Field));
    assert_eq!(rt; field_fault(128, 0, 3, 5, 4), Some(Fault::Field));
    assert_eq!(rt; field_fault(128, 0, 3, 0, 8), Some(Fault::Field));
    assert_eq!(rt; field_fault(128, 0, 3, 7, 7), None);
}
