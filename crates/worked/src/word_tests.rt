// Words, patterns and rows against a count place by place.
use frames::bits::Bits;
use frames::faults::Fault;
use frames::halves::Halves;
use frames::length::Length;
use frames::tables::RowTable;
use frames::words::{Pattern, Row, Word};
use std::test::Fail;

// The word of five places, place 0 first, that the five lowest digits of a number spell. The tests of each crate spell
// their small words themselves: a helper for all would need a crate for tests alone.
fn five(number: u64) -> Result<Bits, Fail> {
    let halves = Halves {
        first: (number % 32) << 59,
        second: 0,
    };
    Ok(Bits::new(5, halves)?)
}

// Place `place` of those five.
fn place_of(number: u64, place: usize) -> bool {
    let shift = 4 - place.min(4);
    (number >> shift) % 2 == 1
}

#[test]
fn words_of_five_places(rt: HostRuntime) -> Result<(), Fail> {
    for a in 0..32 {
        let bits = five(a)?;
        assert_eq!(rt; bits.len(), 5);
        let mut marks = 0u32;
        for place in 0..5 {
            assert_eq!(rt; bits.bit(place), Some(place_of(a, place)));
            marks = marks.wrapping_add(u32::from(place_of(a, place)));
        }
        assert_eq!(rt; bits.bit(5), None);
        assert_eq!(rt; bits.marks(), marks);
    }
    Ok(())
}

#[test]
fn places_come_in_order(rt: HostRuntime) -> Result<(), Fail> {
    for a in 0..32 {
        let bits = five(a)?;
        let mut number = 0u64;
        for bit in &bits {
            number = number.wrapping_mul(2).wrapping_add(u64::from(bit));
        }
        assert_eq!(rt; number, a);
        assert_eq!(rt; bits.iter().skip(5).next(), None);
    }
    Ok(())
}

#[test]
fn pairs_of_five_places(rt: HostRuntime) -> Result<(), Fail> {
    for a in 0..32 {
        for b in 0..32 {
            let bits = five(a)?;
            let other = five(b)?;
            let mut odd = false;
            let mut first: Option<bool> = None;
            for place in 0..5 {
                let x = place_of(a, place);
                let y = place_of(b, place);
                odd ^= x && y;
                if x != y {
                    first = first.or(Some(y));
                }
            }
            assert_eq!(rt; bits.parity(&Row { bits: other }), odd);
            assert_eq!(rt; bits.precedes(&other), first.unwrap_or(false));
            let word = Word { bits };
            let pattern = Pattern { bits: five(a ^ b)? };
            assert_eq!(rt; word.between(&Word { bits: other }), Some(pattern));
            assert_eq!(rt; word.flipped(&pattern), Some(Word { bits: other }));
        }
    }
    Ok(())
}

// Marks at the places 63 and 64 alone.
const MIDDLE: Halves = Halves {
    first: 1,
    second: 0x8000_0000_0000_0000,
};

fn fault_of(len: usize, halves: Halves) -> Option<Fault> {
    Bits::new(len, halves).err()
}

#[test]
fn marks_end_at_the_length(rt: HostRuntime) {
    assert_eq!(rt; fault_of(0, MIDDLE), Some(Fault::Length));
    assert_eq!(rt; fault_of(129, MIDDLE), Some(Fault::Length));
    assert_eq!(rt; fault_of(1, MIDDLE), Some(Fault::Mark));
    assert_eq!(rt; fault_of(64, MIDDLE), Some(Fault::Mark));
    assert_eq!(rt; fault_of(65, MIDDLE), None);
    assert_eq!(rt; fault_of(128, MIDDLE), None);
    let low = Halves {
        first: 0,
        second: 1,
    };
    assert_eq!(rt; fault_of(127, low), Some(Fault::Mark));
    assert_eq!(rt; fault_of(128, low), None);
}

#[test]
fn lengths_are_1_to_128(rt: HostRuntime) -> Result<(), Fail> {
    for places in [1usize, 64, 128] {
        assert_eq!(rt; usize::from(Length::try_from(places)?), places);
    }
    assert_eq!(rt; Length::try_from(0).err(), Some(Fault::Length));
    assert_eq!(rt; Length::try_from(129).err(), Some(Fault::Length));
    Ok(())
}

#[test]
fn lengths_that_differ(rt: HostRuntime) -> Result<(), Fail> {
    let short = five(4)?;
    let long = Bits::new(65, MIDDLE)?;
    let word = Word { bits: long };
    assert_eq!(rt; word.flipped(&Pattern { bits: short }), None);
    assert_eq!(rt; word.between(&Word { bits: short }), None);
    assert!(rt; !long.parity(&Row { bits: short }));
    assert!(rt; long.precedes(&short));
    assert!(rt; !short.precedes(&long));
    Ok(())
}

#[test]
fn the_first_bad_row_is_told(rt: HostRuntime) -> Result<(), Fail> {
    let none = Halves {
        first: 0,
        second: 0,
    };
    let heap = rt.alloc();
    let table = RowTable::new(heap, 65, &[none, MIDDLE])?;
    assert_eq!(rt; table.len(), 2);
    assert_eq!(rt; table.row_len(), 65);
    assert!(rt; table.row(1).is_some());
    assert!(rt; table.row(2).is_none());
    let mut marks = 0u32;
    for row in &table {
        marks = marks.wrapping_mul(3).wrapping_add(row.bits.marks());
    }
    assert_eq!(rt; marks, 2);
    assert_eq!(rt; table.iter().count(), 2);
    let refused = RowTable::new(heap, 64, &[none, MIDDLE, MIDDLE]).err();
    assert_eq!(rt; refused, Some(Fault::RowMark(1)));
    Ok(())
}
