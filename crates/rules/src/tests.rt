// Small rules and stacks of them.
use crate::burst::Burst;
use crate::cap::Cap;
use crate::cells::CellWeights;
use crate::free::Free;
use crate::rows::Rows;
use crate::rows::few::FewRows;
use crate::rule::{Rule, has_meaning, law_holds};
use crate::weigh::weigh;
use frames::bits::Bits;
use frames::faults::Fault;
use frames::halves::Halves;
use frames::words::{Pattern, Word};
use std::alloc::Global;
use std::test::Fail;
use weights::flips_first::FlipsFirst;
use weights::level::Level;

// A row that lies in the first half. The tests of each crate spell their small words themselves: a helper
// for all would need a crate for tests alone.
fn half(first: u64) -> Halves {
    Halves { first, second: 0 }
}

fn bits(len: usize, first: u64) -> Result<Bits, Fault> {
    Bits::new(len, half(first))
}

// What the pattern weighs in level weight; none where it is not admitted.
fn level<R: Rule<Cost = Level>>(rule: &R, len: usize, first: u64) -> Result<Option<u32>, Fault> {
    let pattern = Pattern {
        bits: bits(len, first)?,
    };
    Ok(weigh(rule, &pattern).map(|weight| weight.number()))
}

#[test]
fn runs_are_charged_once(rt: HostRuntime) -> Result<(), Fail> {
    let rule: Burst<Level> = Burst::new(rt.alloc(), &[256, 256, 256], 100)?;
    law_holds(&rule);
    assert_eq!(rt; level(&rule, 3, 0b110 << 61)?, Some(612));
    assert_eq!(rt; level(&rule, 3, 0b101 << 61)?, Some(712));
    assert_eq!(rt; level(&rule, 3, 0)?, Some(0));
    assert_eq!(rt; level(&rule, 2, 0b11 << 62)?, None);
    Ok(())
}

// What four flips weigh under a cap of 2, by counting: an odd number in 1100 and in 0110, 1 for each and 100 for each
// run.
fn counted(k: u64) -> Option<u32> {
    let odd = (k & 0b1100).count_ones() % 2 == 1 && (k & 0b0110).count_ones() % 2 == 1;
    let runs = (k & !(k >> 1)).count_ones();
    if odd && k.count_ones() <= 2 {
        Some(k.count_ones().saturating_add(runs.saturating_mul(100)))
    } else {
        None
    }
}

#[test]
fn layers_stand_in_any_order(rt: HostRuntime) -> Result<(), Fail> {
    let heap = rt.alloc();
    let hard = Word {
        bits: bits(4, 0b1010 << 60)?,
    };
    let rows = [half(0b1100 << 60), half(0b0110 << 60)];
    let first: Burst<Level> = Burst::new(heap, &[1; 4], 100)?;
    let capped = Cap::new(Rows::new(heap, first, hard, &rows)?, 2)?;
    let second: Burst<Level> = Burst::new(heap, &[1; 4], 100)?;
    let rowed = Rows::new(heap, Cap::new(second, 2)?, hard, &rows)?;
    assert_eq!(rt; capped.states(), 24);
    for k in 0..16u64 {
        assert_eq!(rt; level(&capped, 4, k << 60)?, counted(k));
        assert_eq!(rt; level(&rowed, 4, k << 60)?, counted(k));
    }
    assert_eq!(rt; counted(0b1010), Some(202));
    Ok(())
}

// Six rows over two cells under a burst rule: 128 states.
fn six_rows(heap: Global, hard: Word) -> Result<Rows<Burst<FlipsFirst>>, Fault> {
    let burst: Burst<FlipsFirst> = Burst::new(heap, &[3, 5], 7)?;
    Rows::new(heap, burst, hard, &[half(1 << 63); 6])
}

#[test]
fn states_are_told_as_products(rt: HostRuntime) -> Result<(), Fail> {
    let heap = rt.alloc();
    let hard = Word {
        bits: bits(2, 1 << 63)?,
    };
    let stack = Cap::new(six_rows(heap, hard)?, 7)?;
    assert_eq!(rt; stack.states(), 1024);
    assert!(rt; has_meaning(&stack));
    let pattern = Pattern {
        bits: bits(2, 1 << 63)?,
    };
    let weight = weigh(&stack, &pattern).ok_or("barred")?;
    assert_eq!(rt; weight.flips(), 1);
    assert_eq!(rt; weight.number(), 10);
    let more = Cap::new(stack, 1)?;
    assert_eq!(rt; more.states(), 2048);
    assert!(rt; !has_meaning(&more));
    let most = Rows::new(heap, more, hard, &[half(0); 6])?;
    assert_eq!(rt; most.states(), 65535);
    Ok(())
}

#[test]
fn lengths_have_to_agree(rt: HostRuntime) -> Result<(), Fail> {
    let heap = rt.alloc();
    let hard = Word { bits: bits(3, 0)? };
    let free: Free<Level> = Free::new(heap, &[1, 2])?;
    let rows = Rows::new(heap, free, hard, &[])?;
    assert_eq!(rt; rows.length(), 0);
    assert!(rt; !has_meaning(&rows));
    assert_eq!(rt; rows.states(), 1);
    Ok(())
}

// The number of the refusal of these rows over two cells.
fn refused(heap: Global, rows: &[Halves]) -> Result<Option<u8>, Fault> {
    let free: Free<Level> = Free::new(heap, &[1, 2])?;
    let hard = Word { bits: bits(2, 0)? };
    Ok(
        Rows::new(heap, free, hard, rows)
            .err()
            .and_then(Fault::number),
    )
}

#[test]
fn bad_parts_are_refused(rt: HostRuntime) -> Result<(), Fail> {
    let heap = rt.alloc();
    let none: Result<Free<Level>, Fault> = Free::new(heap, &[]);
    assert!(rt; none.is_err());
    let long: Result<Burst<Level>, Fault> = Burst::new(heap, &[0; 129], 1);
    assert!(rt; long.is_err());
    assert_eq!(rt; refused(heap, &[half(1); 7])?, Some(3));
    assert_eq!(rt; refused(heap, &[half(1); 6])?, Some(4));
    let free: Free<Level> = Free::new(heap, &[1, 2])?;
    assert!(rt; Cap::new(free, 8).is_err());
    Ok(())
}

#[test]
fn parts_are_made(rt: HostRuntime) -> Result<(), Fail> {
    let heap = rt.alloc();
    let cells = CellWeights::new(heap, &[7, 9])?;
    assert_eq!(rt; cells.len(), 2);
    assert_eq!(rt; cells.get(1), Some(9));
    assert_eq!(rt; cells.get(2), None);
    let word = Word {
        bits: bits(4, 0b1010 << 60)?,
    };
    let rows = FewRows::new(heap, &word, &[half(0b1100 << 60), half(0b0110 << 60)])?;
    assert_eq!(rt; rows.len(), 2);
    let columns = rows.columns(heap, 4)?;
    assert!(rt; columns.as_slice() == [1u8, 3, 2, 0].as_slice());
    assert_eq!(rt; rows.parities(&word), 3);
    Ok(())
}
