// Readings at the edges of what may be read.
use frames::readings::{Cell, Levels, Reading};
use std::num::f32_from_bits_with_nan;
use std::process::Abort;
use std::test::Fail;

// Each helper takes the handle and what is tried, which an assertion prints.
fn gives(
    rt: &impl Abort,
    what: &str,
    reading: Reading,
    bit: bool,
    weight: u16,
) -> Result<(), Fail> {
    assert_eq!(rt; reading.cell(), Some(Cell { bit, weight }), "{what}");
    Ok(())
}

fn refused(rt: &impl Abort, what: &str, reading: Reading) -> Result<(), Fail> {
    assert_eq!(rt; reading.cell(), None, "{what}");
    Ok(())
}

fn pair(left: f32, right: f32) -> Reading {
    Reading::Pair(Levels { left, right })
}

#[test]
fn levels_give_cells(rt: HostRuntime) -> Result<(), Fail> {
    gives(&rt, "levels give cells", Reading::Single(0.5), false, 128)?;
    gives(&rt, "levels give cells", Reading::Single(-0.0), false, 0)?;
    gives(&rt, "-1/512", Reading::Single(-0.001953125), true, 0)?;
    gives(
        &rt,
        "levels give cells",
        Reading::Single(127.0),
        false,
        32512,
    )?;
    gives(
        &rt,
        "levels give cells",
        Reading::Single(-127.0),
        true,
        32512,
    )?;
    gives(
        &rt,
        "the smallest subnormal",
        Reading::Single(1e-45),
        false,
        0,
    )?;
    gives(
        &rt,
        "the smallest subnormal below zero",
        Reading::Single(-1e-45),
        true,
        0,
    )?;
    gives(&rt, "levels give cells", Reading::Dropout, false, 0)
}

#[test]
fn pairs_are_added_once(rt: HostRuntime) -> Result<(), Fail> {
    gives(
        &rt,
        "pairs are added once",
        pair(127.0, 127.0),
        false,
        65024,
    )?;
    gives(&rt, "pairs are added once", pair(1.0, -1.0), false, 0)?;
    gives(&rt, "pairs are added once", pair(-1.0, 0.25), true, 192)?;
    gives(&rt, "the sum rounds to 1", pair(1.0, 1e-45), false, 256)?;
    refused(&rt, "pairs are added once", pair(1.0, f32::NAN))?;
    refused(&rt, "pairs are added once", pair(f32::INFINITY, 1.0))
}

#[test]
fn what_is_no_level_is_refused(rt: HostRuntime) -> Result<(), Fail> {
    refused(
        &rt,
        "the next above 127",
        Reading::Single(f32_from_bits_with_nan(0x42fe_0001)),
    )?;
    refused(
        &rt,
        "the next below -127",
        Reading::Single(f32_from_bits_with_nan(0xc2fe_0001)),
    )?;
    refused(
        &rt,
        "what is no level is refused",
        Reading::Single(f32::NAN),
    )?;
    refused(
        &rt,
        "what is no level is refused",
        Reading::Single(f32::INFINITY),
    )?;
    refused(
        &rt,
        "what is no level is refused",
        Reading::Single(f32::NEG_INFINITY),
    )
}
