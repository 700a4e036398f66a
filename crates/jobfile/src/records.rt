// Readings as records of nine bytes: a kind, and two patterns of floats, the least byte first.
ghost use Rattle.std.specs.Prelude.{◌≡◌, IfOk, if◌then◌else◌, Some, Ok, Err, ◌==◌, from_bits, ok_or, to_bits};
ghost use Rattle.std.specs.Float.{binary32};
ghost use Rattle.frames.specs.Cells.{is_good};
ghost use Rattle.jobfile.specs.Causes.{cause_text};
ghost use Rattle.jobfile.specs.Records.{record_kind, record_byte, record_of_parts, record_of, reading_of_parts, reading_of, record_at};
ghost use Rattle.jobfile.specs.declared.records.ReadingFault.TheVariants.{Kind};

use frames::readings::{Levels, Reading};
use std::fmt;
use std::num::{f32_from_bits_with_nan, f32_to_bits_with_nan};

// Why a record gives no reading.
#[derive(Clone, Copy, Debug, PartialEq, Eq)]
pub enum ReadingFault {
    Kind,
    Spare,
    Level,
}

impl fmt::Display for ReadingFault {
    ghost output = { λ x. Some (cause_text x) };

    fn fmt<W: fmt::Write>(&self, f: &mut fmt::Formatter<W>) -> fmt::Result {
        match self {
            ReadingFault::Kind => f.write_str("kind"),
            ReadingFault::Spare => f.write_str("spare"),
            ReadingFault::Level => f.write_str("level"),
        }
    }
}

// The kind of a record, which its first byte tells.
#[derive(Clone, Copy)]
pub(crate) enum RecordKind {
    Dropout,
    Single,
    Pair,
}

impl From<RecordKind> for u8 {
    ghost from_gives = { λ kind r. r ≡ record_byte kind };

    fn from(kind: RecordKind) -> u8 {
        kind as u8
    }
}

impl TryFrom<u8> for RecordKind {
    type Error = ReadingFault;

    ghost try_from_gives = { λ byte r. r ≡ ok_or (record_kind byte) Kind };

    fn try_from(byte: u8) -> Result<RecordKind, ReadingFault> {
        match byte {
            0 => Ok(RecordKind::Dropout),
            1 => Ok(RecordKind::Single),
            2 => Ok(RecordKind::Pair),
            _ => Err(ReadingFault::Kind),
        }
    }
}

// A pattern that a record of its kind does not use is zero.
fn spare(pattern: u32) -> Result<(), ReadingFault>
    ensures { result ≡ (if pattern == 0 then Ok tt else Err ReadingFault.Spare) }
{
    if pattern == 0 {
        Ok(())
    } else {
        Err(ReadingFault::Spare)
    }
}

// A reading whose levels may be read.
fn good(reading: Reading) -> Result<Reading, ReadingFault>
    ensures { result ≡ (if is_good reading then Ok reading else Err ReadingFault.Level) }
{
    if reading.is_good() {
        Ok(reading)
    } else {
        Err(ReadingFault::Level)
    }
}

// The reading of a kind and two patterns, which are no struct: they are the record.
fn reading_of_parts(kind: u8, left: u32, right: u32) -> Result<Reading, ReadingFault>
    ensures { result ≡ reading_of_parts kind left right }
{
    match RecordKind::try_from(kind)? {
        RecordKind::Dropout => {
            spare(left)?;
            spare(right)?;
            Ok(Reading::Dropout)
        }
        RecordKind::Single => {
            spare(right)?;
            good(Reading::Single(f32_from_bits_with_nan(left)))
        }
        RecordKind::Pair => good(Reading::Pair(Levels {
            left: f32_from_bits_with_nan(left),
            right: f32_from_bits_with_nan(right),
        })),
    }
}

// The reading of a record. Inlined, since as a call of its own it makes reading a section take half as long again.
#[inline]
pub fn read_record(record: &[u8; 9]) -> Result<Reading, ReadingFault>
    ensures value { result ≡ reading_of «record».now }
    ensures back { IfOk result (λ reading. record_of reading ≡ «record».now) }
{
    let [kind, a, b, c, d, e, f, g, h] = *record;
    reading_of_parts(
        kind,
        u32::from_le_bytes([a, b, c, d]),
        u32::from_le_bytes([e, f, g, h]),
    )
}

// The record of a kind and two patterns.
fn record_of_parts(kind: RecordKind, left: u32, right: u32) -> [u8; 9]
    ensures { result ≡ record_of_parts (record_byte kind) left right }
{
    let [a, b, c, d] = left.to_le_bytes();
    let [e, f, g, h] = right.to_le_bytes();
    [u8::from(kind), a, b, c, d, e, f, g, h]
}

// The pattern of a level.
fn pattern_of(level: f32) -> u32
    ensures value { result ≡ to_bits binary32 level }
    ensures back { from_bits binary32 result ≡ level }
{
    f32_to_bits_with_nan(level)
}

// The record of a reading whose levels may be read.
pub fn write_record(reading: Reading) -> Result<[u8; 9], ReadingFault>
    ensures value { result ≡ (if is_good reading then Ok (record_of reading) else Err ReadingFault.Level) }
    ensures back { IfOk result (λ bytes. reading_of bytes ≡ Ok reading) }
{
    let record = match good(reading)? {
        Reading::Dropout => record_of_parts(RecordKind::Dropout, 0, 0),
        Reading::Single(level) => record_of_parts(RecordKind::Single, pattern_of(level), 0),
        Reading::Pair(levels) => record_of_parts(
            RecordKind::Pair,
            pattern_of(levels.left),
            pattern_of(levels.right),
        ),
    };
    Ok(record)
}

// Record number `index` of bytes that hold records one after another.
pub fn record_at(bytes: &[u8], index: usize) -> Option<[u8; 9]>
    ensures { result ≡ record_at bytes.now index }
{
    let from = index.checked_mul(9)?;
    let rest = bytes.get(from..)?;
    rest.first_chunk::<9>().copied()
}

#[cfg(test)]
mod tests {
    use super::*;
    use std::process::Abort;
    use std::test::Fail;

    // The record reads as the reading, and the reading is written as the record. Each helper takes the handle and what
    // is tried, which an assertion prints.
    fn both_ways(
        rt: &impl Abort,
        what: &str,
        record: [u8; 9],
        reading: Reading,
    ) -> Result<(), Fail> {
        assert_eq!(rt; read_record(&record), Ok(reading), "{what}");
        assert_eq!(rt; write_record(reading), Ok(record), "{what}");
        Ok(())
    }

    // The record gives the fault.
    fn refused(
        rt: &impl Abort,
        what: &str,
        record: [u8; 9],
        fault: ReadingFault,
    ) -> Result<(), Fail> {
        assert_eq!(rt; read_record(&record), Err(fault), "{what}");
        Ok(())
    }

    #[test]
    fn readings_go_both_ways(rt: HostRuntime) -> Result<(), Fail> {
        let pair = Levels {
            left: 127.0,
            right: -127.0,
        };
        both_ways(&rt, "readings go both ways", [0; 9], Reading::Dropout)?;
        both_ways(
            &rt,
            "readings go both ways",
            [1, 0, 0, 0x80, 0x3f, 0, 0, 0, 0],
            Reading::Single(1.0),
        )?;
        both_ways(
            &rt,
            "readings go both ways",
            [2, 0, 0, 0xfe, 0x42, 0, 0, 0xfe, 0xc2],
            Reading::Pair(pair),
        )
    }

    #[test]
    fn small_levels_go_both_ways(rt: HostRuntime) -> Result<(), Fail> {
        both_ways(
            &rt,
            "minus zero",
            [1, 0, 0, 0, 0x80, 0, 0, 0, 0],
            Reading::Single(-0.0),
        )?;
        both_ways(
            &rt,
            "subnormal",
            [1, 1, 0, 0, 0, 0, 0, 0, 0],
            Reading::Single(1e-45),
        )
    }

    #[test]
    fn levels_past_127_are_refused(rt: HostRuntime) -> Result<(), Fail> {
        refused(
            &rt,
            "above 127",
            [1, 1, 0, 0xfe, 0x42, 0, 0, 0, 0],
            ReadingFault::Level,
        )?;
        refused(
            &rt,
            "NaN",
            [1, 0, 0, 0xc0, 0x7f, 0, 0, 0, 0],
            ReadingFault::Level,
        )?;
        refused(
            &rt,
            "infinity",
            [1, 0, 0, 0x80, 0x7f, 0, 0, 0, 0],
            ReadingFault::Level,
        )?;
        refused(
            &rt,
            "minus infinity",
            [2, 0, 0, 0, 0, 0, 0, 0x80, 0xff],
            ReadingFault::Level,
        )?;
        assert_eq!(rt;
            write_record(Reading::Single(f32::NAN)),
            Err(ReadingFault::Level)
        );
        Ok(())
    }

    #[test]
    fn faults_come_in_order(rt: HostRuntime) -> Result<(), Fail> {
        refused(
            &rt,
            "faults come in order",
            [3, 0, 0, 0, 0, 0, 0, 0, 1],
            ReadingFault::Kind,
        )?;
        refused(
            &rt,
            "faults come in order",
            [0, 0, 0, 0, 0, 0, 0, 0, 1],
            ReadingFault::Spare,
        )?;
        refused(
            &rt,
            "faults come in order",
            [0, 0, 0, 0, 0x80, 0, 0, 0, 0],
            ReadingFault::Spare,
        )?;
        refused(
            &rt,
            "faults come in order",
            [1, 0, 0, 0xc0, 0x7f, 1, 0, 0, 0],
            ReadingFault::Spare,
        )
    }

    #[test]
    fn records_lie_one_after_another(rt: HostRuntime) {
        let mut bytes = [0; 20];
        bytes[9] = 1;
        bytes[17] = 2;
        let last = Some([1, 0, 0, 0, 0, 0, 0, 0, 2]);
        assert_eq!(rt; record_at(&bytes, 1), last);
        assert_eq!(rt; record_at(&bytes[0..18], 1), last);
        assert_eq!(rt; record_at(&bytes[0..17], 1), None);
        assert_eq!(rt; record_at(&bytes, 2), None);
        assert_eq!(rt; record_at(&bytes, usize::MAX), None);
    }

    #[test]
    fn faults_print(rt: HostRuntime) -> Result<(), Fail> {
        let text = format!(in rt.alloc();
            "{} {} {}",
            ReadingFault::Kind,
            ReadingFault::Spare,
            ReadingFault::Level
        )?;
        assert!(rt; text.as_str() == "kind spare level");
        Ok(())
    }
}
