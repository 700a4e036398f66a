// Each file is the sample with a few bytes changed, put in front or taken away.
// The sample: records at 0 and 9, a row at 18, and the trailer at 34.
use frames::halves::Halves;
use frames::readings::Reading;
use jobfile::faults::{BadReading, BadRow, FileFault, SectionFault};
use jobfile::jobs::{Job, WeightKind};
use jobfile::reading::read;
use jobfile::records::ReadingFault;
use jobfile::writing::write;
use std::alloc::{AllocError, Global};
use std::process::Abort;
use std::test::Fail;

const SAMPLE: [u8; 50] = [
    0x01, 0x00, 0x00, 0x80, 0x3F, 0x00, 0x00, 0x00, 0x00, 0x01, 0x00, 0x00, 0x80, 0xBF, 0x00, 0x00,
    0x00, 0x00, 0x03, 0x00, 0x00, 0x00, 0x00, 0x00, 0x00, 0x00, 0x00, 0x00, 0x00, 0x00, 0x00, 0x00,
    0x00, 0x00, 0x02, 0x00, 0x01, 0x01, 0x00, 0x00, 0x00, 0x00, 0x12, 0x00, 0x00, 0x00, 0x02, 0x00,
    0x00, 0x5A,
];

// The places of the trailer's numbers.
const N: usize = 34;

const ROWS: usize = 36;

const GUESSED: usize = 37;

const READINGS_AT: usize = 38;

const ROWS_AT: usize = 42;

const LIMIT: usize = 46;

const KIND: usize = 48;

const MARK: usize = 49;

// The sample with some bytes changed.
fn changed(heap: Global, changes: &[(usize, u8)]) -> Result<Vec<u8>, AllocError> {
    let mut bytes = SAMPLE.to_vec(heap)?;
    for (at, byte) in changes {
        if let Some(old) = bytes.get_mut(*at) {
            *old = *byte;
        }
    }
    Ok(bytes)
}

// Bytes with zeros put in front.
fn behind_zeros(heap: Global, count: usize, bytes: &[u8]) -> Result<Vec<u8>, AllocError> {
    let mut all = vec![in heap; 0; count]?;
    all.extend_from_slice(bytes)?;
    Ok(all)
}

// The file has the fault. Each helper takes the handle and what is tried, which an assertion prints.
fn refused(
    rt: &impl Abort,
    what: &str,
    heap: Global,
    bytes: &[u8],
    fault: FileFault,
) -> Result<(), Fail> {
    assert_eq!(rt; read(heap, bytes).err(), Some(fault), "{what}");
    Ok(())
}

// The sample with some bytes changed has the fault, or none.
fn gives(
    rt: &impl Abort,
    what: &str,
    heap: Global,
    changes: &[(usize, u8)],
    fault: Option<FileFault>,
) -> Result<(), Fail> {
    let bytes = changed(heap, changes)?;
    assert_eq!(rt; read(heap, &bytes).err(), fault, "{what}");
    Ok(())
}

// The job of the sample.
fn sample_job(heap: Global) -> Result<Job, FileFault> {
    read(heap, &SAMPLE)
}

// The job is refused, and the buffer of that many bytes stays as it was.
fn not_written(
    rt: &impl Abort,
    what: &str,
    heap: Global,
    job: &Job,
    space: usize,
    fault: FileFault,
) -> Result<(), Fail> {
    let mut out = vec![in heap; 7; space]?;
    assert_eq!(rt; write(job, &mut out), Err(fault), "{what}");
    // one assertion for each byte
    for byte in &out {
        assert_eq!(rt; *byte, 7, "{what}");
    }
    Ok(())
}

fn bad_reading(cause: ReadingFault, index: usize, byte: usize) -> FileFault {
    FileFault::Section(SectionFault::Reading(BadReading { cause, index, byte }))
}

fn bad_row(index: usize, byte: usize) -> FileFault {
    FileFault::Section(SectionFault::Row(BadRow { index, byte }))
}

#[test]
fn the_sample_is_read(rt: HostRuntime) -> Result<(), Fail> {
    let job = sample_job(rt.alloc())?;
    assert!(rt; job.readings.len() == 2);
    assert!(rt; job.readings[0] == Reading::Single(1.0));
    assert!(rt; job.readings[1] == Reading::Single(-1.0));
    assert!(rt; job.rows.len() == 1);
    assert_eq!(rt; job.rows[0].first, 0xC000_0000_0000_0000);
    assert_eq!(rt; job.rows[0].second, 0);
    assert_eq!(rt; job.guessed, 1);
    assert_eq!(rt; job.limit, 2);
    assert_eq!(rt; job.kind, WeightKind::Level);
    Ok(())
}

#[test]
fn the_sample_is_written(rt: HostRuntime) -> Result<(), Fail> {
    let heap = rt.alloc();
    let job = sample_job(heap)?;
    let mut out = vec![in heap; 7; 51]?;
    assert_eq!(rt; write(&job, &mut out), Ok(50));
    assert!(rt; out.len() == 51);
    assert!(rt; &out[0..50] == &SAMPLE[0..50]);
    assert_eq!(rt; out[50], 7);
    Ok(())
}

#[test]
fn form_32(rt: HostRuntime) -> Result<(), Fail> {
    let heap = rt.alloc();
    refused(&rt, "no byte", heap, &[], FileFault::Form)?;
    refused(&rt, "15 bytes", heap, &SAMPLE[35..50], FileFault::Form)?;
    refused(&rt, "16 bytes", heap, &SAMPLE[34..50], FileFault::Layout)?;
    let most = behind_zeros(heap, 4046, &SAMPLE)?;
    assert!(rt; read(heap, &most).is_ok(), "4,096 bytes");
    let over = behind_zeros(heap, 4047, &SAMPLE)?;
    refused(&rt, "4,097 bytes", heap, &over, FileFault::Form)?;
    gives(&rt, "mark", heap, &[(MARK, 0x5B)], Some(FileFault::Form))?;
    gives(
        &rt,
        "32 comes before 33",
        heap,
        &[(MARK, 0xA5), (N, 0)],
        Some(FileFault::Form),
    )
}

#[test]
fn numbers_33(rt: HostRuntime) -> Result<(), Fail> {
    let heap = rt.alloc();
    let fault = Some(FileFault::Numbers);
    let layout = Some(FileFault::Layout);
    gives(&rt, "n is 0", heap, &[(N, 0)], fault)?;
    gives(&rt, "n is 128", heap, &[(N, 128)], layout)?;
    gives(&rt, "n is 129", heap, &[(N, 129)], fault)?;
    gives(&rt, "n is 257", heap, &[(N, 1), (N + 1, 1)], fault)?;
    gives(&rt, "limit is 0", heap, &[(LIMIT, 0)], fault)?;
    gives(&rt, "limit is 1", heap, &[(LIMIT, 1)], None)?;
    gives(&rt, "kind is 1", heap, &[(KIND, 1)], None)?;
    gives(&rt, "kind is 2", heap, &[(KIND, 2)], fault)?;
    gives(&rt, "32 rows", heap, &[(ROWS, 32)], layout)?;
    gives(&rt, "33 rows", heap, &[(ROWS, 33)], fault)?;
    gives(
        &rt,
        "33 comes before 34",
        heap,
        &[(N, 0), (READINGS_AT + 3, 9)],
        fault,
    )
}

#[test]
fn products_33(rt: HostRuntime) -> Result<(), Fail> {
    let heap = rt.alloc();
    let fault = Some(FileFault::Numbers);
    let layout = Some(FileFault::Layout);
    gives(&rt, "2 * 512", heap, &[(LIMIT, 0), (LIMIT + 1, 2)], None)?;
    gives(&rt, "2 * 513", heap, &[(LIMIT, 1), (LIMIT + 1, 2)], fault)?;
    gives(
        &rt,
        "1 * 1,024",
        heap,
        &[(N, 1), (LIMIT, 0), (LIMIT + 1, 4)],
        Some(bad_row(0, 18)),
    )?;
    gives(
        &rt,
        "1 * 1,025",
        heap,
        &[(N, 1), (LIMIT, 1), (LIMIT + 1, 4)],
        fault,
    )?;
    gives(&rt, "none guessed", heap, &[(GUESSED, 0)], None)?;
    gives(&rt, "2 of 1 row guessed", heap, &[(GUESSED, 2)], fault)?;
    gives(
        &rt,
        "6 of 6 guessed",
        heap,
        &[(ROWS, 6), (GUESSED, 6)],
        layout,
    )?;
    gives(
        &rt,
        "7 of 7 guessed",
        heap,
        &[(ROWS, 7), (GUESSED, 7)],
        fault,
    )?;
    gives(
        &rt,
        "16 * 64",
        heap,
        &[(N, 15), (ROWS, 6), (GUESSED, 6)],
        layout,
    )?;
    gives(
        &rt,
        "17 * 64",
        heap,
        &[(N, 16), (ROWS, 6), (GUESSED, 6)],
        fault,
    )
}

#[test]
fn layout_34(rt: HostRuntime) -> Result<(), Fail> {
    let heap = rt.alloc();
    let fault = Some(FileFault::Layout);
    gives(
        &rt,
        "rows begin in the readings",
        heap,
        &[(ROWS_AT, 17)],
        fault,
    )?;
    gives(
        &rt,
        "rows end in the trailer",
        heap,
        &[(ROWS_AT, 19)],
        fault,
    )?;
    gives(
        &rt,
        "readings end in the rows",
        heap,
        &[(READINGS_AT, 1)],
        fault,
    )?;
    gives(
        &rt,
        "rows end in the readings",
        heap,
        &[(READINGS_AT, 16), (ROWS_AT, 1)],
        fault,
    )?;
    gives(
        &rt,
        "readings end in the trailer",
        heap,
        &[(READINGS_AT, 17), (ROWS, 0), (GUESSED, 0)],
        fault,
    )?;
    gives(
        &rt,
        "readings past the file",
        heap,
        &[(READINGS_AT, 50)],
        fault,
    )?;
    gives(&rt, "rows past the file", heap, &[(ROWS_AT, 50)], fault)
}

#[test]
fn far_places_34(rt: HostRuntime) -> Result<(), Fail> {
    let heap = rt.alloc();
    let fault = Some(FileFault::Layout);
    let far = [
        (READINGS_AT, 0xF7),
        (READINGS_AT + 1, 0xFF),
        (READINGS_AT + 2, 0xFF),
        (READINGS_AT + 3, 0xFF),
    ];
    gives(&rt, "readings at 2^32 - 9", heap, &far, fault)?;
    let last = [
        (ROWS_AT, 0xFF),
        (ROWS_AT + 1, 0xFF),
        (ROWS_AT + 2, 0xFF),
        (ROWS_AT + 3, 0xFF),
    ];
    gives(&rt, "rows at 2^32 - 1", heap, &last, fault)?;
    let round = [
        (ROWS_AT, 0xF0),
        (ROWS_AT + 1, 0xFF),
        (ROWS_AT + 2, 0xFF),
        (ROWS_AT + 3, 0xFF),
    ];
    gives(&rt, "rows at 2^32 - 16", heap, &round, fault)
}

#[test]
fn no_rows_stand_anywhere(rt: HostRuntime) -> Result<(), Fail> {
    let heap = rt.alloc();
    gives(
        &rt,
        "no rows stand anywhere",
        heap,
        &[(ROWS, 0), (GUESSED, 0)],
        None,
    )?;
    gives(
        &rt,
        "in the readings",
        heap,
        &[(ROWS, 0), (GUESSED, 0), (ROWS_AT, 4)],
        None,
    )?;
    gives(
        &rt,
        "in the trailer",
        heap,
        &[(ROWS, 0), (GUESSED, 0), (ROWS_AT, 40)],
        None,
    )?;
    let last = [
        (ROWS, 0),
        (GUESSED, 0),
        (ROWS_AT, 0xFF),
        (ROWS_AT + 1, 0xFF),
        (ROWS_AT + 2, 0xFF),
        (ROWS_AT + 3, 0xFF),
    ];
    gives(&rt, "at 2^32 - 1", heap, &last, None)
}

#[test]
fn sections_stand_in_either_order(rt: HostRuntime) -> Result<(), Fail> {
    let heap = rt.alloc();
    let mut bytes = SAMPLE[18..34].to_vec(heap)?;
    bytes.extend_from_slice(&SAMPLE[0..18])?;
    bytes.extend_from_slice(&SAMPLE[34..38])?;
    bytes.extend_from_slice(&[16, 0, 0, 0, 0, 0, 0, 0])?;
    bytes.extend_from_slice(&SAMPLE[46..50])?;
    let job = read(heap, &bytes)?;
    let mut out = vec![in heap; 0; 50]?;
    assert_eq!(rt; write(&job, &mut out), Ok(50));
    assert!(rt; out.as_slice() == &SAMPLE[0..50]);
    Ok(())
}

#[test]
fn readings_31(rt: HostRuntime) -> Result<(), Fail> {
    let heap = rt.alloc();
    gives(
        &rt,
        "readings 31",
        heap,
        &[(0, 3)],
        Some(bad_reading(ReadingFault::Kind, 0, 0)),
    )?;
    gives(
        &rt,
        "readings 31",
        heap,
        &[(9, 255)],
        Some(bad_reading(ReadingFault::Kind, 1, 9)),
    )?;
    gives(
        &rt,
        "readings 31",
        heap,
        &[(17, 1)],
        Some(bad_reading(ReadingFault::Spare, 1, 9)),
    )?;
    gives(
        &rt,
        "readings 31",
        heap,
        &[(12, 0x7F), (13, 0x7F)],
        Some(bad_reading(ReadingFault::Level, 1, 9)),
    )?;
    gives(
        &rt,
        "the first",
        heap,
        &[(0, 3), (9, 3)],
        Some(bad_reading(ReadingFault::Kind, 0, 0)),
    )?;
    gives(
        &rt,
        "31 comes before 35",
        heap,
        &[(9, 3), (18, 4)],
        Some(bad_reading(ReadingFault::Kind, 1, 9)),
    )?;
    let moved = changed(heap, &[(9, 3), (READINGS_AT, 5), (ROWS_AT, 23)])?;
    let bytes = behind_zeros(heap, 5, &moved)?;
    refused(
        &rt,
        "behind five bytes",
        heap,
        &bytes,
        bad_reading(ReadingFault::Kind, 1, 14),
    )
}

#[test]
fn rows_35(rt: HostRuntime) -> Result<(), Fail> {
    let heap = rt.alloc();
    gives(&rt, "no mark", heap, &[(18, 0)], None)?;
    gives(&rt, "place 1", heap, &[(18, 2)], None)?;
    gives(&rt, "place 2", heap, &[(18, 4)], Some(bad_row(0, 18)))?;
    gives(&rt, "place 64", heap, &[(26, 1)], Some(bad_row(0, 18)))?;
    gives(&rt, "place 127", heap, &[(33, 128)], Some(bad_row(0, 18)))?;
    let mut bytes = SAMPLE[0..34].to_vec(heap)?;
    bytes.extend_from_slice(&[0, 0, 0, 0, 0, 0, 0, 0, 0, 0, 0, 0, 0, 0, 0, 1])?;
    bytes.extend_from_slice(&[2, 0, 2, 0, 0, 0, 0, 0, 18, 0, 0, 0, 2, 0, 0, 0x5A])?;
    refused(&rt, "the second row", heap, &bytes, bad_row(1, 34))
}

#[test]
fn writing_wants_room_36(rt: HostRuntime) -> Result<(), Fail> {
    let heap = rt.alloc();
    let job = sample_job(heap)?;
    not_written(&rt, "writing wants room 36", heap, &job, 0, FileFault::Room)?;
    not_written(
        &rt,
        "writing wants room 36",
        heap,
        &job,
        49,
        FileFault::Room,
    )?;
    let mut out = vec![in heap; 7; 50]?;
    assert_eq!(rt; write(&job, &mut out), Ok(50));
    Ok(())
}

#[test]
fn writing_checks_numbers(rt: HostRuntime) -> Result<(), Fail> {
    let heap = rt.alloc();
    let mut job = sample_job(heap)?;
    job.limit = 0;
    not_written(
        &rt,
        "writing checks numbers",
        heap,
        &job,
        99,
        FileFault::Numbers,
    )?;
    job.limit = 512;
    assert_eq!(rt; write(&job, &mut [0; 50]), Ok(50));
    job.limit = usize::MAX;
    not_written(
        &rt,
        "writing checks numbers",
        heap,
        &job,
        99,
        FileFault::Numbers,
    )?;
    job.limit = 2;
    job.guessed = 2;
    not_written(&rt, "33 comes before 36", heap, &job, 0, FileFault::Numbers)?;
    job.guessed = 0;
    job.readings.clear();
    not_written(&rt, "n is 0", heap, &job, 99, FileFault::Numbers)
}

#[test]
fn writing_checks_sections(rt: HostRuntime) -> Result<(), Fail> {
    let heap = rt.alloc();
    let mut job = sample_job(heap)?;
    job.rows.push(Halves {
        first: 1 << 61,
        second: 0,
    })?;
    not_written(&rt, "35 comes before 36", heap, &job, 0, bad_row(1, 34))?;
    job.readings.push(Reading::Single(128.0))?;
    not_written(
        &rt,
        "31 comes before 35",
        heap,
        &job,
        99,
        bad_reading(ReadingFault::Level, 2, 18),
    )?;
    job.limit = 0;
    not_written(
        &rt,
        "33 comes before 31",
        heap,
        &job,
        99,
        FileFault::Numbers,
    )
}

#[test]
fn faults_print(rt: HostRuntime) -> Result<(), Fail> {
    let text = format!(in rt.alloc();
        "{}, {}, {}, {}, {}, {}, {}",
        FileFault::Form,
        FileFault::Numbers,
        FileFault::Layout,
        FileFault::Room,
        bad_reading(ReadingFault::Spare, 1, 9),
        bad_row(0, 18),
        FileFault::Memory
    )?;
    assert!(rt;
        text.as_str()
            == "fault 32, fault 33, fault 34, fault 36, fault 31 spare 1 9, fault 35 row 0 18, out of memory"
    );
    Ok(())
}
