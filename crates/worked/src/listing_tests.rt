// What is printed of records, at the edges of their number and of what a record may hold.
use listing::lines::lines;
use std::process::Abort;
use std::test::Fail;

// Whether the first `len` of 129 records of dropouts, with one byte changed, print the text.
fn prints(
    rt: &(impl Abort + AllocGlobal),
    len: usize,
    at: usize,
    byte: u8,
    text: &str,
) -> Result<(), Fail> {
    let mut bytes = [0u8; 1161];
    if at < 1161 {
        bytes[at] = byte;
    }
    let printed = lines(rt.alloc(), &bytes[0..len.min(1161)])?;
    assert!(rt; printed.as_str() == text);
    Ok(())
}

#[test]
fn the_number_of_records_is_told_first(rt: HostRuntime) -> Result<(), Fail> {
    for len in [0usize, 1, 8, 10, 1153, 1161] {
        prints(&rt, len, 0, 3, "fault 1\n")?;
    }
    prints(&rt, 9, 9, 0, "hard 0\nweights 0\n")?;
    prints(&rt, 18, 18, 0, "hard 00\nweights 0 0\n")
}

#[test]
fn the_first_bad_record_is_told(rt: HostRuntime) -> Result<(), Fail> {
    prints(&rt, 27, 18, 3, "fault 31 kind 2 18\n")?;
    prints(&rt, 27, 17, 1, "fault 31 spare 1 9\n")?;
    prints(&rt, 1152, 1143, 255, "fault 31 kind 127 1143\n")
}

#[test]
fn records_print_their_cells(rt: HostRuntime) -> Result<(), Fail> {
    let bytes = [
        1, 0, 0, 0, 0xbf, 0, 0, 0, 0, // -0.5
        2, 0, 0, 0xfe, 0x42, 0, 0, 0xfe, 0x42, // 127 and 127
        1, 0, 0, 0, 0x80, 0, 0, 0, 0, // minus zero
    ];
    let printed = lines(rt.alloc(), &bytes)?;
    assert!(rt; printed.as_str() == "hard 100\nweights 128 65024 0\n");
    Ok(())
}
