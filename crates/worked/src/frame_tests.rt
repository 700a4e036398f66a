// Frames of the shortest and longest lengths, and of one place too many.
use frames::faults::Fault;
use frames::framing::Frame;
use frames::readings::Reading;
use std::process::Abort;
use std::test::Fail;

// The fault that the first `len` of 129 readings give, with a bad level at one place or at none.
fn fault(
    rt: &(impl Abort + AllocGlobal),
    len: usize,
    bad: Option<usize>,
) -> Result<Option<Fault>, Fail> {
    let mut readings = [Reading::Single(-1.0); 129];
    if let Some(place) = bad {
        readings[place.min(128)] = Reading::Single(128.0);
    }
    match Frame::new(rt.alloc(), &readings[0..len.min(129)]) {
        Ok(frame) => {
            assert_eq!(rt; frame.hard.bits.len(), len);
            assert_eq!(rt; frame.hard.bits.marks() as usize, len);
            assert_eq!(rt; frame.weights.len(), len);
            Ok(None)
        }
        Err(fault) => Ok(Some(fault)),
    }
}

#[test]
fn lengths_have_an_end(rt: HostRuntime) -> Result<(), Fail> {
    for len in [1usize, 64, 65, 128] {
        assert_eq!(rt; fault(&rt, len, None)?, None);
    }
    assert_eq!(rt; fault(&rt, 0, None)?, Some(Fault::Length));
    assert_eq!(rt; fault(&rt, 129, None)?, Some(Fault::Length));
    assert_eq!(rt;
        fault(&rt, 129, Some(0))?,
        Some(Fault::Length),
        "the length comes first"
    );
    Ok(())
}

#[test]
fn the_first_bad_place_is_told(rt: HostRuntime) -> Result<(), Fail> {
    assert_eq!(rt; fault(&rt, 128, Some(127))?, Some(Fault::Level(127)));
    assert_eq!(rt; fault(&rt, 65, Some(64))?, Some(Fault::Level(64)));
    assert_eq!(rt; fault(&rt, 64, Some(64))?, None);
    let text = Fault::Level(64).to_string(rt.alloc())?;
    assert!(rt; text.as_str() == "fault 2 level 64");
    Ok(())
}

#[test]
fn a_frame_has_its_hard_word_and_weights(rt: HostRuntime) -> Result<(), Fail> {
    let levels = [1.0, 1.0, -0.5, 1.0, 0.25, 1.0, 1.0];
    let readings = levels.map(|level| Reading::Single(level));
    let frame = Frame::new(rt.alloc(), &readings)?;
    let hard = frame.hard.bits.to_string(rt.alloc())?;
    assert!(rt; hard.as_str() == "0010000");
    assert!(rt; frame.weights.as_slice() == [256, 256, 128, 256, 64, 256, 256].as_slice());
    Ok(())
}
