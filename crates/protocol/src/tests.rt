use super::facts::{Own, Site};
use super::state::{Lamp, Numbers};
use std::test::Fail;
use telling::frame::Reading;
use telling::refusal::Refusal;
use telling::{NOTHING, PART, Telling};

fn lamp(most: u32, place: u32, name: u32, places: &[u32]) -> Result<Lamp, Refusal> {
    let own = Own { most, place, name };
    Ok(Lamp::new(Site::new(own, places)?))
}

fn said(best: u32, distance: u32, parent: u32, size: u32) -> Telling {
    Telling {
        best,
        distance,
        parent,
        size,
        ..NOTHING
    }
}

#[test]
fn alone(rt: HostRuntime) -> Result<(), Fail> {
    let lamp = lamp(1, 0, 9, &[])?;
    assert_eq!(rt; lamp.shown(), None);
    let numbers = Numbers {
        best: 9,
        distance: 0,
        parent: 0,
        size: 1,
        total: 1,
        number: 0,
    };
    assert_eq!(rt; lamp.work().shown(), Some(numbers));
    Ok(())
}

// Sizes that would wrap when added are cut to `most`, and so is the number for the second child.
#[test]
fn two_large_children(rt: HostRuntime) -> Result<(), Fail> {
    let child = said(3, 1, 5, 4294967295).to_frame();
    let (lamp, first) = lamp(1024, 5, 3, &[2, 8])?.hear(2, &child);
    let (lamp, second) = lamp.hear(8, &child);
    assert_eq!(rt; first, Ok(()));
    assert_eq!(rt; second, Ok(()));
    let lamp = lamp.work();
    let numbers = Numbers {
        best: 3,
        distance: 0,
        parent: 5,
        size: 1024,
        total: 1024,
        number: 0,
    };
    assert_eq!(rt; lamp.shown(), Some(numbers));
    let told = Telling {
        best: 3,
        distance: 0,
        parent: 5,
        size: 1024,
        total: 1024,
        number: 0,
        given: 1,
    };
    let frame = lamp.tell(2)?.ok_or("not worked")?;
    assert_eq!(rt; Reading::from(frame.as_slice()), Reading::Told(told));
    let frame = lamp.tell(8)?.ok_or("not worked")?;
    assert_eq!(rt;
        Reading::from(frame.as_slice()),
        Reading::Told(Telling {
            given: 1024,
            ..told
        })
    );
    Ok(())
}

// A told distance of 4,294,967,295 is too far, and does not come round to 0.
#[test]
fn far_away(rt: HostRuntime) -> Result<(), Fail> {
    let (lamp, heard) = lamp(1024, 0, 7, &[1])?.hear(1, &said(2, 4294967295, 1, 1).to_frame());
    assert_eq!(rt; heard, Ok(()));
    let numbers = Numbers {
        best: 7,
        distance: 0,
        parent: 0,
        size: 1,
        total: 1,
        number: 0,
    };
    assert_eq!(rt; lamp.work().shown(), Some(numbers));
    Ok(())
}

#[test]
fn refused_and_unchanged(rt: HostRuntime) -> Result<(), Fail> {
    let frame = said(2, 0, 1, 1).to_frame();
    let lamp = lamp(4, 0, 7, &[1])?;
    let (lamp, no_wire) = lamp.hear(2, &frame);
    assert_eq!(rt; no_wire, Err(Refusal::NoWire));
    let (lamp, noise) = lamp.hear(2, &frame[0..29]);
    assert_eq!(rt; noise, Err(Refusal::Unreadable));
    assert_eq!(rt; lamp.tell(1), Ok(None));
    assert_eq!(rt; lamp.tell(2), Err(Refusal::NoWire));
    let mut memory = [1u8; PART];
    assert_eq!(rt; lamp.store(&mut memory), Ok(()));
    assert_eq!(rt; &memory[0..PART], &[0u8; PART][0..PART]);
    Ok(())
}

#[test]
fn over_night(rt: HostRuntime) -> Result<(), Fail> {
    let (tired, heard) = lamp(4, 0, 7, &[1, 3])?.hear(3, &said(2, 1, 1, 1).to_frame());
    assert_eq!(rt; heard, Ok(()));
    let mut memory = [0u8; 2 * PART];
    assert_eq!(rt; tired.store(&mut memory), Ok(()));
    let (fresh, recalled) = lamp(4, 0, 7, &[1, 3])?.recall(&memory);
    assert_eq!(rt; recalled, Ok(()));
    assert_eq!(rt; fresh.work().shown(), tired.work().shown());
    let (_, other) = lamp(4, 0, 7, &[1])?.recall(&memory);
    assert_eq!(rt; other, Err(Refusal::Memory));
    Ok(())
}

#[test]
fn sites_that_break_a_rule(rt: HostRuntime) {
    assert!(rt; lamp(0, 0, 7, &[]).is_err());
    assert!(rt; lamp(1025, 0, 7, &[]).is_err());
    assert!(rt; lamp(1024, 1023, 4294967295, &[1022]).is_ok());
    assert!(rt; lamp(4, 4, 7, &[]).is_err());
    assert!(rt; lamp(4, 1, 7, &[1]).is_err());
    assert!(rt; lamp(4, 1, 7, &[0, 4]).is_err());
    assert!(rt; lamp(4, 1, 7, &[2, 0]).is_err());
    assert!(rt; lamp(4, 1, 7, &[0, 0]).is_err());
    let places = [1u32, 2, 3, 4, 5, 6, 7, 8, 9, 10, 11, 12, 13, 14, 15, 16, 17];
    assert!(rt; lamp(32, 0, 7, &places[0..16]).is_ok());
    assert!(rt; lamp(32, 0, 7, &places).is_err());
}
