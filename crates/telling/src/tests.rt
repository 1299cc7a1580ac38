use super::frame::{FRAME, Reading};
use super::refusal::Refusal;
use super::{PART, Telling};

const SAID: Telling = Telling {
    best: 1,
    distance: 2,
    parent: 3,
    size: 4,
    total: 5,
    number: 6,
    given: 0x0a0b0c0d,
};

// 76 + 1 + 2 + 3 + 4 + 5 + 6 + 10 + 11 + 12 + 13 is 143.
const WRITTEN: [u8; FRAME] = [
    76, 0, 0, 0, 1, 0, 0, 0, 2, 0, 0, 0, 3, 0, 0, 0, 4, 0, 0, 0, 5, 0, 0, 0, 6, 10, 11, 12, 13, 143,
];

#[test]
fn a_frame_by_hand(rt: HostRuntime) {
    assert_eq!(rt; SAID.to_frame(), WRITTEN);
    assert_eq!(rt; Reading::from(WRITTEN.as_slice()), Reading::Told(SAID));
    assert_eq!(rt; Reading::from(WRITTEN.as_slice()).told(), Ok(SAID));
}

#[test]
fn cut_or_lengthened(rt: HostRuntime) {
    let mut long = [0u8; 31];
    long[0..30].copy_from_slice(&WRITTEN);
    assert_eq!(rt; Reading::from(long.as_slice()), Reading::Noise);
    for n in 0..FRAME {
        assert_eq!(rt; Reading::from(&WRITTEN[0..n]), Reading::Noise);
    }
    assert_eq!(rt;
        Reading::from([].as_slice()).told(),
        Err(Refusal::Unreadable)
    );
}

#[test]
fn each_byte_changed(rt: HostRuntime) {
    for i in 0..FRAME {
        let mut frame = WRITTEN;
        frame[i] = frame[i].wrapping_add(1);
        assert_eq!(rt; Reading::from(frame.as_slice()), Reading::Noise);
    }
}

#[test]
fn parts_of_a_memory(rt: HostRuntime) {
    let mut memory = [7u8; 3 * PART];
    assert_eq!(rt; SAID.store(&mut memory, 1), Ok(()));
    assert_eq!(rt; Telling::load(&memory, 1), Some(SAID));
    assert_eq!(rt; &memory[0..PART], &[7u8; PART][0..PART]);
    assert_eq!(rt; &memory[2 * PART..3 * PART], &[7u8; PART][0..PART]);
    assert_eq!(rt; SAID.store(&mut memory, 3), Err(Refusal::Memory));
    assert_eq!(rt; Telling::load(&memory, 3), None);
    assert_eq!(rt; Telling::load(&memory[0..2 * PART - 1], 1), None);
}

#[test]
fn numbers_of_refusals(rt: HostRuntime) {
    assert_eq!(rt; u8::from(Refusal::Unreadable), 1);
    assert_eq!(rt; u8::from(Refusal::NoWire), 2);
    assert_eq!(rt; u8::from(Refusal::Memory), 3);
    assert_eq!(rt; u8::from(Refusal::Input), 4);
}
