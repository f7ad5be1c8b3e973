// Examples of the wire, each with its answer.
use crate::block::{MeasuringBlockRead, MeasuringBlockWritten, halves, strip};
use crate::float::{bits_of, float_of, whole};
use crate::increment::Increment;
use crate::order::Order;
use crate::rounding::round;
use crate::setting::BadSetting;

fn rounded(weight: i32, grams: u16) -> Option<i64> {
    Increment::try_from(grams)
        .ok()
        .map(|increment| round(weight, increment))
}

#[test]
fn rounds_halves_away_from_zero(rt: HostRuntime) {
    assert_eq!(rt; rounded(7, 5), Some(5));
    assert_eq!(rt; rounded(-5, 10), Some(-10));
    assert_eq!(rt; rounded(-2, 5), Some(0));
    assert_eq!(rt; rounded(i32::MIN, 1000), Some(-2_147_484_000));
}

#[test]
fn refuses_unknown_settings(rt: HostRuntime) {
    assert_eq!(rt; rounded(7, 1000), Some(0));
    assert_eq!(rt; rounded(7, 0), None);
    assert_eq!(rt; rounded(7, 2000), None);
    assert_eq!(rt; Order::try_from(3), Ok(Order::BothSwapped));
    assert_eq!(rt; Order::try_from(4), Err(BadSetting::UnknownOrder));
    assert_eq!(rt; u8::from(BadSetting::UnknownOrder), 41);
    assert_eq!(rt; u8::from(BadSetting::UnknownIncrement), 42);
}

#[test]
fn sends_floats_in_order(rt: HostRuntime) {
    assert_eq!(rt; strip(2.76, Order::BothSwapped), [0xd7, 0xa3, 0x30, 0x40]);
    assert_eq!(rt;
        strip(float_of(-10), Order::BytesSwapped),
        [0x20, 0xc1, 0x00, 0x00]
    );
    assert_eq!(rt; halves(2.76, Order::Plain), (0x4030, 0xa3d7));
    assert_eq!(rt; halves(2.76, Order::WordsSwapped), (0xa3d7, 0x4030));
    assert_eq!(rt; strip(0.0 / 0.0, Order::Plain), [0x7f, 0xc0, 0x00, 0x00]);
}

// Bit patterns at the edges, each with the whole number that it is, if any.
const EDGES: [(u32, Option<i32>); 17] = [
    (0x0000_0000, Some(0)),
    (0x8000_0000, Some(0)),
    (0x4b7f_ffff, Some(16_777_215)),
    (0xcb7f_ffff, Some(-16_777_215)),
    (0x4b80_0000, None),
    (0xcb80_0000, None),
    (0x3f00_0000, None),
    (0xbf00_0000, None),
    (0x0000_0001, None),
    (0x007f_ffff, None),
    (0x8000_0001, None),
    (0x7f80_0000, None),
    (0xff80_0000, None),
    (0x7fc0_0000, None),
    (0x7f80_0001, None),
    (0xffff_ffff, None),
    (0x3f80_0000, Some(1)),
];

#[test]
fn reads_edge_patterns(rt: HostRuntime) {
    for (pattern, answer) in EDGES {
        assert_eq!(rt; whole(pattern), answer);
    }
    assert_eq!(rt; bits_of(0), 0);
    assert_eq!(rt; bits_of(-16_777_215), 0xcb7f_ffff);
}

#[test]
fn packs_and_unpacks_blocks(rt: HostRuntime) {
    let block = MeasuringBlockRead {
        value: 2.76,
        status: 0x0102,
        response: 0x0304,
    };
    assert_eq!(rt;
        block.to_image(Order::Plain),
        [0x40, 0x30, 0xa3, 0xd7, 1, 2, 3, 4]
    );
    assert_eq!(rt;
        block.to_image(Order::BytesSwapped),
        [0x30, 0x40, 0xd7, 0xa3, 2, 1, 4, 3]
    );
    assert_eq!(rt;
        block.to_image(Order::WordsSwapped),
        [0xa3, 0xd7, 0x40, 0x30, 1, 2, 3, 4]
    );
    assert_eq!(rt;
        block.to_image(Order::BothSwapped),
        [0xd7, 0xa3, 0x30, 0x40, 2, 1, 4, 3]
    );
    let written = MeasuringBlockWritten {
        value: 0x4030_a3d7,
        mask: 0x0102,
        command: 0x0304,
    };
    assert_eq!(rt;
        MeasuringBlockWritten::from_image(
            [0xa3, 0xd7, 0x40, 0x30, 1, 2, 3, 4],
            Order::WordsSwapped,
        ),
        written
    );
    assert_eq!(rt;
        MeasuringBlockWritten::from_image([0xd7, 0xa3, 0x30, 0x40, 2, 1, 4, 3], Order::BothSwapped),
        written
    );
}
