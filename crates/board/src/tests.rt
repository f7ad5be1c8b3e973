// Stories of a controller and a board, each with what it is answered.
mod lent;

use crate::address::Address;
use crate::board::Board;
use crate::declined::Declined;
use crate::journal::{Answer, Call, Entry};
use crate::look::Look;
use crate::note::Note;
use crate::runs::run;
use crate::setting::Settings;
use std::process::Abort;
use std::test::Fail;
use weigher::{Cell, Ramp, Weigher};

// A note's three words: taken, posted and closed.
type Words = (Option<u16>, Option<u16>, Option<u16>);

// One scan of a story: the value's bits and the word written, the note, and the response that shows.
type Turn = (u32, u16, Words, u16);

const NOTHING: Words = (None, None, None);

// The bits of the float 1, 250 and so on.
const ONE: u32 = 0x3f80_0000;

const FIFTY: u32 = 0x4248_0000;

const PRESET: u32 = 0x437a_0000;

const FULL: u32 = 0x466a_6000;

const TOO_MUCH: u32 = 0x466a_6400;

const HALF: u32 = 0x3f00_0000;

// The write image of a value's bits and a command word, in order 0.
fn image(value: u32, command: u16) -> [u8; 8] {
    let [a, b, c, d] = value.to_be_bytes();
    let [e, f] = command.to_be_bytes();
    [a, b, c, d, 0, 0, e, f]
}

// A scan with these bits and this word: its note, and the response that shows.
fn scan<W: Weigher>(
    board: &mut Board<W>,
    value: u32,
    command: u16,
) -> Result<(Words, u16), Declined> {
    let mut read = [0u8; 8];
    let note = board.scan(&image(value, command), &mut read)?;
    let [_, _, _, _, _, _, high, low] = read;
    Ok((
        (note.taken, note.posted, note.closed),
        u16::from_be_bytes([high, low]),
    ))
}

fn story<W: Weigher>(rt: &impl Abort, board: &mut Board<W>, turns: &[Turn]) -> Result<(), Fail> {
    for turn in turns {
        let (value, word, note, shows) = *turn;
        assert_eq!(rt; scan(board, value, word)?, (note, shows));
    }
    Ok(())
}

// So many scans with this word that only show that it is worked on.
fn wait<W: Weigher>(
    rt: &impl Abort,
    board: &mut Board<W>,
    command: u16,
    scans: u8,
) -> Result<(), Fail> {
    for _ in 0..scans {
        assert_eq!(rt; scan(board, 0, command)?, (NOTHING, 2047));
    }
    Ok(())
}

// A board in this order and in increments of 5 on a weigher.
fn board_on<W: Weigher + Drop>(weigher: W, order: u8) -> Result<Board<W>, Fail> {
    match Settings::new(order, 5) {
        Ok(settings) => Ok(Board::new(weigher, settings)),
        Err(_) => Err(Fail::new("settings")),
    }
}

// A ramp of step 100.
fn ramp(start: i32, target: i32) -> Result<Ramp, Fail> {
    match Ramp::new(start, 100, target) {
        Ok(ramp) => Ok(ramp),
        Err(_) => Err(Fail::new("ramp")),
    }
}

fn ramp_board(start: i32, target: i32) -> Result<Board<Ramp>, Fail> {
    board_on(ramp(start, target)?, 0)
}

// A cell of capacity 15,000 with these samples.
fn cell_board(rt: HostRuntime, samples: &[i32], tolerance: i32) -> Result<Board<Cell>, Fail> {
    match Cell::new(samples.to_vec(rt.alloc())?, 15_000, tolerance) {
        Ok(cell) => board_on(cell, 0),
        Err(_) => Err(Fail::new("cell")),
    }
}

const SWINGING: [i32; 7] = [900, 1300, 900, 1300, 900, 1300, 900];

const FEED_MILL: [Turn; 6] = [
    (PRESET, 201, (Some(201), None, None), 2047),
    (0, 201, (None, Some(201), Some(201)), 201),
    (0, 400, (Some(400), None, None), 2047),
    (0, 2004, NOTHING, 2004),
    (0, 2004, (None, Some(0x8010), Some(400)), 0x8010),
    (0, 2004, NOTHING, 0x8010),
];

// The load swings, and the tare is cancelled one scan later: the tare stays as before.
#[test]
fn feed_mill(rt: HostRuntime) -> Result<(), Fail> {
    let mut board = cell_board(rt, &SWINGING, 10)?;
    story(&rt, &mut board, &FEED_MILL)?;
    let after = Look {
        open: None,
        zero: 0,
        tare: 250,
        deviation: 0,
    };
    assert_eq!(rt; board.look(), after);
    Ok(())
}

const PAINT_WORKS: [Turn; 4] = [
    (0, 400, (Some(400), None, None), 2047),
    (0, 400, NOTHING, 2047),
    (0, 2004, (None, Some(400), Some(400)), 400),
    (0, 2004, (Some(2004), Some(0x8001), Some(2004)), 0x8001),
];

// The load settles in the very scan that brings the cancel: the tare is taken, and the cancel is then refused.
#[test]
fn paint_works(rt: HostRuntime) -> Result<(), Fail> {
    let mut board = ramp_board(300, 500)?;
    story(&rt, &mut board, &PAINT_WORKS)?;
    assert_eq!(rt; board.look().tare, 500);
    Ok(())
}

const SETTLING: [i32; 11] = [100, 100, 100, 100, 100, 100, 100, 100, 160, 160, 160];

const STEP_TWO: [Turn; 4] = [
    (0, 440, (None, Some(2045), None), 2045),
    (FIFTY, 2002, NOTHING, 2047),
    (0, 2002, (None, Some(440), Some(440)), 440),
    (0, 1800, (Some(1800), Some(1800), Some(1800)), 1800),
];

// The weight test from its first word to its end: 160 − 100 − 50.
#[test]
fn weight_test(rt: HostRuntime) -> Result<(), Fail> {
    let mut board = cell_board(rt, &SETTLING, 1000)?;
    story(&rt, &mut board, &[(0, 440, (Some(440), None, None), 2047)])?;
    wait(&rt, &mut board, 440, 6)?;
    story(&rt, &mut board, &STEP_TWO)?;
    assert_eq!(rt; board.look().deviation, 10);
    Ok(())
}

const RETRIED: [Turn; 10] = [
    (0, 440, (Some(440), None, None), 2047),
    (0, 440, (None, Some(2045), None), 2045),
    (HALF, 2003, (None, Some(0x8020), None), 0x8020),
    (ONE, 2002, NOTHING, 0x8020),
    (0, 2005, (None, Some(0x8020), None), 0x8020),
    (0, 2006, NOTHING, 0x8020),
    (TOO_MUCH, 2005, (None, Some(0x8020), None), 0x8020),
    (0, 0, NOTHING, 0x8020),
    (FULL, 2005, NOTHING, 2047),
    (ONE, 2005, (None, Some(440), Some(440)), 440),
];

// A fraction, nothing, and more than the capacity are no value for step two; a retry brings another.
#[test]
fn weight_test_retried(rt: HostRuntime) -> Result<(), Fail> {
    let mut board = ramp_board(100, 100)?;
    story(&rt, &mut board, &RETRIED)?;
    assert_eq!(rt; board.look().deviation, -15_000);
    Ok(())
}

const CANCELLED: [Turn; 6] = [
    (0, 440, (Some(440), None, None), 2047),
    (0, 440, (None, Some(2045), None), 2045),
    (0, 2006, NOTHING, 2045),
    (0, 2005, NOTHING, 2045),
    (0, 2004, NOTHING, 2004),
    (0, 0, (None, Some(0x8010), Some(440)), 0x8010),
];

#[test]
fn weight_test_cancelled(rt: HostRuntime) -> Result<(), Fail> {
    let mut board = ramp_board(100, 100)?;
    story(&rt, &mut board, &CANCELLED)?;
    assert_eq!(rt; board.look().open, None);
    Ok(())
}

const LATE: [Turn; 3] = [
    (0, 440, (None, Some(0x8020), None), 0x8020),
    (ONE, 2002, NOTHING, 0x8020),
    (0, 2005, NOTHING, 2047),
];

const LATE_AGAIN: [Turn; 3] = [
    (0, 2005, (None, Some(0x8020), None), 0x8020),
    (0, 2004, NOTHING, 2004),
    (0, 2004, (None, Some(0x8010), Some(440)), 0x8010),
];

// A load that goes on moving makes step one late after the ramp's fifty tends, and again after a retry.
#[test]
fn weight_test_late(rt: HostRuntime) -> Result<(), Fail> {
    let mut board = ramp_board(0, 4_000_000)?;
    story(&rt, &mut board, &[(0, 440, (Some(440), None, None), 2047)])?;
    wait(&rt, &mut board, 440, 49)?;
    story(&rt, &mut board, &LATE)?;
    wait(&rt, &mut board, 2005, 49)?;
    story(&rt, &mut board, &LATE_AGAIN)
}

const FAULTY: [Turn; 3] = [
    (0, 2002, (None, Some(0x8020), None), 0x8020),
    (0, 2004, NOTHING, 2004),
    (0, 2004, (None, Some(0x8010), Some(440)), 0x8010),
];

// A cell without samples is at fault, and makes step two late after its two hundred tends.
#[test]
fn weight_test_at_fault(rt: HostRuntime) -> Result<(), Fail> {
    let mut board = cell_board(rt, &SETTLING[..9], 1000)?;
    story(&rt, &mut board, &[(0, 440, (Some(440), None, None), 2047)])?;
    wait(&rt, &mut board, 440, 6)?;
    story(&rt, &mut board, &STEP_TWO[..2])?;
    wait(&rt, &mut board, 2002, 199)?;
    story(&rt, &mut board, &FAULTY)
}

const REFUSED: [Turn; 6] = [
    (
        0,
        0x0990,
        (Some(0x0990), Some(0x8001), Some(0x0990)),
        0x8001,
    ),
    (0, 4, (Some(4), Some(0x8004), Some(4)), 0x8004),
    (0, 2006, (Some(2006), Some(0x8001), Some(2006)), 0x8001),
    (HALF, 201, (Some(201), Some(0x8008), Some(201)), 0x8008),
    (0, 2000, (Some(2000), Some(2000), Some(2000)), 2000),
    (TOO_MUCH, 201, (Some(201), Some(0x8008), Some(201)), 0x8008),
];

#[test]
fn refuses_words(rt: HostRuntime) -> Result<(), Fail> {
    let mut board = ramp_board(7, 7)?;
    story(&rt, &mut board, &REFUSED)?;
    assert_eq!(rt; board.look().tare, 0);
    Ok(())
}

// Strips of another size are declined, and the next scan is a new board's first.
#[test]
fn declines_scans(rt: HostRuntime) -> Result<(), Fail> {
    let mut board = ramp_board(7, 7)?;
    let write = image(0, 0);
    let mut seven = [9u8; 7];
    let mut read = [9u8; 8];
    assert_eq!(rt;
        board.scan(&[0u8; 9], &mut seven),
        Err(Declined::WriteMisfit)
    );
    assert_eq!(rt; board.scan(&write, &mut seven), Err(Declined::ReadMisfit));
    assert_eq!(rt; seven, [9u8; 7]);
    assert_eq!(rt; board.scan(&write, &mut read), Ok(Note::nothing()));
    assert_eq!(rt; read, [0x40, 0xa0, 0, 0, 0, 0x0c, 0, 0]);
    Ok(())
}

fn at(class: u16, instance: u8, attribute: u8) -> Address {
    Address {
        class,
        instance,
        attribute,
    }
}

// Addresses, each with its decline's number: class, instance, attribute.
const NOWHERE: [(u16, u8, u8, u8); 5] = [
    (0x301, 2, 0, 13),
    (0x300, 2, 0, 14),
    (0x300, 1, 0, 15),
    (0x300, 1, 8, 15),
    (0x300, 1, 7, 16),
];

// The number that a read into a strip of three bytes is declined with, and the strip.
fn refused(board: &Board<Ramp>, address: Address) -> Option<(u8, [u8; 3])> {
    let mut three = [9u8; 3];
    match board.read(address, &mut three) {
        Ok(()) => None,
        Err(declined) => Some((u8::from(declined), three)),
    }
}

// So are addresses that nothing holds, and strips of three bytes.
#[test]
fn declines_reads(rt: HostRuntime) -> Result<(), Fail> {
    let board = ramp_board(7, 7)?;
    for (class, instance, attribute, number) in NOWHERE {
        assert_eq!(rt;
            refused(&board, at(class, instance, attribute)),
            Some((number, [9u8; 3]))
        );
    }
    let mut strip = [9u8; 4];
    assert_eq!(rt; board.read(at(0x300, 1, 7), &mut strip), Ok(()));
    assert_eq!(rt; strip, [0x40, 0xe0, 0, 0]);
    Ok(())
}

// The read image of a new board in an order, on a load of 7, to a write image in that order.
fn first_image(rt: &impl Abort, order: u8, write: [u8; 8]) -> Result<[u8; 8], Fail> {
    let mut board = board_on(ramp(7, 7)?, order)?;
    let mut read = [0u8; 8];
    assert_eq!(rt; board.scan(&write, &mut read)?, Note::takes(400));
    Ok(read)
}

#[test]
fn four_orders(rt: HostRuntime) -> Result<(), Fail> {
    let plain = [0, 0, 0, 0, 0, 1, 0x01, 0x90];
    let swapped = [0, 0, 0, 0, 1, 0, 0x90, 0x01];
    assert_eq!(rt;
        first_image(&rt, 0, plain)?,
        [0x40, 0xa0, 0, 0, 0, 0x0c, 0x07, 0xff]
    );
    assert_eq!(rt;
        first_image(&rt, 1, swapped)?,
        [0xa0, 0x40, 0, 0, 0x0c, 0, 0xff, 0x07]
    );
    assert_eq!(rt;
        first_image(&rt, 2, plain)?,
        [0, 0, 0x40, 0xa0, 0, 0x0c, 0x07, 0xff]
    );
    assert_eq!(rt;
        first_image(&rt, 3, swapped)?,
        [0, 0, 0xa0, 0x40, 0x0c, 0, 0xff, 0x07]
    );
    Ok(())
}

// The read image of an answered scan.
fn shown(entry: Entry) -> Option<[u8; 8]> {
    match entry.answer {
        Answer::Scanned { read, .. } => Some(read),
        _ => None,
    }
}

fn declined(entry: Entry) -> Option<u8> {
    match entry.answer {
        Answer::Declined(declined) => Some(u8::from(declined)),
        _ => None,
    }
}

// A run of a tare on a load of 7, with a declined scan and a declined read among the calls.
#[test]
fn runs(rt: HostRuntime) -> Result<(), Fail> {
    let tare = image(0, 400);
    let net = image(0, 3);
    let calls = [
        Call::Scan {
            write: &tare,
            read: 8,
        },
        Call::Scan {
            write: &net,
            read: 7,
        },
        Call::Scan {
            write: &tare,
            read: 8,
        },
        Call::Read {
            address: at(0x300, 1, 8),
            reply: 4,
        },
        Call::Scan {
            write: &net,
            read: 8,
        },
    ];
    let Ok(settings) = Settings::new(0, 5) else {
        return Err(Fail::new("settings"));
    };
    let journal = run(rt.alloc(), ramp(7, 7)?, settings, &calls)?;
    let entries = journal.entries.as_slice();
    assert!(rt; entries.len() == 5);
    assert_eq!(rt;
        shown(entries[0]),
        Some([0x40, 0xa0, 0, 0, 0, 0x0c, 0x07, 0xff])
    );
    assert_eq!(rt; declined(entries[1]), Some(12));
    assert_eq!(rt;
        shown(entries[2]),
        Some([0x40, 0xa0, 0, 0, 0, 0x89, 0x01, 0x90])
    );
    assert_eq!(rt; declined(entries[3]), Some(15));
    assert_eq!(rt; shown(entries[4]), Some([0, 0, 0, 0, 0, 0x8e, 0, 3]));
    assert_eq!(rt; entries[4].after.tare, 7);
    Ok(())
}
