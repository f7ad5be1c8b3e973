// A run into a journal that is lent, with what it then holds.
use crate::address::Address;
use crate::journal::{Answer, Call, Entry};
use crate::runs::run_into;
use crate::setting::Settings;
use std::process::Abort;
use std::test::Fail;
use weigher::Ramp;

// The write image of the value 0 and a command word, in order 0.
fn image(command: u16) -> [u8; 8] {
    let [high, low] = command.to_be_bytes();
    [0, 0, 0, 0, 0, 0, high, low]
}

// The read image of an answered scan.
fn shown(entry: Entry) -> Option<[u8; 8]> {
    match entry.answer {
        Answer::Scanned { read, .. } => Some(read),
        _ => None,
    }
}

fn declined(entry: Entry) -> Option<u8> {
    match entry.answer {
        Answer::Declined(declined) => Some(u8::from(declined)),
        _ => None,
    }
}

// A scan that is lent a read strip of this length.
fn scan(write: &[u8], read: usize) -> Call<'_> {
    Call::Scan { write, read }
}

// Makes the calls on a ramp that rests at 7, in order 0 and increments of 5.
fn run_at_seven(rt: &impl Abort, calls: &[Call<'_>], journal: &mut [Entry]) -> Result<(), Fail> {
    let Ok(settings) = Settings::new(0, 5) else {
        return Err(Fail::new("settings"));
    };
    let Ok(ramp) = Ramp::new(7, 100, 7) else {
        return Err(Fail::new("ramp"));
    };
    assert_eq!(rt; run_into(ramp, settings, calls, journal).tare, 0);
    Ok(())
}

// A tare, with a declined scan and a declined read among the calls, and one entry more than calls.
#[test]
fn tares(rt: HostRuntime) -> Result<(), Fail> {
    let tare = image(400);
    let net = image(3);
    let calls = [
        scan(&tare, 8),
        scan(&net, 70),
        scan(&tare, 8),
        Call::Read {
            address: Address {
                class: 0x300,
                instance: 1,
                attribute: 8,
            },
            reply: 4,
        },
        scan(&net, 8),
    ];
    let mut entries = [Entry::BLANK; 6];
    run_at_seven(&rt, &calls, &mut entries)?;
    let in_process = [0x40, 0xa0, 0, 0, 0, 0x0c, 0x07, 0xff];
    let done = [0x40, 0xa0, 0, 0, 0, 0x89, 0x01, 0x90];
    assert_eq!(rt; shown(entries[0]), Some(in_process));
    assert_eq!(rt; declined(entries[1]), Some(12));
    assert_eq!(rt; shown(entries[2]), Some(done));
    assert_eq!(rt; declined(entries[3]), Some(15));
    assert_eq!(rt; shown(entries[4]), Some([0, 0, 0, 0, 0, 0x8e, 0, 3]));
    assert_eq!(rt; (entries[4].after.tare, entries[5].after.tare), (7, 0));
    Ok(())
}

// A journal with room for one call.
#[test]
fn stops_where_the_journal_ends(rt: HostRuntime) -> Result<(), Fail> {
    let tare = image(400);
    let calls = [scan(&tare, 8), scan(&tare, 8)];
    let mut entries = [Entry::BLANK; 1];
    run_at_seven(&rt, &calls, &mut entries)?;
    assert_eq!(rt;
        (entries[0].after.open, entries[0].after.tare),
        (Some(400), 0)
    );
    Ok(())
}
