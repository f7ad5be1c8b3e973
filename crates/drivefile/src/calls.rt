// Reading the calls of a drive file.
ghost use Rattle.std.specs.Prelude.{◌≡◌, ℕ, ◌+◌, ◌≤◌, List, length, IfOk, IfErr, IfSome, None, Ok, Err};
ghost use Rattle.drivefile.specs.declared.record.Turn.TheVariants.{Later};
ghost use Rattle.drivefile.specs.Drives.{Calls, Reads, EndsAt};
ghost use Rattle.drivefile.specs.Records.{found_at, entry};

use crate::fault::Fault;
use crate::outcome::Recorded;
use crate::reader::Reader;
use crate::record::{Record, Turn};
use board::{Address, Call};
use std::alloc::{AllocError, Global};

// The next call, or none at the end record.
fn next_call<'a>(reader: &mut Reader<'a>) -> Result<Option<Call<'a>>, Fault>
    ensures call { IfOk result (λ o. IfSome o (λ c. (kind : ℕ) × (body : List ℕ) × (found_at Later reader.old.file.now reader.old.place ≡ entry kind body) × Calls c kind body × (reader.new.place ≡ reader.old.place + (1 + length body)))) }
    ensures end { result ≡ Ok None → EndsAt reader.old.file.now reader.old.place (found_at Later reader.old.file.now reader.old.place) (Ok tt) }
    ensures fault { IfErr result (λ f. EndsAt reader.old.file.now reader.old.place (found_at Later reader.old.file.now reader.old.place) (Err f)) }
    ensures file { reader.new.file.now ≡ reader.old.file.now }
{
    match reader.record(Turn::Later)?.record {
        Record::Image(write) => Ok(Some(Call::Scan { write, read: 8 })),
        Record::Read(body) => Ok(Some(read_of(<[u8; 4]>::try_from(body).unwrap()))),
        Record::End => {
            reader.end()?;
            Ok(None)
        }
        Record::Settings(_) | Record::Ramp(_) => unreachable!(),
    }
}

// The acyclic read of a body: the class, high byte first, the instance and the attribute.
fn read_of(body: [u8; 4]) -> Call<'static>
    ensures { Calls result 4 body }
{
    let [high, low, instance, attribute] = body;
    let address = Address {
        class: u16::from_be_bytes([high, low]),
        instance,
        attribute,
    };
    Call::Read { address, reply: 4 }
}

// All calls that are left, and what ends them.
pub(crate) fn read_calls(heap: Global, mut reader: Reader<'_>) -> Result<Recorded<'_>, AllocError>
    ensures { IfOk result (λ v. (place : ℕ) × Reads reader.entry.file.now reader.entry.place v.calls.items place × EndsAt reader.entry.file.now place (found_at Later reader.entry.file.now place) v.tail) }
{
    let mut calls = Vec::new(heap);
    let tail = loop {
        match next_call(&mut reader) {
            Ok(Some(call)) => calls.push(call)?,
            Ok(None) => break Ok(()),
            Err(fault) => break Err(fault),
        }
    };
    Ok(Recorded { calls, tail })
}
