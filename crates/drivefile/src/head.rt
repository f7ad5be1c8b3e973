// The first two records of a drive file: settings and a ramp.
ghost use Rattle.std.specs.Prelude.{◌≡◌, ◌≤◌, length, take, drop, Some, None, MatchResult, OnOk};
ghost use Rattle.drivefile.specs.declared.record.Turn.TheVariants.{First, Second};
ghost use Rattle.drivefile.specs.Records.{found_at};
ghost use Rattle.weigher.specs.Bases.{scale_of};
ghost use Rattle.weigher.specs.Fresh.{fresh};
ghost use Rattle.weigher.specs.Ramp.{ramp_refusal};
ghost use Rattle.board.specs.Settings.{setting_refusal, number_of as order_number};
ghost use Rattle.drivefile.specs.Faults.{number_of};
ghost use Rattle.drivefile.specs.Listings.{Headed, head_fault, first_fault, second_fault};
ghost use Rattle.drivefile.specs.Heads.{number_at, signed, order_in, increment_in, start_in, step_in, target_in};

use crate::fault::{Fault, Flaw};
use crate::reader::Reader;
use crate::record::{Record, Turn};
use board::Settings;
use weigher::Ramp;

// The settings of the first record's body.
fn settings_of(body: &[u8; 3], place: usize) -> Result<Settings, Fault>
    ensures { MatchResult result (λ s. (setting_refusal (order_in body.now) (increment_in body.now) ≡ None) × (order_number s.order ≡ order_in body.now) × (s.increment.grams ≡ increment_in body.now)) (λ f. (setting_refusal (order_in body.now) (increment_in body.now) ≡ Some (number_of f.flaw)) × (f.place ≡ place)) }
{
    let [order, high, low] = *body;
    Settings::new(order, u16::from_be_bytes([high, low])).map_err(|refused| Flaw::from(refused).at(
        place,
    ))
}

// Four bytes of a ramp's body as a signed number, the high ones first.
fn signed_at(body: &[u8; 12], place: usize) -> i32
    requires { place ≤ 8 }
    ensures { result ≡ signed (number_at body.now place) }
{
    i32::from_be_bytes([
        body[place],
        body[place + 1],
        body[place + 2],
        body[place + 3],
    ])
}

// The ramp of the second record's body.
fn ramp_of(body: &[u8; 12], place: usize) -> Result<Ramp, Fault>
    ensures { MatchResult result (λ w. (ramp_refusal (start_in body.now) (step_in body.now) (target_in body.now) ≡ None) × (w.sensor.step ≡ step_in body.now) × (w.sensor.target.grams ≡ target_in body.now) × (scale_of w.base ≡ fresh (start_in body.now) 15000)) (λ f. (ramp_refusal (start_in body.now) (step_in body.now) (target_in body.now) ≡ Some (number_of f.flaw)) × (f.place ≡ place)) }
{
    Ramp::new(signed_at(body, 0), signed_at(body, 4), signed_at(body, 8)).map_err(
        |_| Flaw::BadRamp.at(place),
    )
}

// What the first two records say.
#[derive(Clone, Copy)]
pub(crate) struct Head {
    pub(crate) settings: Settings,
    pub(crate) ramp: Ramp,
}

// The most bytes that a drive file may have.
pub const LONGEST: usize = 65_536;

// What the first two records say, or the fault that they have.
pub(crate) fn head_of(reader: &mut Reader<'_>) -> Result<Head, Fault>
    requires { reader.old.place ≡ 0 }
    ensures told { MatchResult result (λ h. (head_fault reader.old.file.now ≡ None) × Headed reader.old.file.now h.settings h.ramp) (λ f. head_fault reader.old.file.now ≡ Some (number_of f.flaw, f.place)) }
    ensures place { OnOk result (reader.new.place ≡ 17) }
    ensures file { reader.new.file.now ≡ reader.old.file.now }
{
    if reader.file.len() > LONGEST {
        return Err(Flaw::Overlong.at(0));
    }
    let first = reader.record(Turn::First)?;
    let Record::Settings(body) = first.record else {
        unreachable!()
    };
    let body = <[u8; 3]>::try_from(body).unwrap();
    let settings = settings_of(&body, first.place)?;
    let second = reader.record(Turn::Second)?;
    let Record::Ramp(body) = second.record else {
        unreachable!()
    };
    let body = <[u8; 12]>::try_from(body).unwrap();
    let ramp = ramp_of(&body, second.place)?;
    Ok(Head { settings, ramp })
}
