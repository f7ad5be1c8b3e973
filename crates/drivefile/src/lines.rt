// The lines of a listing, built as bytes.
ghost use Rattle.std.specs.Prelude.{◌≡◌, ◌<◌, ◌^◌, ◌∷◌, ◌++◌, IfSome, OnOk};
ghost use Rattle.board.specs.Declines.{number_of};
ghost use Rattle.drivefile.specs.Lines.{hex_digit, hex_byte, hex_bytes, word_field, note_fields, scan_line, read_line, decline_line, fault_line, end_line, answer_line, entry_lines};

use board::{Answer, Declined, Entry, Note};
use std::alloc::AllocError;
use std::fmt;

// A hexadecimal digit, in lower case.
fn hex_digit(n: u8) -> u8
    requires { n < 16 }
    ensures { result ≡ hex_digit n }
{
    if n < 10 { b'0' + n } else { b'a' - 10 + n }
}

// The kit's `hex` makes a `String`, or tells whether a buffer has the right length: here neither is wanted.
fn hex_byte(byte: u8) -> [u8; 2]
    ensures { result ≡ hex_byte byte }
{
    [hex_digit(byte / 16), hex_digit(byte % 16)]
}

// A listing is bytes: each piece of a `String` would first have to be shown to be text.
fn put(out: &mut Vec<u8>, bytes: &[u8]) -> Result<(), AllocError>
    ensures { OnOk result (out.new.items ≡ out.old.items ++ bytes.now) }
{
    out.extend_from_slice(bytes)
}

// What a value writes.
pub(crate) fn put_text<T: fmt::Display + Drop>(out: &mut Vec<u8>, text: T) -> Result<(), AllocError>
    ensures { OnOk result (IfSome (T.output text) (λ w. out.new.items ≡ out.old.items ++ w)) }
{
    let written = format!(in *out.allocator(); "{text}")?;
    put(out, written.as_bytes())
}

// Two digits for each byte. By `write!`, as `{:02x}`, a scan took 4,337 instructions, and 1,015 is the most that it may take.
// The bound is for `map`, whose arrays must fit in memory.
fn put_hex<const N: usize>(out: &mut Vec<u8>, bytes: &[u8; N]) -> Result<(), AllocError>
    requires { N < 2 ^ 32 }
    ensures { OnOk result (out.new.items ≡ out.old.items ++ hex_bytes bytes.now) }
{
    put(out, bytes.map(hex_byte).as_flattened())
}

// A blank, and a word of four digits, or four dashes for none.
fn word_field(word: Option<u16>) -> [u8; 5]
    ensures { result ≡ 32 ∷ word_field word }
{
    let Some(word) = word else {
        return *b" ----";
    };
    let [[a, b], [c, d]] = word.to_be_bytes().map(hex_byte);
    [b' ', a, b, c, d]
}

// The three words at once: one by one, a scan took 100 instructions more.
fn put_note(out: &mut Vec<u8>, note: Note) -> Result<(), AllocError>
    ensures { OnOk result (out.new.items ≡ out.old.items ++ note_fields note) }
{
    let words = [note.taken, note.posted, note.closed];
    put(out, words.map(word_field).as_flattened())
}

fn put_scan(out: &mut Vec<u8>, read: [u8; 8], note: Note) -> Result<(), AllocError>
    ensures { OnOk result (out.new.items ≡ out.old.items ++ scan_line read note) }
{
    put(out, b"scan ")?;
    put_hex(out, &read)?;
    put_note(out, note)?;
    put(out, b"\n")
}

fn put_read(out: &mut Vec<u8>, strip: [u8; 4]) -> Result<(), AllocError>
    ensures { OnOk result (out.new.items ≡ out.old.items ++ read_line strip) }
{
    put(out, b"read ")?;
    put_hex(out, &strip)?;
    put(out, b"\n")
}

fn put_decline(out: &mut Vec<u8>, declined: Declined) -> Result<(), AllocError>
    ensures { OnOk result (out.new.items ≡ out.old.items ++ decline_line (number_of declined)) }
{
    let number = u8::from(declined);
    put_text(out, format_args!("read no {number}\n"))
}

// The line of a fault by its number and place: a `Fault` in their stead would take fewer of a caller's numbers than before.
pub fn put_fault(out: &mut Vec<u8>, number: u8, place: usize) -> Result<(), AllocError>
    ensures { OnOk result (out.new.items ≡ out.old.items ++ fault_line number place) }
{
    put_text(out, format_args!("fault {number} at {place}\n"))
}

pub(crate) fn put_end(out: &mut Vec<u8>) -> Result<(), AllocError>
    ensures { OnOk result (out.new.items ≡ out.old.items ++ end_line) }
{
    put(out, b"end\n")
}

// The line of a call.
pub fn put_answer(out: &mut Vec<u8>, answer: Answer) -> Result<(), AllocError>
    ensures { OnOk result (out.new.items ≡ out.old.items ++ answer_line answer) }
{
    match answer {
        Answer::Scanned { read, note, .. } => put_scan(out, read, note),
        Answer::Replied(strip) => put_read(out, strip),
        Answer::Looked(_) => Ok(()),
        Answer::Declined(declined) => put_decline(out, declined),
    }
}

pub(crate) fn put_entries(out: &mut Vec<u8>, entries: &[Entry]) -> Result<(), AllocError>
    ensures { OnOk result (out.new.items ≡ out.old.items ++ entry_lines entries.now) }
{
    for noted in entries {
        put_answer(out, noted.answer)?;
    }
    Ok(())
}
