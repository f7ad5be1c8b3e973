// What the calls of a run told: each line of the listing, with its words.
ghost use Rattle.std.specs.Prelude.{◌≡◌, [], ◌++◌, IfSome, OnOk};
ghost use Rattle.explain.specs.Names.{report_by};
ghost use Rattle.explain.specs.Explanations.{gross_rounded, selected_by, scan_in, attribute_of, reply_in, answer_words, indented, explained_entry, explained_lines};

use crate::words::{Reply, Scan};
use board::{Answer, Call, Class, Entry, Look, Note, Report, attribute_report, class_of};
use drivefile::put_answer;
use std::alloc::{AllocError, Global};
use std::fmt;
use wire::{MeasuringBlockWritten, Order, whole};

// The text so far, the order of the images, and the report that their value shows.
#[derive(Drop)]
pub struct Explainer {
    pub(crate) text: Vec<u8>,
    pub(crate) order: Order,
    pub(crate) report: Report,
}

impl Explainer {
    pub(crate) fn new(heap: Global, order: Order) -> Explainer
        ensures text { result.text.items ≡ [] }
        ensures order { result.order ≡ order }
        ensures report { result.report ≡ gross_rounded }
    {
        Explainer {
            text: Vec::new(heap),
            order,
            report: Report::GROSS_ROUNDED,
        }
    }

    // The lines and words of all calls.
    pub(crate) fn put_calls(
        &mut self,
        calls: &[Call<'_>],
        journal: &[Entry],
    ) -> Result<(), AllocError>
        ensures { OnOk result (self.new.text.items ≡ self.old.text.items ++ explained_lines self.old.order self.old.report calls.now journal.now) }
    {
        for (call, entry) in calls.iter().zip(journal) {
            self.put_entry(*call, *entry)?;
        }
        Ok(())
    }

    // The line of a call, and its words. What a scan selects, its own value shows.
    fn put_entry(&mut self, call: Call<'_>, entry: Entry) -> Result<(), AllocError>
        ensures text { OnOk result (self.new.text.items ≡ self.old.text.items ++ explained_entry self.old.order (selected_by self.old.report entry.answer) call.entry entry) }
        ensures order { self.new.order ≡ self.old.order }
        ensures report { OnOk result (self.new.report ≡ selected_by self.old.report entry.answer) }
    {
        put_answer(&mut self.text, entry.answer)?;
        self.report = selected_by(self.report, entry.answer);
        self.put_words(call, entry)
    }

    fn put_words(&mut self, call: Call<'_>, entry: Entry) -> Result<(), AllocError>
        ensures text { OnOk result (self.new.text.items ≡ self.old.text.items ++ indented (answer_words self.old.order self.old.report call.entry entry.answer entry.after)) }
        ensures order { self.new.order ≡ self.old.order }
        ensures report { self.new.report ≡ self.old.report }
    {
        match entry.answer {
            Answer::Scanned { read, note, .. } => {
                let scan = self.scan_in(read, note, entry.after);
                put_indented(&mut self.text, scan)
            }
            Answer::Replied(strip) => {
                let reply = self.reply_in(call, strip);
                put_indented(&mut self.text, reply)
            }
            Answer::Looked(_) => put_indented(&mut self.text, ""),
            Answer::Declined(declined) => {
                let words = declined.words();
                put_indented(&mut self.text, format_args!("declined: {words}"))
            }
        }
    }

    // What a read image shows. It is laid out as a write image, with the status word and the response in the last two places.
    fn scan_in(&self, read: [u8; 8], note: Note, after: Look) -> Scan
        ensures { result ≡ scan_in self.now.order self.now.report read note after }
    {
        let shown = MeasuringBlockWritten::from_image(read, self.order);
        Scan {
            report: self.report,
            value: whole(shown.value),
            status: shown.mask,
            shown: shown.command,
            note,
            after,
        }
    }

    fn reply_in(&self, call: Call<'_>, strip: [u8; 4]) -> Reply
        ensures { result ≡ reply_in self.now.order call.entry strip }
    {
        let attribute = attribute_of(call);
        let [a, b, c, d] = strip;
        let block = [a, b, c, d, 0, 0, 0, 0];
        Reply {
            attribute,
            report: attribute_report(attribute).unwrap_or(Report::GROSS_ROUNDED),
            value: whole(MeasuringBlockWritten::from_image(block, self.order).value),
        }
    }
}

// The report that the value shows after a call, if this one was selected before it.
fn selected_by(before: Report, answer: Answer) -> Report
    ensures { result ≡ selected_by before answer }
{
    match answer {
        // Closed by its own number, or nothing was posted or closed.
        Answer::Scanned { note, .. } if note.posted == note.closed => {
            note.closed.and_then(report_by).unwrap_or(before)
        }
        _ => before,
    }
}

// The report that a command word selects, if it selects one.
fn report_by(word: u16) -> Option<Report>
    ensures { result ≡ report_by word }
{
    match class_of(word) {
        Some(Class::Report(report)) => Some(report),
        _ => None,
    }
}

// The attribute that a call reads; a reply comes to a read alone, so 0 is never shown.
fn attribute_of(call: Call<'_>) -> u8
    ensures { result ≡ attribute_of call.entry }
{
    match call {
        Call::Read { address, .. } => address.attribute,
        Call::Scan { .. } | Call::Look => 0,
    }
}

// A line of words under its line of the listing. `drivefile` writes its lines likewise; a public function of it for this one
// would be no shorter.
pub(crate) fn put_indented<T: fmt::Display + Drop>(
    text: &mut Vec<u8>,
    words: T,
) -> Result<(), AllocError>
    ensures { OnOk result (IfSome (T.output words) (λ w. text.new.items ≡ text.old.items ++ indented w)) }
{
    let line = format!(in *text.allocator(); "    {words}\n")?;
    text.extend_from_slice(line.as_bytes())
}
