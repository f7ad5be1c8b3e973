// The scan: tend the weigher, post a response that is due or else judge the command word, and show the read image.
ghost use Rattle.std.specs.Prelude.{◌≡◌, length, MatchResult};
ghost use Rattle.board.specs.Declines.{decline_of, scan_decline};
ghost use Rattle.board.specs.Images.{image_of};
ghost use Rattle.board.specs.Scans.{judged_in, paid, paid_note, judged, responded, Scanned};

use super::Board;
use crate::block::{Due, Judged};
use crate::declined::Declined;
use crate::list::class_of;
use crate::note::Note;
use weigher::{Told, Weigher};
use wire::{MeasuringBlockWritten, whole};

// The command word of a block written, with what it is judged by.
impl From<MeasuringBlockWritten> for Judged {
    ghost use Rattle.board.specs.Scans.{judged_of};

    ghost from_gives = { λ written judged. judged ≡ judged_of written };

    fn from(written: MeasuringBlockWritten) -> Judged {
        Judged {
            word: written.command,
            flawed: written.command >= 2048 || written.mask >= 2,
            class: class_of(written.command),
            value: whole(written.value),
        }
    }
}

impl<W: Weigher> Board<W> {
    // Posts a response that is due.
    fn pay(&mut self, due: Due) -> Note
        ensures note { result ≡ paid_note due self.old.inner }
        ensures inner { self.new.inner ≡ paid due self.old.inner }
        ensures weigher { self.new.weigher ≡ self.old.weigher }
    {
        let open = self.inner.block.open_word();
        self.inner.block.post(due.response, due.state);
        if let Some(deviation) = due.deviation {
            self.inner.deviation = deviation;
        }
        match self.inner.block.open_word() {
            Some(_) => Note::answers(due.response, None),
            None => Note::answers(due.response, open),
        }
    }

    // Judges the command word of a write image if it differs from the compared word.
    fn judge(&mut self, image: [u8; 8]) -> Note
        ensures work { (self.new.inner, result, W.kind.meaning self.new.weigher) ≡ judged W.kind.patience self.old.inner (W.kind.meaning self.old.weigher) (judged_in self.old.inner.settings.order image) }
        ensures sensor { W.kind.keeps self.old.weigher self.new.weigher }
    {
        let written = MeasuringBlockWritten::from_image(image, self.inner.settings.order);
        if written.command == self.inner.block.compared {
            return Note::nothing();
        }
        let capacity = self.weigher.look().capacity;
        let verdict = self.inner.block.judge(written.into(), capacity);
        self.inner
            .block
            .act(&mut self.weigher, written.command, verdict)
    }

    // Posts what is due after a tend that told this, or else judges the command word.
    fn respond(&mut self, told: Told, image: [u8; 8]) -> Note
        ensures work { (self.new.inner, result, W.kind.meaning self.new.weigher) ≡ responded W.kind.patience self.old.inner told (W.kind.meaning self.old.weigher) (judged_in self.old.inner.settings.order image) }
        ensures sensor { W.kind.keeps self.old.weigher self.new.weigher }
    {
        match self.inner.block.due(told, self.gross()) {
            Some(due) => self.pay(due),
            None => self.judge(image),
        }
    }

    // All of an answered scan but the read image.
    fn answer(&mut self, image: [u8; 8]) -> Note
        ensures { Scanned W.kind self.old image self.new result }
    {
        let told = self.weigher.tend();
        let note = self.respond(told, image);
        self.inner.heartbeat = !self.inner.heartbeat;
        note
    }

    // Answers a write image by a read image, or declines strips of another size.
    pub fn scan(&mut self, write: &[u8], read: &mut [u8]) -> Result<Note, Declined>
        ensures declines { decline_of result ≡ scan_decline (length write.now) (length read.old) }
        ensures cases { MatchResult result (λ n. Scanned W.kind self.old write.now self.new n × (read.new ≡ image_of self.new.inner (W.kind.meaning self.new.weigher))) (λ _. (self.new ≡ self.old) × (read.new ≡ read.old)) }
    {
        let Ok(image) = <[u8; 8]>::try_from(write) else {
            return Err(Declined::WriteMisfit);
        };
        if read.len() != 8 {
            return Err(Declined::ReadMisfit);
        }
        let note = self.answer(image);
        read.copy_from_slice(&self.image());
        Ok(note)
    }
}
