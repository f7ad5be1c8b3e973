// What a block and the weigher below do about a judged word.
ghost use Rattle.std.specs.Prelude.{◌≡◌, None};
ghost use Rattle.weigher.specs.Rules.{begun, dropped};
ghost use Rattle.weigher.specs.declared.orders.Order.TheVariants.{Settle};
ghost use Rattle.board.specs.declared.block.State.TheVariants.{Ready, Cancelling};
ghost use Rattle.board.specs.Acting.{acted, opened_by, started_by};
ghost use Rattle.board.specs.Responses.{word_of};
ghost use Rattle.board.specs.Notes.{nothing, at_once, answers};
ghost use Rattle.board.specs.Registers.{shown, posted};

use crate::block::{Block, State, Verdict};
use crate::note::Note;
use crate::response::Response;
use weigher::{Order, Weigher};

impl Block {
    // Carries out the verdict on a word.
    pub(crate) fn act<W: Weigher>(&mut self, weigher: &mut W, word: u16, verdict: Verdict) -> Note
        ensures work { (self.new, result, W.kind.meaning weigher.new) ≡ acted W.kind.patience word verdict self.old (W.kind.meaning weigher.old) }
        ensures sensor { W.kind.keeps weigher.old weigher.new }
    {
        match verdict {
            Verdict::Ignored => Note::nothing(),
            Verdict::Closed { response } => self.close_at_once(word, response),
            Verdict::Selected { report } => {
                self.report = report;
                self.close_at_once(word, Response::Done(word))
            }
            Verdict::Opened { order, state } => self.open(weigher, word, order, state),
            Verdict::Started { state, failed } => self.start(weigher, state, failed),
            Verdict::Failed { state } => self.fail(state),
            Verdict::Cancelled { word } => self.cancel(weigher, word),
        }
    }

    fn close_at_once(&mut self, word: u16, response: Response) -> Note
        ensures note { result ≡ at_once word (word_of response) }
        ensures block { self.new ≡ posted (word_of response) Ready self.old }
    {
        self.post(response, State::Ready);
        Note::at_once(word, response)
    }

    fn fail(&mut self, state: State) -> Note
        ensures note { result ≡ answers 0x8020 None }
        ensures block { self.new ≡ posted 0x8020 state self.old }
    {
        self.post(Response::StepFailed, state);
        Note::answers(Response::StepFailed, None)
    }

    // A word is taken: its order stands, or it is closed with the decline.
    fn open<W: Weigher>(&mut self, weigher: &mut W, word: u16, order: Order, state: State) -> Note
        ensures work { (self.new, result, W.kind.meaning weigher.new) ≡ opened_by word state self.old (begun W.kind.patience order (W.kind.meaning weigher.old)) }
        ensures sensor { W.kind.keeps weigher.old weigher.new }
    {
        match weigher.begin(order) {
            Ok(()) => {
                self.show(Response::InProcess, state);
                Note::takes(word)
            }
            Err(declined) => self.close_at_once(word, declined.into()),
        }
    }

    // A step settles, or fails where that cannot be begun.
    fn start<W: Weigher>(&mut self, weigher: &mut W, state: State, failed: State) -> Note
        ensures work { (self.new, result, W.kind.meaning weigher.new) ≡ started_by state failed self.old (begun W.kind.patience Settle (W.kind.meaning weigher.old)) }
        ensures sensor { W.kind.keeps weigher.old weigher.new }
    {
        match weigher.begin(Order::Settle) {
            Ok(()) => {
                self.show(Response::InProcess, state);
                Note::nothing()
            }
            Err(_) => self.fail(failed),
        }
    }

    // The order is dropped if one stands; the next answered scan says that the command was aborted.
    fn cancel<W: Weigher>(&mut self, weigher: &mut W, word: u16) -> Note
        ensures note { result ≡ nothing }
        ensures block { self.new ≡ shown 2004 (Cancelling word) self.old }
        ensures weigher { W.kind.meaning weigher.new ≡ (dropped (W.kind.meaning weigher.old)).1 }
        ensures sensor { W.kind.keeps weigher.old weigher.new }
    {
        let _ = weigher.drop();
        self.show(Response::AbortInProcess, State::Cancelling { word });
        Note::nothing()
    }
}
