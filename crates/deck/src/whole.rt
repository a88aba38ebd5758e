// A whole deck at once, and what each of its records is answered.
ghost use Rattle.std.specs.Prelude.{◌≡◌};
ghost use Rattle.deck.specs.Books.{book_of};
ghost use Rattle.deck.specs.Decks.{records_of, verdicts_of, overlaid};
ghost use Rattle.deck.specs.Desks.{DeskStands};

use crate::desk::Desk;
use records::read::RECORD_LENGTH;
use standard::fault::Fault;

// The desk that a new one becomes by the records of a deck; what is refused is passed over.
// What each record is answered stands in `answers` then, as far as there is room for it.
pub fn answer_deck(deck: &[u8], answers: &mut [Result<(), Fault>]) -> Desk
    ensures desk { DeskStands result (book_of (records_of deck.now)) }
    ensures answered { answers.new ≡ overlaid (verdicts_of (records_of deck.now)) answers.old }
{
    let mut desk = Desk::new();
    for (i, record) in deck.chunks(RECORD_LENGTH).enumerate() {
        let answer = desk.take(record);
        if i < answers.len() {
            answers[i] = answer;
        }
    }
    desk
}

// The same desk, where the answers are not asked for.
pub fn take_deck(deck: &[u8]) -> Desk
    ensures { DeskStands result (book_of (records_of deck.now)) }
{
    answer_deck(deck, &mut [])
}
