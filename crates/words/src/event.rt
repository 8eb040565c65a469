// An event, and its two words in a list: the kind in the top byte of the first with the number below it, then the value.
ghost use Rattle.std.specs.Prelude.{◌≡◌, ◌<◌, ◌/◌, ◌%◌};
ghost use Rattle.words.specs.Event as e;

// A store of a value to a word, a flush of a line, a fence.
#[derive(Clone, Copy)]
pub enum Event {
    Store(u64, u64),
    Flush(u64),
    Fence,
}

// The kinds.
const STORE: u64 = 1;

const FLUSH: u64 = 2;

const FENCE: u64 = 3;

impl Event {
    pub fn words(self) -> (u64, u64)
        requires { e.number_of self < e.top_byte }
        ensures first { result.0 ≡ e.first_word self }
        ensures second { result.1 ≡ e.second_word self }
    {
        let (kind, number, value) = match self {
            Event::Store(word, value) => (STORE, word, value),
            Event::Flush(line) => (FLUSH, line, 0),
            Event::Fence => (FENCE, 0, 0),
        };
        ((kind << 56) | number, value)
    }

    // None where the kind is not 1 to 3.
    pub fn of_words(first: u64, value: u64) -> Option<Event>
        ensures { result ≡ e.event_of (first / e.top_byte) (first % e.top_byte) value }
    {
        let number = first & 0x00ff_ffff_ffff_ffff;
        match first >> 56 {
            STORE => Some(Event::Store(number, value)),
            FLUSH => Some(Event::Flush(number)),
            FENCE => Some(Event::Fence),
            _ => None,
        }
    }
}

// Event n of a list, counted from 1.
pub fn event_at(list: &[u64], n: u64) -> Option<Event>
    ensures { result ≡ e.event_at list.now n }
{
    if n == 0 || ((list.len() / 2) as u64) < n {
        return None;
    }
    let at = (n as usize - 1) * 2;
    Event::of_words(list[at], list[at + 1])
}
