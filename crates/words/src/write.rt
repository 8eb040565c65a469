// Writing events into a lent list, one after the other.
ghost use Rattle.std.specs.Prelude.{◌≤◌, length};
ghost use Rattle.words.specs.Pool.{list_words};

use crate::event::Event;
use crate::limits::Pool;

// A lent list with room for every plan, and how many events were written into it.
#[derive(Drop)]
pub struct EventList<'a> {
    pub words: &'a mut [u64],
    pub events: u64,
    ghost long: { list_words ≤ length words.now },
}

impl<'a> EventList<'a> {
    ghost use Rattle.std.specs.Prelude.{◌+◌, ◌<◌, ◌≡◌, [], ◌∷◌};
    ghost use Rattle.words.specs.Pool.{events_most};
    ghost use Rattle.words.specs.declared.event.Event.TheVariants.{Store as store, Flush as flush, Fence as fence};
    ghost use Rattle.words.specs.Event.{number_of, top_byte};
    ghost use Rattle.words.specs.Blocks.{once};
    ghost use Rattle.words.specs.Written.{Wrote};

    pub fn new(list: &'a mut [u64]) -> EventList<'a>
        requires { list_words ≤ length list.old }
        ensures same { result.words.ghost_name ≡ list.entry.ghost_name }
        ensures list { result.words.now ≡ list.old }
        ensures events { result.events ≡ 0 }
    {
        EventList {
            words: list,
            events: 0,
        }
    }

    fn write(&mut self, event: Event)
        requires { (self.old.events < events_most) × (number_of event < top_byte) }
        ensures { Wrote (event ∷ []) self.old self.new }
    {
        let at = (self.events as usize) * 2;
        (self.words[at], self.words[at + 1]) = event.words();
        self.events += 1;
    }

    pub fn store(&mut self, word: u64, value: u64)
        requires { (self.old.events < events_most) × (word < top_byte) }
        ensures { Wrote (store word value ∷ []) self.old self.new }
    {
        self.write(Event::Store(word, value));
    }

    pub fn flush(&mut self, line: u64)
        requires { (self.old.events < events_most) × (line < top_byte) }
        ensures { Wrote (flush line ∷ []) self.old self.new }
    {
        self.write(Event::Flush(line));
    }

    pub fn fence(&mut self)
        requires { self.old.events < events_most }
        ensures { Wrote (fence ∷ []) self.old self.new }
    {
        self.write(Event::Fence);
    }

    // One word stored, its line flushed, a fence.
    pub fn once(&mut self, word: u64, value: u64)
        requires { (self.old.events + 3 ≤ events_most) × (word < top_byte) }
        ensures { Wrote (once word value) self.old self.new }
    {
        self.store(word, value);
        self.flush(Pool::line(word));
        self.fence();
    }
}
