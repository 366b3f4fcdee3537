// The kinds of steps that make a node or take one apart.
ghost use Rattle.std.specs.Prelude.{◌≡◌, ◌<◌, Some, ◌≢◌};
ghost use Rattle.cells.specs.Calls.{Gives};
ghost use Rattle.cells.specs.Cells.{Held, free};
ghost use Rattle.inner.specs.Kinds.{Apart, Consed, matched_cells, matched_frame};
ghost use Rattle.engine.specs.Service.{capacity_of, cells_of};
ghost use Rattle.rules.specs.Limits.{slot_count};
ghost use Rattle.inner.specs.Changes.{with_frame};
ghost use Rattle.standing.specs.Stepping.{slot_in, slot_word, words_in};

use crate::engine::Engine;
use cells::store::{CellStore, Meaning};
use cells::words::Words;
use standing::Slot;

// A node's cell is read and given back in one step.
pub(crate) fn taken_apart<S: CellStore>(store: &mut S, word: u32) -> Words
    requires ok { S.Meaning.ok store.old }
    requires held { Held (S.Meaning.cells store.old) word }
    ensures ok { S.Meaning.ok store.new }
    ensures words { result ≡ words_in (S.Meaning.cells store.old word) }
    ensures gave { Gives S.Meaning.cells S.Meaning.capacity store.old word (Some tt) store.new }
{
    let Some(words) = store.read(word) else {
        unreachable!()
    };
    let Some(()) = store.give(word) else {
        unreachable!()
    };
    words
}

// That slots are below the count is asked as in `inner`'s kinds of steps.
impl<S: CellStore> Engine<S> {
    // A cell is free: the check has seen to that.
    pub(crate) fn cons(&mut self, d: u8, t: u8, h: u8, l: u8, next: usize)
        requires ok { S.Meaning.ok self.old.store }
        requires slots { (d < slot_count) × (h < slot_count) × (l < slot_count) }
        requires room { 0 < free (capacity_of S.Meaning self.old) (cells_of S.Meaning self.old) }
        ensures ok { S.Meaning.ok self.new.store }
        ensures capacity { capacity_of S.Meaning self.new ≡ capacity_of S.Meaning self.old }
        ensures consed { Consed (cells_of S.Meaning self.old) self.old.inner d t h l next (cells_of S.Meaning self.new) self.new.inner }
    {
        let element = self.inner.used(h).word();
        let tail = self.inner.used(l).word();
        let Ok(word) = self.store.take(Words {
            element,
            tail,
            third: 0,
        })
        else {
            unreachable!()
        };
        self.inner.bind(d, Slot::ListOf { word, of: t }, next);
    }

    pub(crate) fn match_list(&mut self, a: u8, h: u8, l: u8, first: usize, second: u16)
        requires ok { S.Meaning.ok self.old.store }
        requires slots { (a < slot_count) × (h < slot_count) × (l < slot_count) }
        requires apart { (slot_word (slot_in self.old.inner.frame.slots a) ≢ 0) → Apart (cells_of S.Meaning self.old) self.old.inner.sheet (slot_in self.old.inner.frame.slots a) }
        ensures ok { S.Meaning.ok self.new.store }
        ensures capacity { capacity_of S.Meaning self.new ≡ capacity_of S.Meaning self.old }
        ensures cells { cells_of S.Meaning self.new ≡ matched_cells (cells_of S.Meaning self.old) self.old.inner.frame a }
        ensures inner { self.new.inner ≡ with_frame self.old.inner (matched_frame (cells_of S.Meaning self.old) self.old.inner.sheet self.old.inner.frame a h l first second) }
    {
        let list = self.inner.used(a);
        let word = list.word();
        if word == 0 {
            self.inner.frame.next = first;
            return;
        }
        let of = list.type_number();
        let element = self.inner.element_type(of);
        let node = taken_apart(&mut self.store, word);
        self.inner.frame.slots[h as usize] = Slot::of_type(element, node.element);
        self.inner.bind(
            l,
            Slot::ListOf {
                word: node.tail,
                of,
            },
            second as usize,
        );
    }
}
