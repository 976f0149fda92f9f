// A history whose value says which one it is, so that one type serves all of them.
//
// The word is the log's length. Only the holder's `write` moves it, but no type shows that. Where a
// `History` would wait without end, since its holder found another length than it had counted, a
// `Log` returns `false`: a static library has no handle with which it could wait.
ghost use Rattle.std.specs.Prelude.{◌≡◌, ◌<◌, ◌^◌, ◌++◌, ◌∷◌, [], length, IsTrue, IsFalse};
ghost use mathlib.Core.List.{IsPrefix};
ghost use Rattle.wt_history.specs.Rules.{head_of};

use crate::prefix::Prefix;
use crate::rule::Law;
use crate::trail::Asked;
use logbook::{Seen, Start, Word};
use std::marker::Model;

/// A history in the hands of its holder, the only one that adds to it. It takes the room of one
/// word.
#[derive(Drop)]
pub struct Log<E> {
    head: Word<E, u64, Law>,
    // All entries.
    whole: Prefix<E>,
}

impl<E> Model for Log<E> {
    ghost use Rattle.std.specs.Prelude.{◌≡◌};
    ghost use Rattle.wt_history.specs.Rules.{head_of};
    ghost use Rattle.wt_history.specs.Logged.{Logged};

    ghost Value = { Logged E };

    ghost view = { λ l. l.whole };

    ghost invariant = { λ l. l.head ≡ head_of l.whole.book };
}

impl<E> Log<E> {
    /// Makes an empty log. Takes no memory. O(1).
    pub fn new() -> Log<E>
        ensures { result.entries ≡ [] }
    {
        let (seen, mut first, _second) = Seen::open(Start::alone(), 0, 0);
        Log {
            head: Word::tracked(0, &mut first),
            whole: Prefix { seen },
        }
    }

    /// Returns the prefix of a caller that has seen all entries. Takes no memory. O(1), and nothing
    /// at run time.
    pub fn seen(&self) -> Prefix<E>
        ensures { result ≡ self.now }
    {
        self.whole.again()
    }

    /// Returns the entry as one that is to be added. Takes no memory. O(1), and nothing at run time.
    pub fn ask(&self, entry: &E) -> Asked<E>
        ensures { result ≡ entry.now }
    {
        self.whole.ask(entry)
    }

    /// Adds the entry behind the whole log, which is `at` long. The caller's prefix was a beginning
    /// of the log.
    ///
    /// Returns `false` if the log has another length, and nothing changes. It never has, since its
    /// holder alone adds to it, but no clause says so. Takes no memory. O(1): one exchange of a word.
    pub fn write(&mut self, prefix: &Prefix<E>, asked: Asked<E>, at: u64) -> bool
        requires one_log { prefix.now.book ≡ self.old.book }
        requires at { at ≡ length self.old.entries }
        requires room { at < 2 ^ 62 }
        ensures same { self.new.book ≡ self.old.book }
        ensures state { IsTrue result → self.new.entries ≡ self.old.entries ++ asked ∷ [] }
        ensures before { IsTrue result → IsPrefix prefix.now.entries self.old.entries }
        ensures err { IsFalse result → self.new ≡ self.old }
    {
        let mut both = self.whole.again();
        both.learn(prefix);
        let added = both.add(&self.head, at, asked);
        if added {
            self.whole = both;
        }
        added
    }

    /// Shows that the caller's prefix is a beginning of the log, which is `at` long. The entry is
    /// only named, and isn't added.
    ///
    /// Returns `false` as `write` does. Takes no memory. O(1): one read of a word.
    pub fn cover(&self, prefix: &Prefix<E>, asked: Asked<E>, at: u64) -> bool
        requires one_log { prefix.now.book ≡ self.now.book }
        requires at { at ≡ length self.now.entries }
        ensures before { IsTrue result → IsPrefix prefix.now.entries self.now.entries }
    {
        let mut both = self.whole.again();
        both.learn(prefix);
        both.observe(&self.head, asked) == at
    }
}
