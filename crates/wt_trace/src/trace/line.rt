// A line of a trace, read from its bytes.
ghost use Rattle.std.specs.Prelude.{◌≡◌};
ghost use Rattle.wt_trace.specs.Keys.{IsNumber, IsName, numbers, names};
ghost use Rattle.wt_trace.specs.Line as spec;

use crate::trace::bytes::cut;
use crate::trace::digits::number_of;
use crate::trace::key::TraceKey;

/// The call that a line asks for.
#[derive(Clone, Copy, Debug)]
pub enum Act<K> {
    /// A look-up of the key, letter L.
    Look(K),
    /// A store of a new value under the key, letter P.
    Put(K),
    /// A seek of the key, whose flight stays open, letter S.
    Seek(K),
    /// A seek of the key, whose flight is landed at once, letter G.
    Get(K),
    /// A landing of the key's oldest open flight, letter E.
    Land(K),
    /// A removal of the key, letter D.
    Drop(K),
    /// The key's current flight is forgotten, letter F.
    Forget(K),
    /// A removal of all expired entries, letter C.
    Clean,
    /// A removal of all entries, letter X.
    Clear,
}

impl<K: Copy> Act<K> {
    /// Returns the key that is named, if one is.
    pub fn key(&self) -> Option<K>
        ensures { result ≡ spec.key_of self.now }
    {
        match *self {
            Act::Look(key) | Act::Put(key) | Act::Seek(key) | Act::Get(key) => Some(key),
            Act::Land(key) | Act::Drop(key) | Act::Forget(key) => Some(key),
            Act::Clean | Act::Clear => None,
        }
    }

    /// Returns the key that is looked up, if one is.
    pub fn looked_up(&self) -> Option<K>
        ensures { result ≡ spec.looked_up self.now }
    {
        match *self {
            Act::Look(key) | Act::Seek(key) | Act::Get(key) => Some(key),
            _ => None,
        }
    }
}

/// A line: its moment in milliseconds, and its call.
#[derive(Clone, Copy, Debug)]
pub struct Line<K> {
    /// The moment of the step.
    pub moment: u64,
    /// The call.
    pub act: Act<K>,
}

/// Returns the line that the bytes spell: a moment, one space, a letter, and for most letters one
/// space and a key.
pub fn line_of<K: TraceKey>(bytes: &[u8]) -> Option<Line<K>>
    ensures { result ≡ spec.line_of K.read bytes.now }
{
    let (moment, rest) = cut(bytes, b' ');
    let moment = number_of(moment)?;
    let act = act_of(rest)?;
    Some(Line { moment, act })
}

// Reads the letter and its key from the bytes behind the moment and its space.
fn act_of<K: TraceKey>(bytes: &[u8]) -> Option<Act<K>>
    ensures { result ≡ spec.act_of K.read bytes.now }
{
    match bytes {
        [b'C'] => Some(Act::Clean),
        [b'X'] => Some(Act::Clear),
        [letter, b' ', key @ ..] => act_on(*letter, K::read(key)?),
        _ => None,
    }
}

// What a letter does with a key.
fn act_on<K: Copy>(letter: u8, key: K) -> Option<Act<K>>
    ensures { result ≡ spec.lettered letter (spec.keyed key) }
{
    match letter {
        b'L' => Some(Act::Look(key)),
        b'P' => Some(Act::Put(key)),
        b'S' => Some(Act::Seek(key)),
        b'G' => Some(Act::Get(key)),
        b'E' => Some(Act::Land(key)),
        b'D' => Some(Act::Drop(key)),
        b'F' => Some(Act::Forget(key)),
        _ => None,
    }
}

/// Each line by the grammar is read, and nothing else is: lines of numbers, and lines of names.
pub fn reads_every_line()
    ensures numbers { spec.ReadsLines IsNumber numbers.read }
    ensures names { spec.ReadsLines IsName names.read }
{}
