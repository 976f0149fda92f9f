// A line of a scenario.
use crate::settings::Settings;
use crate::words::{number, small, words_of};
use std::alloc::{AllocError, Global};
use wt_core::{Call, Land};
use wt_tests::Loaded;

/// The source's result for a `get`: a value, or an error's code.
#[derive(Clone, Copy, Debug)]
pub enum Load {
    Value(Loaded),
    Failed(u32),
}

/// Whether a slide makes the window wider, and its moment.
#[derive(Clone, Copy, Debug)]
pub struct Slide {
    pub wider: bool,
    pub now: u64,
}

/// A line.
#[derive(Drop)]
pub enum Line {
    /// A call of the cache.
    Call(Call<u64, Loaded>),
    /// A read of a key at a moment.
    Read(u64, u64),
    /// A peek at a key at a moment.
    Peek(u64, u64),
    /// A get of a key at a moment, and what the source returns if it is asked.
    Get(u64, Load, u64),
    /// A slide at the shard of a key.
    Slide(u64, Slide),
    /// The numbers of the cache.
    Stats,
    /// The keys of the regions in their order.
    Order,
    /// Nothing: the settings, a comment or an empty line.
    Nothing,
}

/// The call that is played.
#[derive(Drop)]
pub struct Scenario {
    pub settings: Settings,
    pub lines: Vec<Line>,
}

impl Scenario {
    /// Reads a line, and returns whether it is one.
    pub fn read(&mut self, alloc: Global, text: &str) -> Result<bool, AllocError> {
        let Some(line) = read(alloc, text, &mut self.settings)? else {
            return Ok(false);
        };
        self.lines.push(line)?;
        Ok(true)
    }
}

// Reads a line, and takes over its settings if it has some. `None` of a line that is none.
fn read(alloc: Global, text: &str, settings: &mut Settings) -> Result<Option<Line>, AllocError> {
    let words = words_of(alloc, text)?;
    match words.as_slice() {
        [] => Ok(Some(Line::Nothing)),
        ["settings", pairs @ ..] => {
            let fits = settings.read(pairs);
            Ok(if fits { Some(Line::Nothing) } else { None })
        }
        words => Ok(line_of(words)),
    }
}

// Whether a slide makes window wider.
fn is_wider(way: &str) -> Option<bool> {
    match way {
        "wider" => Some(true),
        "narrower" => Some(false),
        _ => None,
    }
}

// The line that the words spell.
fn line_of(words: &[&str]) -> Option<Line> {
    match *words {
        ["stats"] => Some(Line::Stats),
        ["order"] => Some(Line::Order),
        [moment, "clean"] => Some(Line::Call(Call::Clean(number(moment)?))),
        [moment, "clear"] => Some(Line::Call(Call::Clear(number(moment)?))),
        [moment, "peek", key] => Some(Line::Peek(number(key)?, number(moment)?)),
        [moment, "read", key] => Some(Line::Read(number(key)?, number(moment)?)),
        [moment, word, key] => Some(Line::Call(asked(word, number(key)?, number(moment)?)?)),
        [moment, "slide", key, way] => {
            let wider = is_wider(way)?;
            let now = number(moment)?;
            Some(Line::Slide(number(key)?, Slide { wider, now }))
        }
        [moment, "get", key, ref load @ ..] => {
            let load = load_of(load)?;
            Some(Line::Get(number(key)?, load, number(moment)?))
        }
        [moment, "put", key, ref value @ ..] => {
            let value = value_of(value)?;
            Some(Line::Call(Call::Put(number(key)?, value, number(moment)?)))
        }
        [moment, "land", key, id, ref what @ ..] => {
            let what = landing(what)?;
            let id = number(id)?;
            Some(Line::Call(Call::Land(id, number(key)?, what, number(moment)?)))
        }
        _ => None,
    }
}

// A call that has a key and no more.
fn asked(word: &str, key: u64, moment: u64) -> Option<Call<u64, Loaded>> {
    match word {
        "look" => Some(Call::Look(key, moment)),
        "seek" => Some(Call::Seek(key, moment)),
        "drop" => Some(Call::DropKey(key, moment)),
        "forget" => Some(Call::Forget(key, moment)),
        _ => None,
    }
}

// A value, its weight, and its life if it has one.
fn value_of(words: &[&str]) -> Option<Loaded> {
    let (value, weight, life) = match *words {
        [value, weight] => (value, weight, 0),
        [value, weight, life] => (value, weight, small(life)?),
        _ => return None,
    };
    let version = number(value)?;
    let weight = small(weight)?;
    Some(Loaded {
        version,
        weight,
        life,
    })
}

// The source's result.
fn load_of(words: &[&str]) -> Option<Load> {
    if let ["failed", code] = *words {
        return Some(Load::Failed(small(code)?));
    }
    Some(Load::Value(value_of(words)?))
}

// How a load ends.
fn landing(words: &[&str]) -> Option<Land<Loaded>> {
    match *words {
        ["keep", ref value @ ..] => Some(Land::Keep(value_of(value)?)),
        ["loose"] => Some(Land::Loose),
        ["failed"] => Some(Land::Failed),
        _ => None,
    }
}
