use super::compare::{holds, same};
use std::alloc::Global;
use std::collections::HashSet;
use std::fmt::Write;
use std::hash::{BuildHasher, BuildHasherDefault, FoldHasher};
use std::process::Abort;
use std::random::RandomSource;
use std::sync::atomic::{AtomicU64, Ordering};
use std::test::Fail;
use std::{fmt, io};
use wt_keys::{CacheKey, Name, Seed, places, shard_of};

const AIMED: usize = 1000;

// Sixteen bytes in place of random ones, so that each run has the same words.
#[derive(Clone, Copy)]
struct FixedBytes([u8; 16]);

// Fills the buffer from the first byte on, and leaves the bytes behind the sixteenth as they are.
impl RandomSource for FixedBytes {
    fn fill_bytes(&self, buf: &mut [u8]) -> io::Result<()> {
        for (place, byte) in buf.iter_mut().zip(self.0) {
            *place = byte;
        }
        Ok(())
    }
}

// A source that has no bytes to give.
struct Broken;

impl RandomSource for Broken {
    fn fill_bytes(&self, _buf: &mut [u8]) -> io::Result<()> {
        Err(io::Error::from_raw_os_error(5))
    }
}

// The seed of the bytes 0 to 15, which the published test vector of SipHash has.
fn counted() -> io::Result<Seed> {
    Seed::new(&FixedBytes([0, 1, 2, 3, 4, 5, 6, 7, 8, 9, 10, 11, 12, 13, 14, 15]))
}

fn other() -> io::Result<Seed> {
    Seed::new(&FixedBytes([7; 16]))
}

fn name(bytes: &[u8]) -> Result<Name, Fail> {
    Name::from_bytes(bytes).ok_or_else(|| Fail::new("more than 24 bytes"))
}

fn word_of<K: CacheKey>(key: K) -> u64 {
    key.word()
}

// The words are those of SipHash-1-3 in Rust's library, and of a second one in Python.
#[test]
fn a_word_is_the_keyed_hash_of_a_number(rt: HostRuntime) -> Result<(), Fail> {
    let seed = counted()?;
    let rows = [
        (0, 0x5CB9_6F6B_A2A4_FCFC),
        (1, 0x32C5_EA5C_E472_F19B),
        (2, 0x7F38_FB9F_024F_C6EC),
        (0x0706_0504_0302_0100, 0x3690_9511_8D29_9A8E),
    ];
    for (number, word) in rows {
        same(
            &rt,
            "the word of a seeded number",
            word_of(seed.key(number)),
            word,
        );
        same(&rt, "the number in it", *seed.key(number).key(), number);
    }
    Ok(())
}

// A name feeds its length in eight bytes, and then its bytes.
#[test]
fn a_word_is_the_keyed_hash_of_a_name(rt: HostRuntime) -> Result<(), Fail> {
    let seed = counted()?;
    let rows: [(&[u8], u64); 4] = [
        (b"", 0x5CB9_6F6B_A2A4_FCFC),
        (b"a", 0x191E_FFD3_459C_7E1D),
        (b"foobar", 0x0E94_F46B_C3C3_4186),
        (&[7; 24], 0x634E_363F_C7DD_854F),
    ];
    for (bytes, word) in rows {
        let key = seed.key(name(bytes)?);
        same(&rt, "the word of a seeded name", word_of(key), word);
        holds(&rt, "the name in it", key.key().as_bytes() == bytes);
    }
    Ok(())
}

#[test]
fn keys_of_one_seed_are_equal_where_the_keys_are(rt: HostRuntime) -> Result<(), Fail> {
    let seed = counted()?;
    let mut seen = HashSet::new(rt.alloc());
    for bytes in [b"a" as &[u8], b"b", b"eight678", b"eight678 and more"] {
        holds(
            &rt,
            "the set hasn't seen the key",
            seen.insert(seed.key(name(bytes)?))?,
        );
        holds(
            &rt,
            "the set has seen the key",
            !seen.insert(seed.key(name(bytes)?))?,
        );
        holds(
            &rt,
            "the set finds the key",
            seen.contains(&seed.key(name(bytes)?)),
        );
    }
    holds(&rt, "a key equals itself", seed.key(1u64) == seed.key(1u64));
    holds(&rt, "two keys differ", seed.key(1u64) != seed.key(2u64));
    Ok(())
}

#[test]
fn keys_of_two_seeds_differ(rt: HostRuntime) -> Result<(), Fail> {
    let (one, other) = (counted()?, other()?);
    holds(
        &rt,
        "a number under two seeds",
        one.key(1u64) != other.key(1u64),
    );
    holds(
        &rt,
        "a name under two seeds",
        one.key(name(b"a")?) != other.key(name(b"a")?),
    );
    let mut seen = HashSet::new(rt.alloc());
    seen.insert(one.key(1u64))?;
    holds(
        &rt,
        "a set doesn't find the other seed's key",
        !seen.contains(&other.key(1u64)),
    );
    Ok(())
}

#[test]
fn the_system_gives_another_seed_each_time(rt: HostRuntime) -> Result<(), Fail> {
    let (one, other) = (Seed::new(&rt)?, Seed::new(&rt)?);
    // That both words agree has one chance in 2^64.
    holds(
        &rt,
        "two seeds of the system",
        one.key(1u64) != other.key(1u64),
    );
    Ok(())
}

#[test]
fn a_source_that_fails_gives_no_seed(rt: HostRuntime) {
    holds(&rt, "a source that fails", Seed::new(&Broken).is_err());
}

#[test]
fn a_seed_prints_no_bit_of_itself_and_a_key_no_word(rt: HostRuntime) -> Result<(), Fail> {
    let seed = counted()?;
    same(
        &rt,
        "a seed by Debug",
        format!(in rt.alloc(); "{seed:?}")?.as_str(),
        "Seed { state: RandomState { .. } }",
    );
    same(
        &rt,
        "a seeded number by Debug",
        format!(in rt.alloc(); "{:?}", seed.key(7u64))?.as_str(),
        "7",
    );
    same(
        &rt,
        "a seeded number by Debug in lines",
        format!(in rt.alloc(); "{:#?}", seed.key(7u64))?.as_str(),
        "7",
    );
    same(
        &rt,
        "a seeded number, padded",
        format!(in rt.alloc(); "{:>3}", seed.key(7u64))?.as_str(),
        "  7",
    );
    same(
        &rt,
        "a seeded name by Debug",
        format!(in rt.alloc(); "{:?}", seed.key(name(b"foobar")?))?.as_str(),
        "\"foobar\"",
    );
    Ok(())
}

// Counts the bytes that it is asked for.
#[derive(Drop)]
struct Asked(AtomicU64);

impl RandomSource for Asked {
    fn fill_bytes(&self, buf: &mut [u8]) -> io::Result<()> {
        self.0.fetch_add(buf.len() as u64, Ordering::SeqCst);
        FixedBytes([7; 16]).fill_bytes(buf)
    }
}

#[test]
fn a_seed_takes_sixteen_bytes_of_its_source(rt: HostRuntime) -> Result<(), Fail> {
    let asked = Asked(AtomicU64::new(0));
    let seed = Seed::new(&asked)?;
    same(
        &rt,
        "bytes that the seed asked for",
        asked.0.load(Ordering::SeqCst),
        16,
    );
    holds(
        &rt,
        "the seed is of those bytes",
        seed.key(1u64) == other()?.key(1u64),
    );
    Ok(())
}

// Sixteen of the byte, and four of 1.
fn sixteen(byte: u8) -> [u8; 20] {
    let mut bytes = [1; 20];
    for place in bytes.iter_mut().take(16) {
        *place = byte;
    }
    bytes
}

#[test]
fn fixed_bytes_are_given_whole_and_no_byte_past_them(rt: HostRuntime) -> Result<(), Fail> {
    for byte in [0, 0x7F, 0x80, 0xFF] {
        let mut buf = [1u8; 20];
        FixedBytes([byte; 16]).fill_bytes(&mut buf)?;
        same(
            &rt,
            "sixteen bytes, and those past them",
            buf,
            sixteen(byte),
        );
    }
    Ok(())
}

// Takes nothing.
#[derive(Drop)]
struct Full;

impl fmt::Write for Full {
    fn write_str(&mut self, _text: &str) -> fmt::Result {
        Err(fmt::Error)
    }
}

#[test]
fn a_write_that_is_refused_is_told(rt: HostRuntime) -> Result<(), Fail> {
    let seed = counted()?;
    holds(
        &rt,
        "a number's Display is told",
        write!(Full, "{}", seed.key(7u64)).is_err(),
    );
    holds(
        &rt,
        "a number's Debug is told",
        write!(Full, "{:?}", seed.key(7u64)).is_err(),
    );
    holds(
        &rt,
        "a name's Display is told",
        write!(Full, "{}", name(b"foobar")?).is_err(),
    );
    holds(
        &rt,
        "a name's Debug is told",
        write!(Full, "{:?}", name(b"foobar")?).is_err(),
    );
    holds(
        &rt,
        "a seed's Debug is told",
        write!(Full, "{seed:?}").is_err(),
    );
    Ok(())
}

// A key for each number.
trait Numbered: CacheKey + Drop {
    fn numbered(number: u64) -> Option<Self>;
}

impl Numbered for u64 {
    fn numbered(number: u64) -> Option<u64> {
        Some(number)
    }
}

impl Numbered for Name {
    fn numbered(number: u64) -> Option<Name> {
        Name::from_bytes(&number.to_be_bytes())
    }
}

// Which of 64 groups a table looks into first for a key.
fn group_of<K: CacheKey + Drop>(key: K) -> u64 {
    let hash = BuildHasherDefault::<FoldHasher>::new().hash_one(key);
    (hash ^ (hash >> 32)) & 63
}

fn is_aimed<K: CacheKey + Drop>(key: K) -> bool {
    let word = key.word();
    shard_of(word, 4) == 0 && places(word, 6)[0] == 0 && group_of(key) == 0
}

// Keys that all meet in one shard, at one place of a hash row, and in one group of a table.
fn aimed<K: Numbered>(alloc: Global) -> Result<Vec<K>, Fail> {
    let mut keys = Vec::new(alloc);
    for number in 0..u64::MAX {
        if keys.len() == AIMED {
            break;
        }
        if let Some(key) = K::numbered(number) {
            if is_aimed(key) {
                keys.push(key)?;
            }
        }
    }
    Ok(keys)
}

fn expect_apart<K: Numbered>(rt: &impl Abort, alloc: Global) -> Result<(), Fail> {
    let mut parted = Parted {
        words: HashSet::new(alloc),
        groups: HashSet::new(alloc),
        row: HashSet::new(alloc),
        shards: [0; 4],
    };
    parted.take_aimed::<K>(alloc)?;
    // By chance 16 keys are in each of the 64 groups and at each of the 64 places, and 250 in each
    // shard.
    same(
        rt,
        "words, groups and places",
        parted.lens(),
        (AIMED, 64, 64),
    );
    for shard in parted.shards {
        holds(rt, "each shard has 200 keys and more", shard > 200);
    }
    Ok(())
}

// What a seed makes of keys: their words, groups, places of the first row, and how many each shard has.
#[derive(Drop)]
struct Parted {
    words: HashSet<u64>,
    groups: HashSet<u64>,
    row: HashSet<usize>,
    shards: [u32; 4],
}

impl Parted {
    fn take_aimed<K: Numbered>(&mut self, alloc: Global) -> Result<(), Fail> {
        let seed = counted()?;
        for key in aimed::<K>(alloc)? {
            let seeded = seed.key(key);
            self.take(seeded.word(), group_of(seeded))?;
        }
        Ok(())
    }

    fn take(&mut self, word: u64, group: u64) -> Result<(), Fail> {
        self.words.insert(word)?;
        self.groups.insert(group)?;
        self.row.insert(places(word, 6)[0])?;
        let shard = &mut self.shards[shard_of(word, 4)];
        *shard = shard.saturating_add(1);
        Ok(())
    }

    fn lens(&self) -> (usize, usize, usize) {
        (self.words.len(), self.groups.len(), self.row.len())
    }
}

#[test]
fn aimed_numbers_part_under_a_seed(rt: HostRuntime) -> Result<(), Fail> {
    expect_apart::<u64>(&rt, rt.alloc())
}

#[test]
fn aimed_names_part_under_a_seed(rt: HostRuntime) -> Result<(), Fail> {
    expect_apart::<Name>(&rt, rt.alloc())
}
