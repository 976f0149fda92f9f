use super::compare::{holds, same};
use std::alloc::Global;
use std::collections::HashSet;
use std::process::Abort;
use std::test::Fail;
use wt_keys::{CacheKey, Name};

fn name(bytes: &[u8]) -> Result<Name, Fail> {
    Name::from_bytes(bytes).ok_or_else(|| Fail::new("more than 24 bytes"))
}

fn word_of<K: CacheKey>(key: K) -> u64 {
    key.word()
}

#[test]
fn a_word_is_the_hash_of_the_bytes(rt: HostRuntime) -> Result<(), Fail> {
    let rows: [(&[u8], u64); 3] = [
        (b"", 0xCBF2_9CE4_8422_2325),
        (b"a", 0xAF63_DC4C_8601_EC8C),
        (b"foobar", 0x8594_4171_F739_67E8),
    ];
    for (bytes, word) in rows {
        same(&rt, "the word", word_of(name(bytes)?), word);
        holds(&rt, "the bytes", name(bytes)?.as_bytes() == bytes);
    }
    Ok(())
}

#[test]
fn a_name_has_at_most_24_bytes(rt: HostRuntime) {
    holds(
        &rt,
        "24 bytes are a name",
        Name::from_bytes(&[7; 24]).is_some(),
    );
    holds(
        &rt,
        "25 bytes are none",
        Name::from_bytes(&[7; 25]).is_none(),
    );
}

#[test]
fn names_are_equal_where_their_bytes_are(rt: HostRuntime) -> Result<(), Fail> {
    let rows: [(&[u8], &[u8]); 4] = [
        (b"eight678", b"eight678 and more"),
        (b"a", b"a\0"),
        (b"", b"\0"),
        (&[7; 24], &[7; 23]),
    ];
    for (one, other) in rows {
        same(
            &rt,
            "equal to itself, and to the other",
            (are_equal(one, one)?, are_equal(one, other)?),
            (true, false),
        );
        same(
            &rt,
            "new to a set: the one, the one again, the other",
            in_a_set(rt.alloc(), one, other)?,
            (true, false, true),
        );
    }
    Ok(())
}

fn are_equal(one: &[u8], other: &[u8]) -> Result<bool, Fail> {
    Ok(name(one)? == name(other)?)
}

fn is_new(seen: &mut HashSet<Name>, bytes: &[u8]) -> Result<bool, Fail> {
    Ok(seen.insert(name(bytes)?)?)
}

// Whether each is new to a set: the one, the one again, the other.
fn in_a_set(alloc: Global, one: &[u8], other: &[u8]) -> Result<(bool, bool, bool), Fail> {
    let mut seen = HashSet::new(alloc);
    Ok((
        is_new(&mut seen, one)?,
        is_new(&mut seen, one)?,
        is_new(&mut seen, other)?,
    ))
}

#[test]
fn a_name_prints_as_text(rt: HostRuntime) -> Result<(), Fail> {
    let rows: [(&[u8], &str, &str); 5] = [
        (b"foobar", "foobar", "\"foobar\""),
        (b"", "", "\"\""),
        (b"a\"b\n", "a\"b\n", "\"a\\\"b\\n\""),
        (
            b"caf\xC3\xA9 \xFF!",
            "caf\u{E9} \u{FFFD}!",
            "\"caf\u{E9} \\xff!\"",
        ),
        // The first two bytes of a sign of three, which are one broken sequence.
        (b"a\xE2\x82b", "a\u{FFFD}b", "\"a\\xe2\\x82b\""),
    ];
    for (bytes, shown, quoted) in rows {
        let name = name(bytes)?;
        expect_shown(&rt, rt.alloc(), &name, shown)?;
        expect_quoted(&rt, rt.alloc(), &name, quoted)?;
    }
    let text = format!(in rt.alloc(); "{:>8}|", name(b"foobar")?)?;
    same(&rt, "padded to eight", text.as_str(), "  foobar|");
    Ok(())
}

fn expect_shown<R: Abort>(rt: &R, alloc: Global, name: &Name, shown: &str) -> Result<(), Fail> {
    let text = format!(in alloc; "{name}")?;
    same(rt, "by Display", text.as_str(), shown);
    Ok(())
}

fn expect_quoted<R: Abort>(rt: &R, alloc: Global, name: &Name, quoted: &str) -> Result<(), Fail> {
    let text = format!(in alloc; "{name:?}")?;
    same(rt, "by Debug", text.as_str(), quoted);
    Ok(())
}
