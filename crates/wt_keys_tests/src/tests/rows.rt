use super::compare::same;
use wt_keys::{bits_for, places, shard_of};

#[test]
fn a_place_is_the_highest_bits_of_a_product(rt: HostRuntime) {
    let rows = [
        (1, [39, 47, 37, 53]),
        (2, [15, 31, 10, 43]),
        (0, [0, 0, 0, 0]),
    ];
    for (word, expected) in rows {
        same(&rt, "the place in each row", places(word, 6), expected);
    }
}

#[test]
fn six_small_words_part_in_the_first_row(rt: HostRuntime) {
    for (word, place) in [(1, 39), (2, 15), (3, 54), (4, 30), (5, 5), (6, 45)] {
        same(&rt, "the place in the first row", places(word, 6)[0], place);
    }
}

#[test]
fn a_width_is_the_least_power_of_two_that_is_enough(rt: HostRuntime) {
    let rows = [
        (1, 6),
        (64, 6),
        (65, 7),
        (128, 7),
        (129, 8),
        (32_769, 16),
        (65_536, 16),
    ];
    for (entries, bits) in rows {
        same(&rt, "bits of the width", bits_for(entries), bits);
    }
}

#[test]
fn a_shard_is_the_highest_bits_of_its_own_product(rt: HostRuntime) {
    for (word, of_four) in [(1, 3), (2, 2), (3, 1), (4, 0), (5, 3), (6, 2)] {
        same(&rt, "of four shards", shard_of(word, 4), of_four);
        same(&rt, "of two shards", shard_of(word, 2), of_four / 2);
        same(&rt, "of one shard", shard_of(word, 1), 0);
    }
    same(
        &rt,
        "the greatest word, of one shard",
        shard_of(u64::MAX, 1),
        0,
    );
}
