use super::same;
use avs_model::Host;
use avs_text::{WordReader, host_named, is_group_name, is_volume_name, number, pattern};
use std::process::Abort;

#[test]
fn words_stand_between_blanks(rt: HostRuntime) {
    let mut words = WordReader::new(b"\t read  p\r/v/a \r\n");
    same(&rt, words.next(), Some(b"read".as_slice()));
    same(&rt, words.next(), Some(b"p".as_slice()));
    same(&rt, words.next(), Some(b"/v/a".as_slice()));
    same(&rt, words.next(), Some(b"\n".as_slice()));
    same(&rt, words.next(), None);
    same(&rt, words.next(), None);
}

#[test]
fn numbers_have_no_leading_zero(rt: HostRuntime) {
    for (word, want) in [
        ("0", Some(0)),
        ("7", Some(7)),
        ("4096", Some(4096)),
        ("4294967295", Some(4_294_967_295)),
        ("4294967296", None),
        ("42949672950", None),
        ("99999999999999999999999999", None),
        ("00", None),
        ("07", None),
        ("", None),
        ("-1", None),
        ("+1", None),
        ("1a", None),
        ("1:", None),
        ("/1", None),
    ] {
        same(&rt, number(word.as_bytes()), want);
    }
}

fn is_pattern(rt: &impl Abort, word: &str, want: &[u8]) {
    match pattern(word.as_bytes()) {
        Some(read) => same(rt, read.as_slice(), want),
        None => panic!(rt; "{word} is no pattern"),
    }
}

#[test]
fn patterns_have_a_power_of_two_bytes(rt: HostRuntime) {
    for word in [
        "",
        "0",
        "abc",
        "a0b1c2",
        "0g",
        "g0",
        "0A",
        "F0",
        "a/",
        "a:",
        "a`",
        "000102030405060708090a0b0c0d0e",
        "000102030405060708090a0b0c0d0e0f0",
        "000102030405060708090a0b0c0d0e0f00",
    ] {
        same(&rt, pattern(word.as_bytes()).is_none(), true);
    }
    for (word, want) in [
        ("09", &[0x09_u8] as &[u8]),
        ("af", &[0xaf]),
        ("fa10", &[0xfa, 0x10]),
        ("deadbeef", &[0xde, 0xad, 0xbe, 0xef]),
        (
            "0123456789abcdef",
            &[0x01, 0x23, 0x45, 0x67, 0x89, 0xab, 0xcd, 0xef],
        ),
        (
            "000102030405060708090a0b0c0d0e0f",
            &[0, 1, 2, 3, 4, 5, 6, 7, 8, 9, 10, 11, 12, 13, 14, 15],
        ),
    ] {
        is_pattern(&rt, word, want);
    }
}

#[test]
fn hosts_have_one_letter(rt: HostRuntime) {
    same(&rt, host_named(b"p"), Some(Host::P));
    same(&rt, host_named(b"s"), Some(Host::S));
    for word in ["", "P", "S", "ps", "pp", "q"] {
        same(&rt, host_named(word.as_bytes()), None);
    }
}

#[test]
fn names_begin_with_a_slash(rt: HostRuntime) {
    for (word, want) in [
        ("/v/a", true),
        ("/0", true),
        ("//", true),
        ("/aZ09._-/", true),
        ("/", false),
        ("", false),
        ("v/a", false),
        ("/v a", false),
        ("/v:a", false),
        ("/v@", false),
        ("/v[", false),
        ("/v`", false),
        ("/v{", false),
        ("/v\u{e9}", false),
        (
            "/23456789012345678901234567890123456789012345678901234567890123",
            true,
        ),
        (
            "/234567890123456789012345678901234567890123456789012345678901234",
            true,
        ),
        (
            "/2345678901234567890123456789012345678901234567890123456789012345",
            false,
        ),
    ] {
        same(&rt, is_volume_name(word.as_bytes()), want);
    }
}

#[test]
fn groups_have_names(rt: HostRuntime) {
    for (word, want) in [
        ("g", true),
        ("0123456789aZ_-zz", true),
        ("0123456789aZ_-zzz", false),
        ("", false),
        ("g!", false),
        ("g/h", false),
        ("g.h", false),
        ("g:h", false),
        ("/v/a", true),
        ("/", false),
        ("s:/v/a", true),
        ("s:/", false),
        ("s:g", false),
        ("s:", false),
        ("p:/v/a", false),
        ("s", true),
    ] {
        same(&rt, is_group_name(word.as_bytes()), want);
    }
}
