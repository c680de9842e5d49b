//! Each public call on its happy path, and the edges of the rules.

use lists::Text;
use std::test::Fail;
use texts::{is_name, is_plain, number_text, read_number};

#[test]
fn reads_only_the_one_spelling_of_a_number(rt: HostRuntime) {
    let most = "340282366920938463463374607431768211455";
    let past = "340282366920938463463374607431768211456";
    for (text, want) in [
        ("0", Some(0)),
        ("7", Some(7)),
        ("120", Some(120)),
        (most, Some(u128::MAX)),
        (past, None),
        ("00", None),
        ("007", None),
        ("", None),
        ("+1", None),
        ("-1", None),
        ("1 ", None),
    ] {
        assert_eq!(rt; read_number(text), want, "{text}");
    }
}

#[test]
fn spells_numbers_and_keeps_text(rt: HostRuntime) -> Result<(), Fail> {
    assert_eq!(rt; number_text(rt.alloc(), 120)?.as_str(), "120");
    assert_eq!(rt; number_text(rt.alloc(), 0)?.as_str(), "0");
    assert_eq!(rt;
        number_text(rt.alloc(), u128::MAX)?.as_str(),
        "340282366920938463463374607431768211455"
    );
    assert_eq!(rt; Text::of(rt.alloc(), "s0.ts")?.as_str(), "s0.ts");
    Ok(())
}

#[test]
fn tells_names_from_other_text(rt: HostRuntime) {
    for (text, name, plain) in [
        ("lic0", true, true),
        ("A.b_c-9", true, true),
        ("a/b", true, false),
        ("a b", true, false),
        ("\u{e9}", true, false),
        ("", false, false),
        ("a\n", false, false),
        ("\u{1f}", false, false),
        ("\u{7f}", false, false),
    ] {
        assert_eq!(rt; is_name(text), name, "{text:?} as a name");
        assert_eq!(rt; is_plain(text), plain, "{text:?} as a plain name");
    }
}

#[test]
fn bounds_the_length_of_names(rt: HostRuntime) -> Result<(), Fail> {
    for (length, name, plain) in [
        (64, true, true),
        (65, true, false),
        (1024, true, false),
        (1025, false, false),
    ] {
        let mut text = String::new(rt.alloc());
        for _ in 0..length {
            text.push('a')?;
        }
        assert_eq!(rt; is_name(text.as_str()), name, "{length}");
        assert_eq!(rt; is_plain(text.as_str()), plain, "{length}");
    }
    Ok(())
}
