//! Tests of the matcher.
use super::is_like;
use std::alloc::{AllocError, Global};
use std::test::Fail;

// The character, so many times.
fn repeated(alloc: Global, character: char, count: u32) -> Result<String, AllocError> {
    let mut text = String::new(alloc);
    for _ in 0..count {
        text.push(character)?;
    }
    Ok(text)
}

#[test]
fn texts_are_like_patterns(rt: HostRuntime) {
    for (text, pattern, expected) in [
        ("abc", "a%", true),
        ("abc", "_b_", true),
        ("a", "a_", false),
        ("é", "_", true),
        ("😀x", "_x", true),
        ("a\\b", "a\\b", true),
        ("100%", "100\\%", false),
        ("", "%", true),
        ("", "_", false),
        ("", "", true),
        ("a", "", false),
        ("ABC", "abc", false),
        ("aXbXc", "%X%X%", true),
        ("aXbc", "%X%X%", false),
        ("abc", "%c", true),
        ("aab", "%ab", true),
        ("abab", "%ab", true),
        ("aaa", "%a_", true),
        ("mississippi", "m%iss%ip%i", true),
        ("mississippi", "m%issip%pi_", false),
        ("%", "_", true),
        ("a%b", "a%%b", true),
    ] {
        let found = is_like(text, pattern);
        assert_eq!(rt; found, expected, "{text} like {pattern}");
    }
}

// A matcher that tries every place of each % would take some 10^15 steps here.
#[test]
fn many_places_are_not_tried(rt: HostRuntime) -> Result<(), Fail> {
    let text = repeated(rt.alloc(), 'a', 200)?;
    let found = is_like(text.as_str(), "%a%a%a%a%a%a%a%a%b");
    assert!(rt; !found);
    Ok(())
}
