ghost use Rattle.pattern_types.specs.PlainPattern.{plain_pattern};
ghost use Rattle.pattern_types.specs.Soundness.{IsSoundPattern};

use flow_values::{Items, NoMemory, Text};
use match_comparisons::{holds, values};
use pattern_reader::read_pattern;
use pattern_types::{Leaf, MAX_STEPS, Path, Pattern, Step};
use std::alloc::Global;
use std::test::Fail;
use stix_bundles::{Bundle, read_bundle};
use stix_json::{Json, read_json};

/// A bundle of a list of lists at 0, an object that refers to another at 1, and the other at 2.
const BUNDLE: &str =
    "{\"type\":\"bundle\",\"id\":\"bundle--00000000-0000-4000-8000-000000000000\",\"objects\":[\
    {\"type\":\"x-lists\",\"id\":\"x-lists--00000000-0000-4000-8000-000000000001\",\"of\":[[1,2],3,[],[4]]},\
    {\"type\":\"x-way\",\"id\":\"x-way--00000000-0000-4000-8000-000000000002\",\
    \"to\":\"x-end--00000000-0000-4000-8000-000000000003\",\
    \"to_ref\":\"x-end--00000000-0000-4000-8000-000000000003\",\
    \"to_refs\":[\"x-end--00000000-0000-4000-8000-000000000003\",\"x-end--00000000-0000-4000-8000-000000000004\"]},\
    {\"type\":\"x-end\",\"id\":\"x-end--00000000-0000-4000-8000-000000000003\",\"n\":[5,6]}]}";

/// A path: `*` for each item, `+` for the second item, else a name.
fn path(alloc: Global, kind: &str, words: &[&str]) -> Result<Path, NoMemory> {
    let mut steps = Items::new(alloc);
    for word in words {
        steps.push(match *word {
            "*" => Step::Each,
            "+" => Step::Place(1),
            name => Step::Name(Text::from_text(alloc, name)?),
        })?;
    }
    let kind = Text::from_text(alloc, kind)?;
    Ok(Path { kind, steps })
}

/// The integers that a path selects as the digits of a number, with a 9 for each other value.
fn told(bundle: &Bundle, root: u32, path: &Path) -> i64 {
    if path.steps.len() > MAX_STEPS {
        return -1;
    }
    let mut told = 0i64;
    for value in values(bundle, root, path) {
        let digit = match value {
            Json::Integer(n) => *n,
            Json::Bool(_) | Json::String(_) | Json::Array(_) | Json::Object(_) => 9,
        };
        told = told.wrapping_mul(10).wrapping_add(digit);
    }
    told
}

#[test]
fn selects_in_list_order(rt: HostRuntime) -> Result<(), Fail> {
    let alloc = rt.alloc();
    let bundle = read_bundle(alloc, read_json(alloc, BUNDLE.as_bytes())?)?;
    for (root, kind, words, wanted) in [
        (0, "x-lists", ["of", "*", "*"].as_slice(), 124),
        (0, "x-lists", ["of", "*"].as_slice(), 9399),
        (0, "x-lists", ["of", "*", "+"].as_slice(), 2),
        (0, "x-way", ["of", "*"].as_slice(), 0),
        (0, "x-lists", ["off"].as_slice(), 0),
        (1, "x-way", ["to_ref", "n", "*"].as_slice(), 56),
        (1, "x-way", ["to_refs", "*", "n", "+"].as_slice(), 6),
        (1, "x-way", ["to", "n", "*"].as_slice(), 0),
        (1, "x-way", ["to_ref"].as_slice(), 9),
        (3, "x-way", ["to_ref"].as_slice(), 0),
    ] {
        let path = path(alloc, kind, words)?;
        assert_eq!(rt; told(&bundle, root, &path), wanted);
    }
    Ok(())
}

/// Whether a pattern of one comparison holds for the object at a position.
fn pattern_holds(
    alloc: Global,
    pattern: &Pattern,
    bundle: &Bundle,
    root: u32,
) -> Result<bool, NoMemory>
    requires { IsSoundPattern (plain_pattern pattern.now) }
{
    match pattern {
        Pattern::Leaf(Leaf::Test(test)) => holds(alloc, test, bundle, root),
        _ => Ok(false),
    }
}

#[test]
fn a_comparison_holds_for_an_object(rt: HostRuntime) -> Result<(), Fail> {
    let alloc = rt.alloc();
    let bundle = read_bundle(alloc, read_json(alloc, BUNDLE.as_bytes())?)?;
    let pattern = read_pattern(alloc, "[x-way:to_ref.n[*] = 6]")?;
    let first = pattern_holds(alloc, &pattern, &bundle, 1);
    let second = pattern_holds(alloc, &pattern, &bundle, 2);
    drop(pattern);
    assert_eq!(rt; (first?, second?), (true, false));
    Ok(())
}
