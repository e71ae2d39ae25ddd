use std::test::Fail;
use stix_times::TimeRefusal;

#[test]
fn refusals_in_words(rt: HostRuntime) -> Result<(), Fail> {
    let rows = [
        (
            TimeRefusal::Shape { at: 6 },
            "not a timestamp after 6 bytes",
        ),
        (TimeRefusal::NoSuchDay, "the month lacks the day"),
        (TimeRefusal::TooFine, "more than nine digits of a second"),
        (
            TimeRefusal::NotMillis,
            "not three to six digits of a second",
        ),
    ];
    for (refusal, words) in rows {
        let shown = format!(in rt.alloc(); "{refusal}")?;
        assert_eq!(rt; shown.as_str(), words);
    }
    Ok(())
}
