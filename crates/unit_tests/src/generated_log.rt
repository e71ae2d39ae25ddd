//! The generated log, of which `make` writes numbers alone.

use flow_edges::Source;
use match_generator::GeneratedLog;
use std::test::Fail;

#[test]
fn the_first_lines_of_seed_0(rt: HostRuntime) -> Result<(), Fail> {
    let mut wanted = String::new(rt.alloc());
    for (time, login) in [
        ("2021-01-01T00:00:00Z", "u0"),
        ("2021-01-01T00:00:08Z", "u1"),
        ("2021-01-01T00:00:16Z", "u3"),
        ("2021-01-01T00:00:21Z", "u1"),
        ("2021-01-01T00:00:23Z", "u2"),
    ] {
        let line = format!(in rt.alloc();
            "{{\"type\":\"bundle\",\"id\":\"bundle--00000000-0000-4000-8000-000000000001\",\"objects\":[{{\"type\":\"observed-data\",\"spec_version\":\"2.1\",\"id\":\"observed-data--00000000-0000-4000-8000-000000000001\",\"created\":\"2021-06-10T00:00:00.000Z\",\"modified\":\"2021-06-10T00:00:00.000Z\",\"first_observed\":\"{time}\",\"last_observed\":\"{time}\",\"number_observed\":1,\"object_refs\":[\"user-account--00000000-0000-4000-8000-000000000001\"]}},{{\"type\":\"user-account\",\"id\":\"user-account--00000000-0000-4000-8000-000000000001\",\"account_login\":\"{login}\"}}]}}\n"
        )?;
        wanted.push_str(line.as_str())?;
    }
    let mut log = GeneratedLog::new(0, 5);
    let mut given = Vec::new(rt.alloc());
    let mut buffer = [0; 7];
    // A line of 533 bytes takes 77 reads; the last one of all finds the end.
    for _ in 0..5 * 77 + 1 {
        let count = log.read(&mut buffer)?;
        given.extend_from_slice(&buffer[..count])?;
    }
    assert_eq!(rt; given.as_slice(), wanted.as_bytes());
    assert_eq!(rt; log.read(&mut buffer), Ok(0));
    Ok(())
}
