//! Requests are independent of how their bytes are split.

use http_messages::{Frame, Method, Request, Session};
use std::alloc::Global;
use std::process::Abort;

fn session(rt: &impl Abort, alloc: Global, max_body: u64) -> Session {
    Session::new(alloc, max_body).expect(rt, "room")
}

const TWO_REQUESTS: &[u8] =
    b"\r\nPOST /x?y HTTP/1.1\r\nHost: a\r\nAccept: b\r\nContent-Type: d\r\naccept: c\r\nConnection: x , CLOSE\r\nContent-Length: 3\r\n\r\nabcDELETE / HTTP/1.0\r\n\r\n";

/// Feeds some bytes, and counts the requests that are complete.
fn count(rt: &impl Abort, session: &mut Session, piece: &[u8]) -> u64 {
    session.feed(piece).expect(rt, "room");
    let mut requests = 0u64;
    for _ in 0..3 {
        match session.next_request().expect(rt, "room") {
            Frame::Request(request) => {
                requests = requests.saturating_add(1);
                is_one_of_the_two(rt, &request);
            }
            Frame::More => break,
            Frame::Refused(_) => panic!(rt; "refused"),
        }
    }
    requests
}

fn is_one_of_the_two(rt: &impl Abort, request: &Request) {
    assert!(rt; request.close);
    if request.method == Method::Delete {
        return;
    }
    assert_eq!(rt; request.method, Method::Post);
    assert_eq!(rt; request.target.as_str(), "/x?y");
    assert_eq!(rt; request.body.as_slice(), b"abc".as_slice());
    match &request.accept {
        Some(accept) => assert_eq!(rt; accept.as_str(), "b, c"),
        None => panic!(rt; "accept"),
    }
    match &request.content_type {
        Some(kind) => assert_eq!(rt; kind.as_str(), "d"),
        None => panic!(rt; "content type"),
    }
}

#[test]
fn cut_in_three(rt: HostRuntime) {
    for first in 0..TWO_REQUESTS.len() {
        let (front, rest) = TWO_REQUESTS.split_at(first);
        for second in 0..rest.len() {
            let (middle, end) = rest.split_at(second);
            let mut session = session(&rt, rt.alloc(), 10);
            let mut requests = 0u64;
            for piece in [front, middle, end] {
                requests = requests.saturating_add(count(&rt, &mut session, piece));
            }
            assert_eq!(rt; requests, 2);
        }
    }
}
