use super::*;
use std::alloc::{AllocError, Global};

/// Whether a fault and a limit read as documented.
fn are_told(alloc: Global) -> bool {
    let fault = Fault {
        kind: FaultKind::DataEnd,
        nal: 2,
        ctu: Some(0),
    };
    let limit = Limit {
        kind: LimitKind::Tiles,
        nal: 4_294_967_295,
    };
    is_text(fault.to_string(alloc), "fault 20 DataEnd nal 2 ctu 0")
        && is_text(limit.to_string(alloc), "limit 5 Tiles nal 4294967295")
}

fn is_text(found: Result<String, AllocError>, wanted: &str) -> bool {
    match found {
        Ok(text) => text.as_str() == wanted,
        Err(AllocError) => false,
    }
}

#[test]
fn answers_read_as_documented(rt: HostRuntime) {
    assert!(rt; are_told(rt.alloc()));
}
