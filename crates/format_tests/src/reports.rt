//! Reports written, and read as they were written and in other spellings.

use desk_terms::{Accused, Findings};
use lists::{Items, Text};
use std::alloc::Global;
use std::process::Abort;
use std::test::Fail;
use trace_report::{ReportError, report_read, report_text};

const ONE: &[u8] =
    b"{\"accused\":[{\"name\":\"lic5\",\"places\":[0,1],\"serial\":5}],\"bound\":1,\"readable\":2}\n";

/// Other white space, another order, a key twice, and keys that nobody asked for.
const SPELLED: &[u8] =
    b" { \"readable\" : 9, \"readable\":\n2, \"accused\":[ {\"serial\":5, \"n\": null, \"name\":\"li\\u00635\", \"places\":[0, 1]} ], \"bound\":1, \"x\": [1.5] }";

/// Compares the findings with those of one licensee.
fn is_one(rt: &impl Abort, findings: &Findings) -> Result<(), Fail> {
    assert_eq!(rt; (findings.readable, findings.bound), (2, 1));
    assert_eq!(rt; findings.accused.len(), 1);
    let first = findings.accused.get(0).ok_or("nobody")?;
    assert_eq!(rt; first.serial, 5);
    assert_eq!(rt; first.name.as_str(), "lic5");
    assert!(rt; first.places.as_slice() == [0, 1].as_slice());
    Ok(())
}

/// Why the bytes are no report.
fn refusal(alloc: Global, bytes: &[u8]) -> Option<ReportError> {
    report_read(alloc, bytes).err()
}

#[test]
fn writes_one(rt: HostRuntime) -> Result<(), Fail> {
    let alloc = rt.alloc();
    let mut accused = Vec::new(alloc);
    accused.push(Accused {
        serial: 5,
        name: Text::of(alloc, "lic5")?,
        places: Items::over([0u16, 1].to_vec(alloc)?),
    })?;
    let findings = Findings {
        readable: 2,
        bound: 1,
        accused: Items::over(accused),
    };
    assert!(rt; report_text(alloc, &findings)?.as_slice() == ONE);
    Ok(())
}

#[test]
fn reads_every_spelling(rt: HostRuntime) -> Result<(), Fail> {
    let alloc = rt.alloc();
    is_one(&rt, &report_read(alloc, ONE)?)?;
    is_one(&rt, &report_read(alloc, SPELLED)?)?;
    Ok(())
}

#[test]
fn refuses_other_values(rt: HostRuntime) -> Result<(), Fail> {
    let others: [&[u8]; 12] = [
        b"",
        b"{}",
        b"[]",
        b"\xff",
        b"{\"accused\":[],\"bound\":1,\"readable\":2",
        b"{\"accused\":[],\"bound\":1.0,\"readable\":2}",
        b"{\"accused\":[],\"bound\":1,\"readable\":-0}",
        b"{\"accused\":[],\"bound\":4294967296,\"readable\":2}",
        b"{\"accused\":[],\"bound\":1}",
        b"{\"accused\":[{\"name\":\"a b\",\"places\":[],\"serial\":0}],\"bound\":1,\"readable\":2}",
        b"{\"accused\":[{\"name\":\"a\",\"places\":[65536],\"serial\":0}],\"bound\":1,\"readable\":2}",
        b"{\"accused\":[{\"name\":\"a\",\"places\":[1e1],\"serial\":0}],\"bound\":1,\"readable\":2}",
    ];
    for bytes in others {
        assert_eq!(rt; refusal(rt.alloc(), bytes), Some(ReportError::NotReport));
    }
    Ok(())
}
