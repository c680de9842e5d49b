//! Registers, texts and faults that are known from elsewhere.

ghost use Rattle.std.specs.Prelude.{◌≡◌, ◌<◌};

use lic_register::{
    EnrolError, Register, RegisterError, RegisterFault, RegisterKind, RegisterReadError,
    WithdrawError,
};
use std::alloc::Global;
use std::marker::Brand;
use std::process::Abort;
use std::sync::ledger::Blank;
use std::test::Fail;
use steps::{Ledger, LookLedger, Steps};

const TWENTY: &[u8] =
    b"register 1\nm 4\nk 2\na 1\nb 0\nlic0\nlic1\nlic2\nlic3\nlic4\nlic5\nlic6\nlic7\nlic8\nlic9\nlic10\nlic11\nlic12\nlic13\nlic14\nlic15\nlic16\nlic17\nlic18\nlic19\n";

const FOUR: &[u8] =
    b"register 2\nm 4\nk 2\na 1\nb 0\nactive lic0\nwithdrawn lic1\nactive lic2\nactive lic3\n";

const THEN: &[u8] =
    b"register 2\nm 4\nk 2\na 1\nb 0\nactive lic0\nwithdrawn lic1\nwithdrawn lic2\nactive lic3\n";

/// Twenty licensees whose messages are their serials.
fn reads_and_looks<Q: Ledger>(rt: &impl Abort, host: &HostRuntime, blank: Blank) -> Result<(), Fail>
    requires name { blank.name ≡ Q.name }
    requires parts { blank.parts ≡ Q.parts }
    requires some { 0 < Q.parts }
{
    let alloc = host.alloc();
    let mut looks = Steps::<LookLedger<Q>>::new(host, blank);
    let register = Register::read(alloc, TWENTY)?;
    assert_eq!(rt;
        (register.bits(), register.dimension(), register.len()),
        (4, 2, 20)
    );
    let message = register.message_of(16, &mut looks);
    assert_eq!(rt; message.ok_or("no serial 16")?.number(), 16);
    assert!(rt; register.message_of(20, &mut looks).is_none());
    let licensee = register.entry(16, &mut looks).ok_or("no serial 16")?;
    assert_eq!(rt; licensee.name, "lic16");
    assert!(rt; licensee.active);
    assert!(rt; register.entry(20, &mut looks).is_none());
    assert_eq!(rt; register.serial_of("lic19", &mut looks), Some(19));
    assert_eq!(rt; register.serial_of("lic20", &mut looks), None);
    Ok(())
}

#[test]
fn reads_the_older_text(rt: HostRuntime) -> Result<(), Fail> {
    reads_and_looks::<Brand>(&rt, &rt, Blank::new(1))
}

/// Four licensees, of whom the second is withdrawn at first, and then the third.
fn withdraws<Q: Ledger>(rt: &impl Abort, host: &HostRuntime, blank: Blank) -> Result<(), Fail>
    requires name { blank.name ≡ Q.name }
    requires parts { blank.parts ≡ Q.parts }
    requires some { 0 < Q.parts }
{
    let alloc = host.alloc();
    let mut looks = Steps::<LookLedger<Q>>::new(host, blank);
    let mut register = Register::read(alloc, FOUR)?;
    assert!(rt; register.write(&mut looks)?.as_slice() == FOUR);
    assert_eq!(rt;
        register.withdraw("lic4", &mut looks),
        Err(WithdrawError::Unknown)
    );
    assert_eq!(rt;
        register.withdraw("lic1", &mut looks),
        Err(WithdrawError::Already(1))
    );
    assert_eq!(rt; register.withdraw("lic2", &mut looks), Ok(2));
    assert_eq!(rt; register.enrol("lic2"), Err(EnrolError::NameTaken(2)));
    assert!(rt; register.write(&mut looks)?.as_slice() == THEN);
    Ok(())
}

#[test]
fn reads_what_it_writes(rt: HostRuntime) -> Result<(), Fail> {
    withdraws::<Brand>(&rt, &rt, Blank::new(1))
}

/// The message of serial 7 is 12345 times 7 and 678, taken by 2^15.
fn gives_messages<Q: Ledger>(rt: &impl Abort, host: &HostRuntime, blank: Blank) -> Result<(), Fail>
    requires name { blank.name ≡ Q.name }
    requires parts { blank.parts ≡ Q.parts }
    requires some { 0 < Q.parts }
{
    let alloc = host.alloc();
    let mut looks = Steps::<LookLedger<Q>>::new(host, blank);
    let mut register = Register::new(alloc, 5, 3, 12345, 678)?;
    for name in ["a", "b", "c", "d", "e", "f", "g", "h"] {
        register.enrol(name)?;
    }
    let message = register.message_of(7, &mut looks);
    assert_eq!(rt; message.ok_or("no serial 7")?.number(), 21557);
    Ok(())
}

#[test]
fn spreads_the_messages(rt: HostRuntime) -> Result<(), Fail> {
    gives_messages::<Brand>(&rt, &rt, Blank::new(1))
}

#[test]
fn refuses_numbers(rt: HostRuntime) {
    let refused = [
        (3, 2, 1, 0, RegisterError::BadM),
        (9, 1, 2, 256, RegisterError::BadM),
        (4, 1, 2, 256, RegisterError::BadK),
        (4, 14, 1, 0, RegisterError::BadK),
        (4, 2, 2, 256, RegisterError::BadMultiplier),
        (4, 2, 257, 0, RegisterError::BadMultiplier),
        (4, 2, 255, 256, RegisterError::BadShift),
    ];
    for (m, k, a, b, error) in refused {
        let answer = Register::new(rt.alloc(), m, k, a, b).err();
        assert_eq!(rt; answer, Some(error), "at {m} {k} {a} {b}");
    }
    assert!(rt; Register::new(rt.alloc(), 8, 13, 1, (1 << 104) - 1).is_ok());
}

#[test]
fn refuses_names(rt: HostRuntime) -> Result<(), Fail> {
    let mut register = Register::new(rt.alloc(), 4, 2, 1, 0)?;
    assert_eq!(rt; register.enrol("a/b"), Err(EnrolError::BadName));
    for serial in 0..256u32 {
        let name = format!(in rt.alloc(); "lic{serial}")?;
        assert_eq!(rt; register.enrol(name.as_str()), Ok(serial));
    }
    assert_eq!(rt; register.enrol("a/b"), Err(EnrolError::BadName));
    assert_eq!(rt; register.enrol("lic0"), Err(EnrolError::NameTaken(0)));
    assert_eq!(rt; register.enrol("lic256"), Err(EnrolError::Full(256)));
    Ok(())
}

#[test]
fn names_the_first_fault(rt: HostRuntime) -> Result<(), Fail> {
    let faults: [(&[u8], u32, RegisterKind); 30] = [
        (b"", 1, RegisterKind::Header),
        (b"register 1", 1, RegisterKind::Ending),
        (b"register 3\n", 1, RegisterKind::Header),
        (b"register 2\n", 2, RegisterKind::Header),
        (b"register 2\nm 4\nk 2\na 1\n", 5, RegisterKind::Header),
        (
            b"register 2\nm 4\nk 2\na 1\nb 0\nlic0\n",
            6,
            RegisterKind::BadStatus,
        ),
        (
            b"register 2\nm 4\nk 2\na 1\nb 0\nactive lic0\nactive  lic1\n",
            7,
            RegisterKind::BadName,
        ),
        (
            b"register 2\nm 4\nk 2\na 1\nb 0\nactive a\nwithdrawn a\n",
            7,
            RegisterKind::NameTaken,
        ),
        (
            b"register 2\nm 4\nk 2\na 1\nb 0\nactive\n",
            6,
            RegisterKind::BadStatus,
        ),
        (
            b"register 2\nm 4\nk 2\na 1\nb 0\nactive \n",
            6,
            RegisterKind::BadName,
        ),
        (
            b"register 2\nm 4\nk 2\na 1\nb 0\nactive \xff\n",
            6,
            RegisterKind::BadName,
        ),
        (b"register 1\n", 2, RegisterKind::Header),
        (b"register 1\nm 9", 2, RegisterKind::Ending),
        (b"register 1\nm 9\n", 2, RegisterKind::BadM),
        (b"register 1\nm 04\n", 2, RegisterKind::Header),
        (b"register 1\nm 4294967300\n", 2, RegisterKind::BadM),
        (
            b"register 1\nm 340282366920938463463374607431768211456\n",
            2,
            RegisterKind::Header,
        ),
        (b"register 1\nm 4\n", 3, RegisterKind::Header),
        (b"register 1\nm 4\nm 2\n", 3, RegisterKind::Header),
        (b"register 1\nm 4\nk 14\n", 3, RegisterKind::BadK),
        (
            b"register 1\nm 4\nk 2\na 2\n",
            4,
            RegisterKind::BadMultiplier,
        ),
        (
            b"register 1\nm 4\nk 2\na 257\n",
            4,
            RegisterKind::BadMultiplier,
        ),
        (
            b"register 1\nm 4\nk 2\na 1\nb 256\n",
            5,
            RegisterKind::BadShift,
        ),
        (
            b"register 1\nm 4\nk 2\na 1\nb 0\n\n",
            6,
            RegisterKind::BadName,
        ),
        (
            b"register 1\nm 4\nk 2\na 1\nb 0\na\nb c\n",
            7,
            RegisterKind::BadName,
        ),
        (
            b"register 1\nm 4\nk 2\na 1\nb 0\n\xff\n",
            6,
            RegisterKind::BadName,
        ),
        (
            b"register 1\nm 4\nk 2\na 1\nb 0\na\r\n",
            6,
            RegisterKind::BadName,
        ),
        (
            b"register 1\nm 4\nk 2\na 1\nb 0\na\nb\na\nb c\n",
            8,
            RegisterKind::NameTaken,
        ),
        (
            b"register 1\nm 4\nk 2\na 1\nb 0\na\na",
            7,
            RegisterKind::Ending,
        ),
        (b"register 1\r\n", 1, RegisterKind::Header),
    ];
    for (bytes, line, kind) in faults {
        let answer = Register::read(rt.alloc(), bytes).err();
        let fault = RegisterFault { line, kind };
        assert_eq!(rt; answer, Some(RegisterReadError::NotRegister(fault)));
    }
    Ok(())
}

#[test]
fn finds_one_name_too_many(rt: HostRuntime) -> Result<(), Fail> {
    let mut text = Vec::from_slice(rt.alloc(), b"register 1\nm 4\nk 2\na 1\nb 0\n")?;
    for serial in 0..257u32 {
        let line = format!(in rt.alloc(); "lic{serial}\n")?;
        text.extend_from_slice(line.as_str().as_bytes())?;
    }
    let answer = Register::read(rt.alloc(), text.as_slice()).err();
    let fault = RegisterFault {
        line: 262,
        kind: RegisterKind::Full,
    };
    assert_eq!(rt; answer, Some(RegisterReadError::NotRegister(fault)));
    Ok(())
}

/// What a reader tells of a text that ends behind this line: up to the fifth the next line is missing.
fn behind(number: u32) -> (u32, Option<RegisterKind>) {
    let kind = if number < 5 {
        Some(RegisterKind::Header)
    } else {
        None
    };
    (number.saturating_add(1), kind)
}

/// The line and the kind of a fault; or the line behind the last licensee.
fn told(answer: &Result<Register, RegisterReadError>) -> (u32, Option<RegisterKind>) {
    match answer {
        Ok(register) => (register.len() + 6, None),
        Err(RegisterReadError::NotRegister(fault)) => (fault.line, Some(fault.kind)),
        Err(RegisterReadError::Memory) => (0, None),
    }
}

/// A text of these lines, cut within each of them and behind each.
fn cuts(rt: &impl Abort, alloc: Global, lines: [&str; 8]) -> Result<(), Fail> {
    let mut text = Vec::new(alloc);
    let mut number = 0u32;
    for line in lines {
        number = number.saturating_add(1);
        text.extend_from_slice(line.as_bytes())?;
        let within = Register::read(alloc, text.as_slice());
        assert_eq!(rt; told(&within), (number, Some(RegisterKind::Ending)));
        text.push(b'\n')?;
        let whole = Register::read(alloc, text.as_slice());
        assert_eq!(rt; told(&whole), behind(number));
    }
    Ok(())
}

#[test]
fn tells_where_a_text_is_cut(rt: HostRuntime) -> Result<(), Fail> {
    let older = [
        "register 1",
        "m 4",
        "k 2",
        "a 1",
        "b 0",
        "lic0",
        "lic1",
        "lic2",
    ];
    let newer = [
        "register 2",
        "m 4",
        "k 2",
        "a 1",
        "b 0",
        "active lic0",
        "withdrawn lic1",
        "active a",
    ];
    cuts(&rt, rt.alloc(), older)?;
    cuts(&rt, rt.alloc(), newer)
}
