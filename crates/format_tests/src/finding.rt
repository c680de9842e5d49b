//! Licensees who are found by their messages.

ghost use Rattle.std.specs.Prelude.{◌≡◌, ◌<◌};

use code_terms::Message;
use lic_register::Register;
use std::marker::Brand;
use std::process::Abort;
use std::sync::ledger::Blank;
use std::test::Fail;
use steps::{Ledger, LookLedger, Looks, Steps};

/// Three licensees with the greatest numbers but one: the messages are 2^104 - 1, 2^104 - 4 and 2^104 - 7.
const THREE: &[u8] =
    b"register 1\nm 8\nk 13\na 20282409603651670423947251286013\nb 20282409603651670423947251286015\nlic0\nlic1\nlic2\n";

/// Looks messages up, and compares the serials.
fn finds<Q: Ledger>(rt: &impl Abort, host: &HostRuntime, blank: Blank) -> Result<(), Fail>
    requires name { blank.name ≡ Q.name }
    requires parts { blank.parts ≡ Q.parts }
    requires some { 0 < Q.parts }
{
    let alloc = host.alloc();
    let mut looks = Steps::<LookLedger<Q>>::new(host, blank);
    let register = Register::read(alloc, THREE)?;
    let (serial, licensee) = register
        .by_message(Message::of((1 << 104) - 7), &mut looks)
        .ok_or("nobody")?;
    assert_eq!(rt; serial, 2);
    assert_eq!(rt; licensee.name, "lic2");
    assert!(rt; licensee.active);
    // the message of the next serial, one that nobody has, and one past the last message
    for number in [(1 << 104) - 10, 0, 1 << 104] {
        assert!(rt;
            register
                .by_message(Message::of(number), &mut looks)
                .is_none()
        );
    }
    Ok(())
}

#[test]
fn finds_by_message(rt: HostRuntime) -> Result<(), Fail> {
    finds::<Brand>(&rt, &rt, Blank::new(1))
}
