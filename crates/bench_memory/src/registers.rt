//! `enrol` and `withdraw`.

use crate::trial::Trial;
use lic_register::Register;
use std::alloc::Global;
use steps::{Looks, Steps};

/// A register of three licensees, of which the second is withdrawn.
const TEXT: &[u8] =
    b"register 2\nm 4\nk 2\na 77\nb 150\nactive lic0\nwithdrawn lic1\nactive lic2\n";

/// Enrols a fourth licensee.
pub(crate) fn enrol_tried<Q: Looks>(alloc: Global, looks: &mut Steps<Q>) -> Trial {
    let (Ok(mut register), Ok(copy)) = (Register::read(alloc, TEXT), Register::read(alloc, TEXT))
    else {
        return Trial::Unprepared;
    };
    if register.enrol("lic3").is_ok() {
        return Trial::Done;
    }
    let is_same = are_same(&register, &copy, looks);
    Trial::kept(is_same && register.enrol("lic3").is_ok())
}

/// Withdraws the third licensee.
pub(crate) fn withdraw_tried<Q: Looks>(alloc: Global, looks: &mut Steps<Q>) -> Trial {
    let (Ok(mut register), Ok(copy)) = (Register::read(alloc, TEXT), Register::read(alloc, TEXT))
    else {
        return Trial::Unprepared;
    };
    if register.withdraw("lic2", looks).is_ok() {
        return Trial::Done;
    }
    let is_same = are_same(&register, &copy, looks);
    Trial::kept(is_same && register.withdraw("lic2", looks).is_ok())
}

/// Whether two registers have one text.
fn are_same<Q: Looks>(one: &Register, other: &Register, looks: &mut Steps<Q>) -> bool {
    match (one.write(looks), other.write(looks)) {
        (Ok(one), Ok(other)) => one.as_slice() == other.as_slice(),
        _ => false,
    }
}
