//! Two licensees and a word that the second of them made.

ghost use Rattle.std.specs.Prelude.{◌≡◌, ◌<◌, IfOk};

use desk_terms::{Accused, Findings};
use gf2m::Gf;
use lic_register::Register;
use lists::{Items, Memory, Text};
use report_check::{Verdict, check};
use rs_code::{Code, Word};
use std::alloc::Global;
use std::marker::Brand;
use std::sync::ledger::Blank;
use std::test::Fail;
use steps::{Ledger, LookLedger, ProductLedger, Steps};

/// The register with one more licensee.
fn enrolled(mut register: Register, name: &str) -> Result<Register, Memory>
    ensures bits { IfOk result (λ r. r.bits ≡ register.bits) }
    ensures dimension { IfOk result (λ r. r.dimension ≡ register.dimension) }
{
    match register.enrol(name) {
        Ok(_) => Ok(register),
        Err(_) => Err(Memory),
    }
}

/// Two licensees with the messages 0 and 1.
fn pair(alloc: Global) -> Result<Register, Memory>
    ensures bits { IfOk result (λ r. r.bits ≡ 4) }
    ensures dimension { IfOk result (λ r. r.dimension ≡ 2) }
{
    match Register::new(alloc, 4, 2, 1, 0) {
        Ok(register) => enrolled(enrolled(register, "lic0")?, "lic1"),
        Err(_) => Err(Memory),
    }
}

/// Both places are the second licensee's, who is in the list with these places, or is not in it.
fn verdict<P: Ledger, Q: Ledger>(
    host: &HostRuntime,
    places: Option<&[u16]>,
    prods: Blank,
    looks: Blank,
) -> Result<Verdict, Memory>
    requires prods_name { prods.name ≡ P.name }
    requires prods_parts { prods.parts ≡ P.parts }
    requires prods_some { 0 < P.parts }
    requires looks_name { looks.name ≡ Q.name }
    requires looks_parts { looks.parts ≡ Q.parts }
    requires looks_some { 0 < Q.parts }
{
    let alloc = host.alloc();
    let mut accused = Vec::new(alloc);
    if let Some(places) = places {
        accused.push(Accused {
            serial: 1,
            name: Text::of(alloc, "lic1")?,
            places: Items::over(places.to_vec(alloc)?),
        })?;
    }
    let findings = Findings {
        readable: 2,
        bound: 1,
        accused: Items::over(accused),
    };
    let register = pair(alloc)?;
    let word = Word::of(alloc, &[Some(1), Some(1)])?;
    let code = Code::<Gf<4>>::new(2, 2).unwrap();
    let mut prods = Steps::<ProductLedger<P>>::new(host, prods);
    let mut looks = Steps::<LookLedger<Q>>::new(host, looks);
    Ok(check(&findings, &register, &code, &word, &mut prods, &mut looks))
}

#[test]
fn lists_are_judged(rt: HostRuntime) -> Result<(), Fail> {
    let alloc = rt.alloc();
    let right = verdict::<Brand, Brand>(&rt, Some(&[0, 1]), Blank::new(1), Blank::new(1))?;
    assert_eq!(rt; right, Verdict::Right);
    let wrong = verdict::<Brand, Brand>(&rt, Some(&[0]), Blank::new(1), Blank::new(1))?;
    assert_eq!(rt; wrong, Verdict::WrongPlaces(0));
    let missing = verdict::<Brand, Brand>(&rt, None, Blank::new(1), Blank::new(1))?;
    assert_eq!(rt; missing, Verdict::Absent(1));
    Ok(())
}
