//! Samples whose numbers were worked out apart, from words of ChaCha20 and a plain count of agreements.

ghost use Rattle.std.specs.Prelude.{◌≡◌, ◌<◌};

use gs_koetter::Koetter;
use sample_maker::{SampleError, sample};
use std::alloc::Global;
use std::marker::Brand;
use std::process::Abort;
use std::sync::ledger::Blank;
use std::test::Fail;
use steps::{Ledger, LookLedger, Looks, ProductLedger, Products, Steps};

fn lines<P: Ledger, Q: Ledger>(
    rt: &impl Abort,
    host: &HostRuntime,
    prods: Blank,
    looks: Blank,
) -> Result<(), Fail>
    requires prods_name { prods.name ≡ P.name }
    requires prods_parts { prods.parts ≡ P.parts }
    requires prods_some { 0 < P.parts }
    requires looks_name { looks.name ≡ Q.name }
    requires looks_parts { looks.parts ≡ Q.parts }
    requires looks_some { 0 < Q.parts }
{
    let alloc = host.alloc();
    let mut prods = Steps::<ProductLedger<P>>::new(host, prods);
    let mut looks = Steps::<LookLedger<Q>>::new(host, looks);
    let seventh = line(alloc, 7, &mut prods, &mut looks)?;
    assert!(rt;
        seventh.as_slice()
            == b"sample 7 licensees 1000 places 64 readable 30 bound 3 coalition 796 414 535 accused 414 535 796\n".as_slice()
    );
    let first = line(alloc, 0, &mut prods, &mut looks)?;
    assert!(rt;
        first.as_slice()
            == b"sample 0 licensees 1000 places 64 readable 30 bound 3 coalition 152 331 93 accused 152 331\n".as_slice()
    );
    let last = line(alloc, u64::MAX, &mut prods, &mut looks)?;
    assert!(rt;
        last.as_slice()
            == b"sample 18446744073709551615 licensees 1000 places 64 readable 30 bound 3 coalition 332 706 633 accused 332 633 706\n".as_slice()
    );
    Ok(())
}

/// The line of a number, by curves that are built point by point.
fn line<P: Products, Q: Looks>(
    alloc: Global,
    number: u64,
    prods: &mut Steps<P>,
    looks: &mut Steps<Q>,
) -> Result<Vec<u8>, Fail> {
    match sample(alloc, number, &Koetter, prods, looks) {
        Ok(text) => Ok(text),
        Err(SampleError::Memory) => Err("no memory")?,
        Err(SampleError::Duplicate { .. }) => Err("one digest twice")?,
    }
}

#[test]
fn lines_that_were_worked_out_apart(rt: HostRuntime) -> Result<(), Fail> {
    lines::<Brand, Brand>(&rt, &rt, Blank::new(1), Blank::new(1))
}
