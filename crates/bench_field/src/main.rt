//! Loops over field products and slices for `bench/field`, which times them.
//!
//! Each line of standard input is a loop: the bits of the field, `products` or `slices`, the length of the two slices, and the rounds. The answer is a checksum.
#![tactic(auto)]

ghost use Rattle.std.specs.Prelude.{◌≡◌, ◌<◌, ◌≤◌, length};

use gf2m::{Field, Gf};
use std::alloc::{AllocError, Global};
use std::io;
use std::marker::Brand;
use std::sync::ledger::Blank;
use steps::{Ledger, ProductLedger, Products, Steps};

/// One loop to run.
#[derive(Debug, Clone, Copy)]
struct Job {
    bits: u32,
    slices: bool,
    length: u32,
    rounds: u32,
}

/// The job that a line says.
fn read_job(line: &str) -> Option<Job> {
    let mut words = line.split(' ');
    let bits = words.next()?.parse::<u32>().ok()?;
    let slices = words.next()? == "slices";
    let length = words.next()?.parse::<u32>().ok()?;
    let rounds = words.next()?.parse::<u32>().ok()?;
    Some(Job {
        bits,
        slices,
        length,
        rounds,
    })
}

/// Elements in a row, each some steps on from the one before.
fn elements<F: Field>(alloc: Global, count: u32, step: u32) -> Result<Vec<F>, AllocError> {
    let mut elements = Vec::new(alloc);
    let mut number: u32 = 0;
    for _ in 0..count {
        number = number.wrapping_add(step) % 256;
        if let Some(element) = F::of((number as u8) >> (8 - F::BITS)) {
            elements.push(element)?;
        }
    }
    Ok(elements)
}

/// Sums of products, each round's put among the factors of the next.
fn products<F: Field, P: Products>(xs: &mut [F], ys: &[F], rounds: u32, prods: &mut Steps<P>)
    requires { length xs.old ≡ length ys.now }
{
    let mut sum = F::zero();
    for round in 0..rounds {
        for place in 0..ys.len() {
            sum = sum.add(xs[place].mul(ys[place], prods));
        }
        if let Some(x) = xs.get_mut(round as usize % 64) {
            *x = sum;
        }
    }
}

/// A multiple of the second slice added to the first in each round.
fn slices<F: Field, P: Products>(xs: &mut [F], ys: &[F], rounds: u32, prods: &mut Steps<P>)
    requires { length xs.old ≡ length ys.now }
{
    for round in 0..rounds {
        if let Some(factor) = ys.get(round as usize % 64) {
            F::add_multiple(xs, ys, *factor, prods);
        }
    }
}

/// A number that hangs on all elements.
fn checksum<F: Field>(xs: &[F]) -> u32 {
    let mut sum: u32 = 0;
    for x in xs {
        sum = sum.wrapping_mul(31).wrapping_add(x.to() as u32);
    }
    sum
}

/// Does the job over one field.
fn run<F: Field, P: Products>(
    alloc: Global,
    job: Job,
    prods: &mut Steps<P>,
) -> Result<u32, AllocError> {
    let mut xs = elements::<F>(alloc, job.length, 7)?;
    let ys = elements::<F>(alloc, job.length, 11)?;
    if xs.len() == ys.len() {
        if job.slices {
            slices(&mut xs, &ys, job.rounds, prods);
        } else {
            products(&mut xs, &ys, job.rounds, prods);
        }
    }
    Ok(checksum(&xs))
}

/// Does the job over the field that it names.
fn run_in_field<P: Ledger>(rt: &HostRuntime, job: Job, blank: Blank) -> Result<u32, AllocError>
    requires name { blank.name ≡ P.name }
    requires parts { blank.parts ≡ P.parts }
    requires some { 0 < P.parts }
{
    let alloc = rt.alloc();
    let mut prods = Steps::<ProductLedger<P>>::new(rt, blank);
    match job.bits {
        4 => run::<Gf<4>, _>(alloc, job, &mut prods),
        5 => run::<Gf<5>, _>(alloc, job, &mut prods),
        6 => run::<Gf<6>, _>(alloc, job, &mut prods),
        7 => run::<Gf<7>, _>(alloc, job, &mut prods),
        _ => run::<Gf<8>, _>(alloc, job, &mut prods),
    }
}

/// Reads jobs from standard input, a line each, and prints the checksum of each.
fn main(rt: HostRuntime) -> io::Result<()> {
    for line in rt.lines(rt.alloc()) {
        let Some(job) = read_job(line?.as_str()) else {
            println!(rt; "no loop")?;
            continue;
        };
        let sum = run_in_field::<Brand>(&rt, job, Blank::new(1))?;
        println!(rt; "{sum}")?;
    }
    Ok(())
}
