//! Curves over GF(256) for `bench/curves`, which times them.
//!
//! Each line of standard input is a job: `koetter`, `linear`, `roots` or `points`, the dimension k, the bound c, the number of points and the rounds. In each round a coalition of c codewords makes other points; `roots` searches the curve by `koetter` for its roots too. Or it is `slices` and the number of rounds of adding a multiple of one slice of 1,024 elements to another. The answer is a checksum.
#![tactic(auto)]

ghost use Rattle.std.specs.Prelude.{◌≡◌, ◌<◌, ◌≤◌, length, IfOk};

use bi_poly::BiPoly;
use gf2m::{Field, Gf};
use gs_koetter::Koetter;
use gs_linear::Linear;
use gs_params::{Interpolate, Params, params};
use lists::Memory;
use rr_roots::poly_roots;
use std::alloc::Global;
use std::io;
use std::marker::Brand;
use std::sync::ledger::Blank;
use steps::{Ledger, ProductLedger, Products, Steps};

/// What is done in each round.
#[derive(Debug, Clone, Copy)]
enum Work {
    Points,
    Linear,
    Koetter,
    Roots,
    Slices,
}

/// One job to run.
#[derive(Debug, Clone, Copy)]
struct Job {
    work: Work,
    k: u32,
    c: u32,
    r: u32,
    rounds: u32,
    ghost least_k: { 2 ≤ k },
    ghost most_k: { k ≤ 13 },
    ghost few_points: { r ≤ 1024 },
}

/// What a word asks to be done.
fn read_work(word: &str) -> Option<Work> {
    match word {
        "points" => Some(Work::Points),
        "linear" => Some(Work::Linear),
        "koetter" => Some(Work::Koetter),
        "roots" => Some(Work::Roots),
        "slices" => Some(Work::Slices),
        _ => None,
    }
}

/// The job that a line says.
fn read_job(line: &str) -> Option<Job> {
    let mut words = line.split(' ');
    let work = read_work(words.next()?)?;
    let k = words.next()?.parse::<u32>().ok()?;
    let c = words.next()?.parse::<u32>().ok()?;
    let r = words.next()?.parse::<u32>().ok()?;
    let rounds = words.next()?.parse::<u32>().ok()?;
    if k < 2 || k > 13 || r > 1024 {
        return None;
    }
    Some(Job {
        work,
        k,
        c,
        r,
        rounds,
    })
}

/// The next of a row of numbers.
fn next(number: &mut u32) -> u32 {
    *number = number.wrapping_mul(1664525).wrapping_add(1013904223);
    *number >> 8
}

/// The element of this number, or zero where there is none.
fn element<F: Field>(number: u32) -> F {
    F::of((number % 256) as u8).unwrap_or(F::zero())
}

/// The value at x of a polynomial with the coefficients that belong to the seed.
fn value<F: Field, P: Products>(k: u32, seed: u32, x: F, prods: &mut Steps<P>) -> F {
    let mut number = seed;
    let mut value = F::zero();
    for _ in 0..k {
        value = value.mul(x, prods).add(element(next(&mut number)));
    }
    value
}

/// The points of a coalition's word, each with the symbol of one of its c members.
fn coalition<F: Field, P: Products>(
    alloc: Global,
    job: Job,
    seed: u32,
    prods: &mut Steps<P>,
) -> Result<Vec<(F, F)>, Memory>
    ensures { IfOk result (λ points. length points.items ≡ job.r) }
{
    let mut number = seed;
    let mut points = Vec::new(alloc);
    'points: for i in 0..job.r {
        let member = next(&mut number) % job.c.max(1);
        let x = element::<F>(i);
        points.push((
            x,
            value(job.k, seed.wrapping_add(member.wrapping_mul(77)), x, prods),
        ))?;
    }
    Ok(points)
}

/// The sum with one more number.
fn with_number(sum: u64, number: u64) -> u64 {
    sum.wrapping_mul(31).wrapping_add(number)
}

/// What is found with the points of one round.
fn found<F: Field, P: Products>(
    alloc: Global,
    job: Job,
    points: &[(F, F)],
    chosen: &Params,
    prods: &mut Steps<P>,
) -> Result<BiPoly<F>, Memory>
    requires { length points.now ≡ chosen.now.r }
{
    match job.work {
        Work::Linear => Linear.curve(alloc, points, chosen, prods),
        Work::Koetter => Koetter.curve(alloc, points, chosen, prods),
        _ => Ok(BiPoly::zero(alloc)),
    }
}

/// A number that depends on what is found with the points of one round.
fn checked<F: Field, P: Products>(
    alloc: Global,
    job: Job,
    points: &[(F, F)],
    chosen: &Params,
    prods: &mut Steps<P>,
) -> Result<u64, Memory>
    requires { length points.now ≡ chosen.now.r }
{
    if let Work::Roots = job.work {
        return roots(alloc, points, chosen, prods);
    }
    let curve = found(alloc, job, points, chosen, prods)?;
    Ok(curve.coef(0, 1).to() as u64)
}

/// How many roots the curve has that goes through the points.
fn roots<F: Field, P: Products>(
    alloc: Global,
    points: &[(F, F)],
    chosen: &Params,
    prods: &mut Steps<P>,
) -> Result<u64, Memory>
    requires { length points.now ≡ chosen.now.r }
{
    let curve = Koetter.curve(alloc, points, chosen, prods)?;
    let roots = poly_roots(alloc, &curve, chosen.w + 1, prods)?;
    Ok(roots.as_slice().len() as u64)
}

/// A multiple of the second slice added to the first in each round.
fn slices<F: Field, P: Products>(
    alloc: Global,
    rounds: u32,
    prods: &mut Steps<P>,
) -> Result<u64, Memory> {
    let mut xs = vec![in alloc; F::one(); 1024]?;
    let ys = vec![in alloc; F::one(); 1024]?;
    'rounds: for round in 0..rounds {
        F::add_multiple(&mut xs, &ys, element(round), prods);
    }
    Ok(xs[0].to() as u64)
}

/// Does the job, and gives a number that hangs on all that it computed.
fn run<P: Ledger>(rt: &HostRuntime, job: Job, blank: Blank) -> Result<u64, Memory>
    requires name { blank.name ≡ P.name }
    requires parts { blank.parts ≡ P.parts }
    requires some { 0 < P.parts }
{
    let alloc = rt.alloc();
    let mut prods = Steps::<ProductLedger<P>>::new(rt, blank);
    if let Work::Slices = job.work {
        return slices::<Gf<8>, _>(alloc, job.rounds, &mut prods);
    }
    let Ok(chosen) = params(job.k, job.c, job.r) else {
        return Ok(0);
    };
    let mut sum: u64 = 0;
    for round in 0..job.rounds {
        let points = coalition::<Gf<8>, _>(alloc, job, round, &mut prods)?;
        let result = checked(alloc, job, &points, &chosen, &mut prods)?;
        sum = with_number(sum, result);
    }
    Ok(sum)
}

/// Reads jobs from standard input, a line each, and prints the number of each.
fn main(rt: HostRuntime) -> io::Result<()> {
    for line in rt.lines(rt.alloc()) {
        let Some(job) = read_job(line?.as_str()) else {
            println!(rt; "no job")?;
            continue;
        };
        match run::<Brand>(&rt, job, Blank::new(1)) {
            Ok(sum) => println!(rt; "{sum}")?,
            Err(Memory) => println!(rt; "no memory")?,
        }
    }
    Ok(())
}
