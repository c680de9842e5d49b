//! Linear systems for `bench/systems`, which times them.
//!
//! Each line of standard input is a job: the bits of the field, `fill`, `kernel` or `rank`, the numbers of rows and columns, and the rounds. Each round fills a matrix with other numbers. The answer is a checksum.
#![tactic(auto)]

ghost use Rattle.std.specs.Prelude.{◌≡◌, ◌*◌, ◌<◌, ◌≤◌, length, IfOk};

use gf2m::{Field, Gf};
use linear_solve::Matrix;
use lists::Memory;
use std::alloc::Global;
use std::io;
use std::marker::Brand;
use std::sync::ledger::Blank;
use steps::{Ledger, ProductLedger, Products, Steps};

/// What is done with each matrix.
#[derive(Debug, Clone, Copy)]
enum Work {
    Fill,
    Kernel,
    Rank,
}

/// One job to run.
#[derive(Debug, Clone, Copy)]
struct Job {
    bits: u32,
    work: Work,
    rows: usize,
    columns: usize,
    rounds: u32,
    ghost some_rows: { 1 ≤ rows },
    ghost few_rows: { rows ≤ 10000 },
    ghost some_columns: { 1 ≤ columns },
    ghost few_columns: { columns ≤ 10000 },
}

/// What a word asks to be done.
fn read_work(word: &str) -> Option<Work> {
    match word {
        "fill" => Some(Work::Fill),
        "kernel" => Some(Work::Kernel),
        "rank" => Some(Work::Rank),
        _ => None,
    }
}

/// The job that a line says.
fn read_job(line: &str) -> Option<Job> {
    let mut words = line.split(' ');
    let bits = words.next()?.parse::<u32>().ok()?;
    let work = read_work(words.next()?)?;
    let rows = words.next()?.parse::<usize>().ok()?;
    let columns = words.next()?.parse::<usize>().ok()?;
    let rounds = words.next()?.parse::<u32>().ok()?;
    if rows < 1 || rows > 10000 || columns < 1 || columns > 10000 {
        return None;
    }
    Some(Job {
        bits,
        work,
        rows,
        columns,
        rounds,
    })
}

/// Sets the entries of one row, each by the next of a row of numbers.
fn fill_row<F: Field>(matrix: &mut Matrix<F>, row: usize, columns: usize, number: &mut u32)
    requires row { row < length matrix.old.rows }
    requires columns { columns ≤ matrix.old.columns }
    ensures rows { length matrix.new.rows ≡ length matrix.old.rows }
    ensures columns { matrix.new.columns ≡ matrix.old.columns }
{
    'columns: for column in 0..columns {
        *number = number.wrapping_mul(1664525).wrapping_add(1013904223);
        if let Some(entry) = F::of((*number >> 24) as u8 >> (8 - F::BITS)) {
            matrix.set(row, column, entry);
        }
    }
}

/// A matrix of the job's size, filled row by row.
fn filled<F: Field>(alloc: Global, job: Job, number: &mut u32) -> Result<Matrix<F>, Memory>
    ensures rows { IfOk result (λ matrix. length matrix.rows ≡ job.rows) }
    ensures columns { IfOk result (λ matrix. matrix.columns ≡ job.columns) }
{
    let mut matrix = Matrix::zeros(alloc, job.rows, job.columns)?;
    'rows: for row in 0..job.rows {
        fill_row(&mut matrix, row, job.columns, number);
    }
    Ok(matrix)
}

/// The sum with one more number.
fn with_number(sum: u64, number: u64) -> u64 {
    sum.wrapping_mul(31).wrapping_add(number)
}

/// The sum with all elements.
fn with_elements<F: Field>(sum: u64, elements: &[F]) -> u64 {
    let mut sum = sum;
    for element in elements {
        sum = with_number(sum, element.to() as u64);
    }
    sum
}

/// The checksum with what one matrix gives: the entry in its last row and column, its kernel's vector, or its rank.
fn one_round<F: Field, P: Products>(
    alloc: Global,
    job: Job,
    sum: u64,
    number: &mut u32,
    prods: &mut Steps<P>,
) -> Result<u64, Memory> {
    let matrix = filled::<F>(alloc, job, number)?;
    match job.work {
        Work::Fill => {
            let last = matrix.get(job.rows - 1, job.columns - 1);
            Ok(with_number(sum, last.to() as u64))
        }
        Work::Kernel => match matrix.kernel(alloc, prods)? {
            Some(vector) => Ok(with_elements(sum, vector.as_slice())),
            None => Ok(with_number(sum, 0)),
        },
        Work::Rank => Ok(with_number(sum, matrix.rank(alloc, prods)? as u64)),
    }
}

/// Does the job over one field.
fn run<F: Field, P: Products>(
    alloc: Global,
    job: Job,
    prods: &mut Steps<P>,
) -> Result<u64, Memory> {
    let mut sum: u64 = 0;
    let mut number: u32 = 1;
    for _ in 0..job.rounds {
        sum = one_round::<F, P>(alloc, job, sum, &mut number, prods)?;
    }
    Ok(sum)
}

/// Does the job over the field that it names.
fn run_in_field<P: Ledger>(rt: &HostRuntime, job: Job, blank: Blank) -> Result<u64, Memory>
    requires name { blank.name ≡ P.name }
    requires parts { blank.parts ≡ P.parts }
    requires some { 0 < P.parts }
{
    let alloc = rt.alloc();
    let mut prods = Steps::<ProductLedger<P>>::new(rt, blank);
    match job.bits {
        4 => run::<Gf<4>, _>(alloc, job, &mut prods),
        5 => run::<Gf<5>, _>(alloc, job, &mut prods),
        6 => run::<Gf<6>, _>(alloc, job, &mut prods),
        7 => run::<Gf<7>, _>(alloc, job, &mut prods),
        _ => run::<Gf<8>, _>(alloc, job, &mut prods),
    }
}

/// Reads jobs from standard input, a line each, and prints the number of each.
fn main(rt: HostRuntime) -> io::Result<()> {
    for line in rt.lines(rt.alloc()) {
        let Some(job) = read_job(line?.as_str()) else {
            println!(rt; "no job")?;
            continue;
        };
        match run_in_field::<Brand>(&rt, job, Blank::new(1)) {
            Ok(sum) => println!(rt; "{sum}")?,
            Err(Memory) => println!(rt; "no memory")?,
        }
    }
    Ok(())
}
