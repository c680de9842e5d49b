//! Findings as the text of a report.

ghost use Rattle.std.specs.Prelude.{◌≡◌, Some, map, IfOk};
ghost use Rattle.serde_json.specs.View.{view, items_of, items_view};
ghost use Rattle.desk_terms.specs.Report.{report_text};
ghost use Rattle.report_terms.specs.Reports.{report_of};
ghost use Rattle.report_terms.specs.Values.{number_value, accused_value, report_value, AreReportable, HasPlainNames};

use desk_terms::{Accused, Findings};
use lists::Memory;
use serde_json::{Value, json};
use std::alloc::{AllocError, Global};

/// The report of these findings. The only error is want of memory.
pub fn report_text(alloc: Global, findings: &Findings) -> Result<Vec<u8>, Memory>
    requires { HasPlainNames findings.now }
    ensures text { IfOk result (λ text. text.items ≡ report_text findings.now) }
    ensures again { AreReportable findings.now
        → IfOk result (λ text. report_of text.items ≡ Some findings.now) }
{
    let value = report_value(alloc, findings)?;
    let mut text = value.to_vec(alloc)?;
    text.push(b'\n')?;
    Ok(text)
}

/// The report as a value of JSON.
#[tactic(auto, unfolding(report_terms::specs::Values::report_value))]
fn report_value(alloc: Global, findings: &Findings) -> Result<Value, AllocError>
    ensures { IfOk result (λ value. view value ≡ report_value findings.now) }
{
    let accused = Value::Array(accused_values(alloc, findings.accused.as_slice())?);
    let bound = Value::from(findings.bound);
    let readable = Value::from(findings.readable);
    json!(in alloc; {"accused": accused, "bound": bound, "readable": readable})
}

/// The accused as values, in order.
fn accused_values(alloc: Global, accused: &[Accused]) -> Result<Vec<Value>, AllocError>
    ensures { IfOk result (λ values. items_view values.items
        ≡ items_of (map accused_value accused.now)) }
{
    let mut values = Vec::new(alloc);
    'accused: for one in accused {
        values.push(accused_value(alloc, one)?)?;
    }
    Ok(values)
}

/// One of the accused as a value.
#[tactic(auto, unfolding(report_terms::specs::Values::accused_value))]
fn accused_value(alloc: Global, accused: &Accused) -> Result<Value, AllocError>
    ensures { IfOk result (λ value. view value ≡ accused_value accused.now) }
{
    let name = accused.name.as_str();
    let places = Value::Array(place_values(alloc, accused.places.as_slice())?);
    let serial = Value::from(accused.serial);
    json!(in alloc; {"name": name, "places": places, "serial": serial})
}

/// Places as values, in order.
fn place_values(alloc: Global, places: &[u16]) -> Result<Vec<Value>, AllocError>
    ensures { IfOk result (λ values. items_view values.items
        ≡ items_of (map number_value places.now)) }
{
    let mut values = Vec::new(alloc);
    'places: for place in places {
        values.push(Value::from(*place))?;
    }
    Ok(values)
}
